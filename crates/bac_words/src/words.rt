//! The words with the tool's name in front, if the program was called by it.

ghost use Rattle.std.specs.{Option.option_map_or, Prelude.{[], ◌∷◌, ◌≡◌, IfOk, map, option_copied}};
ghost use Rattle.std.specs.String.{string_bytes};
ghost use Rattle.bac_words.specs.{is_tool, tool_named, words_called};

use std::alloc::{AllocError, Global};
use std::path::Path;

/// Returns the words with the name of the tool in front, if the program is called by one. The program's own name is
/// empty then, so that help and usage begin with the tool's name.
pub fn words_of(alloc: Global, typed: &[String]) -> Result<Vec<&str>, AllocError>
    ensures { IfOk result (λ words. map (λ word. word.now) words.items ≡ words_called (map string_bytes typed.now)) }
{
    let Some((program, rest)) = typed.split_first() else {
        return Ok(Vec::new(alloc));
    };
    let mut words = names_of(alloc, program.as_str())?;
    for word in rest {
        words.push(word.as_str())?;
    }
    Ok(words)
}

// Returns the program's name, or an empty one and the tool.
fn names_of(alloc: Global, program: &str) -> Result<Vec<&str>, AllocError>
    ensures { IfOk result (λ names. map (λ name. name.now) names.items
        ≡ option_map_or (λ tool. [] ∷ tool ∷ []) (tool_named program.now) (program.now ∷ [])) }
{
    match tool_called(program) {
        Some(tool) => Vec::from_slice(alloc, &["", tool]),
        None => Vec::from_slice(alloc, &[program]),
    }
}

// Returns the tool that the program's own name names, if it names one.
fn tool_called(program: &str) -> Option<&str>
    ensures { option_copied result ≡ tool_named program.now }
{
    let name = Path::new(program).file_name()?;
    if is_tool(name) { Some(name) } else { None }
}

fn is_tool(name: &str) -> bool
    ensures { result ≡ is_tool name.now }
{
    matches!(
        name,
        "bacrp" | "bacwp" | "bacwi" | "bacdev" | "bacrun" | "bactrace"
    )
}
