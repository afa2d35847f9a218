//! Marks are put on words before `clap` reads them, so that it does not take a word for an option, and are removed
//! again. Each word is read through this module, except that of `--mac`, so no mark is left on a word.

ghost use Rattle.std.specs.{Cow.cow_str_bytes, Prelude.{◌≡◌, drop, IfOk, map, option_map}};
ghost use Rattle.clap.specs.{Walk.texts, Words.{found_of, rows_of}};
ghost use Rattle.bac_words.specs.{marked, marked_words, typed_word, unmarked, wants_mark};

use bac_text::WordSource;
use clap::ArgMatches;
use std::alloc::{AllocError, Global};
use std::borrow::CowStr;

/// Returns the words, with a mark on each that needs one, except the program's name. Only marked words are copied.
pub(crate) fn marked_words<'a>(
    alloc: Global,
    words: &[&'a str],
) -> Result<Vec<CowStr<'a>>, AllocError>
    ensures { IfOk result (λ v. map cow_str_bytes v.items ≡ marked_words (texts words.now)) }
{
    let mut seen = Vec::new(alloc);
    if let Some((program, arguments)) = words.split_first() {
        seen.push(CowStr::Borrowed(program))?;
        for word in arguments {
            seen.push(marked(alloc, word)?)?;
        }
    }
    Ok(seen)
}

/// Returns the word of an argument as it was typed, if it is given.
#[tactic(auto, using(crate::proofs::first_words))]
pub(crate) fn typed_word<'a>(matches: &ArgMatches<'a>, id: &str) -> Option<&'a str>
    ensures { option_map (λ word. word.now) result ≡ typed_word id.now (rows_of (found_of matches.now)) }
{
    Some(unmarked(matches.get_str(id)?))
}

/// Marked words, read as they were typed.
#[derive(Drop)]
pub(crate) struct TypedWords<'w, 'a> {
    words: &'w [&'a str],
    // The number of words that are read.
    taken: usize,
}

impl<'w, 'a> TypedWords<'w, 'a> {
    pub(crate) fn new(words: &'w [&'a str]) -> Self
        ensures { map unmarked (texts (drop result.taken result.words.now)) ≡ map unmarked (texts words.now) }
    {
        TypedWords { words, taken: 0 }
    }
}

impl<'w, 'a> WordSource<'a> for TypedWords<'w, 'a> {
    ghost left = { λ typed. map unmarked (texts (drop typed.taken typed.words.now)) };

    #[tactic(auto, using(crate::proofs::typed_next, crate::proofs::typed_end))]
    fn next_word(&mut self) -> Option<&'a [u8]> {
        if self.taken < self.words.len() {
            let word = self.words[self.taken];
            self.taken += 1;
            return Some(unmarked(word).as_bytes());
        }
        None
    }

    #[tactic(auto, using(crate::proofs::typed_fewer))]
    fn are_countable(&self) {}
}

// Returns a word without its mark.
fn unmarked(word: &str) -> &str
    ensures { result.now ≡ unmarked word.now }
{
    word.strip_prefix("~").unwrap_or(word)
}

// Returns the word, with a mark if it needs one.
fn marked<'a>(alloc: Global, word: &'a str) -> Result<CowStr<'a>, AllocError>
    ensures { IfOk result (λ s. cow_str_bytes s ≡ marked word.now) }
{
    if wants_mark(word) {
        Ok(CowStr::Owned(format!(in alloc; "~{word}")?))
    } else {
        Ok(CowStr::Borrowed(word))
    }
}

// Returns whether the word needs a mark: `clap` would read it as an option, or it looks like a marked word.
fn wants_mark(word: &str) -> bool
    ensures { result ≡ wants_mark word.now }
{
    match word.as_bytes() {
        [b'~', ..] => true,
        [b'-', digit, ..] => digit.is_ascii_digit(),
        _ => false,
    }
}
