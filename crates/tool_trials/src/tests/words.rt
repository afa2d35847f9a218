//! Command lines.

mod calls;
mod others;
mod refusals;

use crate::tests::{CONTROLLER, LOCALHOST, OTHER, are_digits};
use bac_text::Call;
use bac_words::{Job, Tool, UsageFault, parse_words};
use std::alloc::Global;

/// Returns the job of a line, cut at spaces. The first word is the program's name.
fn parse(alloc: Global, line: &str) -> Result<Job, UsageFault> {
    let words: Vec<&str> = line.split(' ').collect(alloc)?;
    parse_words(alloc, words.as_slice())
}
