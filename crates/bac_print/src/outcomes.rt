//! How a request ended, as it is printed.
ghost use Rattle.std.specs.Prelude.{decimal, false, is_err, ◌++◌, ◌≡◌};
ghost use Rattle.bac_tsm.specs.{outcome_seen, Events.Failed};
ghost use Rattle.bac_print.specs.{has_failed, outcome_text, Prints, TookOrFailed};

use crate::checked::{Checked, WriteFailed};
use crate::page::Page;
use bac_tsm::Outcome;
use std::io::Write;

/// Writes how a request ended, such as `value 4290999a`, `error 2 32` or `abort 4`.
///
/// # Errors
///
/// `WriteFailed` if the writer failed or took no octet. Then only the beginning of the text was written.
#[tactic(auto, using(crate::proofs::shown))]
pub fn show_outcome<W: Write>(
    outcome: &Outcome<'_>,
    writer: &mut Checked<W>,
) -> Result<(), WriteFailed>
    requires { has_failed writer.old ≡ false }
    ensures text { TookOrFailed W.contents writer.old writer.new (outcome_text (outcome_seen outcome.now)) result }
    ensures failed { has_failed writer.new ≡ is_err result }
{
    let mut page = Page::new(writer);
    print_outcome(&mut page, *outcome);
    page.finish()
}

/// Prints how a request ended.
pub fn print_outcome<W: Write>(page: &mut Page<'_, W>, outcome: Outcome<'_>)
    ensures { Prints W.contents page.old page.new (outcome_text (outcome_seen outcome.entry)) }
{
    match outcome {
        Outcome::Simple => page.print(b"ok"),
        Outcome::Complex(body) => page.print_ack(body),
        Outcome::Segmented => page.print(b"segmented"),
        Outcome::Error { class, code } => print_error(page, class, code),
        Outcome::BadError => page.print(b"bad-error"),
        Outcome::Reject(reason) => print_reason(page, b"reject ", reason),
        Outcome::Abort(reason) => print_reason(page, b"abort ", reason),
    }
}

#[tactic(auto, using(crate::proofs::printing))]
fn print_error<W: Write>(page: &mut Page<'_, W>, class: u32, code: u32)
    ensures { Prints W.contents page.old page.new (outcome_text (Failed class code)) }
{
    page.print(b"error ");
    page.print_number(u64::from(class));
    page.print(b" ");
    page.print_number(u64::from(code));
}

#[tactic(auto, using(crate::proofs::printing))]
fn print_reason<W: Write>(page: &mut Page<'_, W>, what: &[u8], reason: u8)
    ensures { Prints W.contents page.old page.new (what.now ++ decimal reason) }
{
    page.print(what);
    page.print_number(u64::from(reason));
}
