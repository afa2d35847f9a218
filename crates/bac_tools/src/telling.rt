//! Messages, printed on a page.
ghost use Rattle.std.specs.Prelude.{codes, List, ℕ, ◌++◌};
ghost use Rattle.{bac_print.specs.{message_text, Prints}, bac_words.specs.Telling.told_by, bac_tools.specs.AreOctetsOf};

use arrayvec::ArrayVec;
use bac_print::{FaultMessage, Page};
use bac_words::Telling;
use std::fmt::{self, Write as _};
use std::io::Write;

// The number of octets of a text of `clap` that are printed at a time.
const PIECE_ROOM: usize = 4_096;

/// Prints the message.
pub(crate) fn print_telling<W: Write>(telling: Telling<'_>, page: &mut Page<'_, W>)
    ensures { (octets : List ℕ) × AreOctetsOf (told_by telling.entry) octets
        × Prints W.contents page.old page.new octets }
{
    match telling {
        Telling::Text(text) => print_text(text, page),
        Telling::Line(message) => print_line(message, page),
    }
}

#[tactic(auto, using(bac_print::proofs::Printed::printing))]
fn print_line<W: Write>(message: FaultMessage, page: &mut Page<'_, W>)
    ensures { Prints W.contents page.old page.new (codes "bactool: " ++ (message_text message ++ codes "\n")) }
{
    page.print(b"bactool: ");
    page.print_message(message);
    page.print(b"\n");
}

// Prints a text of `clap`, one piece after another, since it may have any length.
fn print_text<W: Write>(text: &clap::Error, page: &mut Page<'_, W>)
    ensures { (octets : List ℕ) × Prints W.contents page.old page.new octets }
{
    let mut told: usize = 0;
    'pieces: loop {
        let mut piece = Piece {
            passed: told,
            octets: ArrayVec::new(),
        };
        let _ = write!(piece, "{text}");
        let octets = piece.octets.as_slice();
        page.print(octets);
        // A piece with room left is the last one.
        if octets.len() < PIECE_ROOM || told > usize::MAX - PIECE_ROOM {
            return;
        }
        told += PIECE_ROOM;
    }
}

// Returns a piece of a text: the octets after `passed`, as many as there is room for.
#[derive(Drop)]
struct Piece {
    passed: usize,
    octets: ArrayVec<u8, PIECE_ROOM>,
}

impl fmt::Write for Piece {
    fn write_str(&mut self, text: &str) -> fmt::Result {
        let octets = text.as_bytes();
        let passed = octets.len().min(self.passed);
        self.passed -= passed;
        let rest = &octets[passed..];
        let taken = rest.len().min(self.octets.remaining_capacity());
        let _ = self.octets.try_extend_from_slice(&rest[..taken]);
        Ok(())
    }
}
