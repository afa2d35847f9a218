//! The lines of a reader, one at a time.

ghost use Rattle.std.specs.Prelude.{[], drop, false, IfNone, length, MatchOption, MatchResult, position, take, true};
ghost use Rattle.std.specs.Prelude.{◌++◌, ◌+◌, ◌<◌, ◌==◌, ◌≡◌, ◌≢◌, ◌≤◌, ◌⊎◌};
ghost use Rattle.bac_print.specs.{has_failed, last_of, Prints, reads_of, writer_of};
ghost use Rattle.bac_script.specs.{empty_reads, HasNoFeed, HasNoLine, IsLineCut, IsNext, IsUnread, may_read};
ghost use Rattle.bac_script.specs.{most_to_come, ReaderStands, ReadForLine, ReadsNoMore, TakesAndKeeps};

use bac_print::{Checked, Page, WriteFailed};
use bac_text::{Delimiter, LONGEST_LINE, position_of_end};
use std::io::{Read, Write};
use std::marker::Model;

// The octets that a chunk can hold: a line that is not whole yet, and the result of a read after it.
const CHUNK_ROOM: usize = 32_768;

// The octets of the longest line with its line feed. As many octets without a line feed are a line that is too long.
const LINE_ROOM: usize = LONGEST_LINE + 1;

/// Octets that were read and not yet taken.
#[derive(Drop)]
pub struct Chunk {
    octets: [u8; CHUNK_ROOM],
    start: usize,
    end: usize,
}

/// The next line has this many octets. If reading is over, the line is all that was left.
#[derive(Clone, Copy)]
pub struct Next {
    pub reading: Reading,
    pub length: usize,
}

/// Whether more can be read.
#[derive(Clone, Copy, PartialEq, Eq)]
pub enum Reading {
    /// More octets may come.
    Open,
    /// A read gave nothing.
    AtEnd,
    /// A read failed, or the reads are spent.
    Failed,
}

impl Model for Chunk {
    ghost use Rattle.std.specs.Prelude.{◌≤◌, List, slice_range, ℕ};
    ghost use Rattle.bac_script.specs.Limits.{chunk_room};

    ghost Value = { List ℕ };

    ghost view = { λ chunk. slice_range chunk.octets chunk.start chunk.end };

    ghost invariant = { λ chunk. (chunk.start ≤ chunk.end) × (chunk.end ≤ chunk_room) };
}

impl Chunk {
    /// Returns an empty chunk.
    pub fn new() -> Self
        ensures { result ≡ [] }
    {
        Chunk {
            octets: [0; CHUNK_ROOM],
            start: 0,
            end: 0,
        }
    }

    /// Finds the next line, and reads until the whole line is held. Before each read the held text of the page is
    /// written, so that nobody waits for it.
    ///
    /// # Errors
    ///
    /// `WriteFailed` if the page has failed and more must be read.
    #[inline(always)]
    pub fn next_line<R: Read, W: Write>(
        &mut self,
        reader: &mut Checked<R>,
        page: &mut Page<'_, W>,
    ) -> Result<Next, WriteFailed>
        requires { has_failed reader.old ≡ false }
        ensures given { TakesAndKeeps R.remaining reader.old reader.new self.old self.new [] }
        ensures printed { Prints W.contents page.old page.new [] }
        ensures next { MatchResult result
            (λ next. IsNext R.remaining reader.old reader.new self.new next.reading next.length)
            (λ _. ReaderStands R.remaining Reading.Open reader.old reader.new self.new) }
        ensures writer { MatchResult result (λ _. Unit {0}) (λ _. has_failed (writer_of page.new) ≡ true) }
        ensures asked { MatchResult result
            (λ next. reads_of reader.new + length self.old ≤ reads_of reader.old + length self.new
            + empty_reads next.reading)
            (λ _. reads_of reader.new + length self.old ≤ reads_of reader.old + length self.new) }
        ensures needed { ReadForLine reader.old reader.new page.old page.new self.old self.new }
        ensures spared { ReadsNoMore reader.old reader.new }
        ensures room { most_to_come reader.new self.new ≤ most_to_come reader.old self.old }
    {
        let mut searched = 0;
        loop {
            if let Some(length) = self.line_length(&mut searched) {
                let reading = Reading::Open;
                return Ok(Next { reading, length });
            }
            page.turn_in();
            if page.failed() {
                return Err(WriteFailed);
            }
            let reading = self.read_more(reader);
            if reading != Reading::Open {
                let length = self.len();
                return Ok(Next { reading, length });
            }
        }
    }

    /// Returns the first held octets.
    pub fn front(&self, count: usize) -> &[u8]
        requires { count ≤ length self.now }
        ensures { result.now ≡ take count self.now }
    {
        &self.octets[self.start..self.start + count]
    }

    /// Removes the first octets.
    #[tactic(auto, using(crate::proofs::range_skipped))]
    pub fn skip(&mut self, count: usize)
        requires { count ≤ length self.old }
        ensures { self.new ≡ drop count self.old }
    {
        self.start += count;
    }

    // Returns the number of octets of the next line, if the whole line is held. The first `searched` octets have no
    // line feed, and aren't searched again. If no whole line is held, all octets have been searched.
    #[tactic(auto, using(crate::proofs::range_size, crate::proofs::none_held))]
    fn line_length(&self, searched: &mut usize) -> Option<usize>
        requires within { searched.old ≤ length self.now }
        requires few { searched.old < LINE_ROOM }
        requires before { HasNoFeed (take searched.old self.now) }
        ensures line { MatchOption result (HasNoLine self.now)
            (λ count. (count ≤ length self.now) × IsLineCut Reading.Open (take count self.now)) }
        ensures searched { IfNone result (searched.new ≡ length self.now) }
    {
        let limit = self.end.min(self.start + LINE_ROOM);
        if let Some(position) = feed_position(&self.octets[self.start + *searched..limit]) {
            return Some(*searched + position + 1);
        }
        *searched = limit - self.start;
        if *searched < LINE_ROOM {
            None
        } else {
            Some(*searched)
        }
    }

    // Reads once, and puts the octets after the held ones.
    fn read_more<R: Read>(&mut self, reader: &mut Checked<R>) -> Reading
        requires reader { has_failed reader.old ≡ false }
        requires short { length self.old < LINE_ROOM }
        ensures given { TakesAndKeeps R.remaining reader.old reader.new self.old self.new [] }
        ensures stands { ReaderStands R.remaining result reader.old reader.new [] }
        ensures asked { reads_of reader.new + length self.old ≤ reads_of reader.old + length self.new
            + empty_reads result }
        ensures once { reads_of reader.new ≤ reads_of reader.old + 1 }
        ensures last { IsUnread reader.old reader.new self.old self.new ⊎ (self.new ≡ self.old ++ last_of reader.new) }
        ensures spared { ReadsNoMore reader.old reader.new }
        ensures room { most_to_come reader.new self.new ≤ most_to_come reader.old self.old }
        ensures more { result ≡ Reading.Open → may_read reader.new < may_read reader.old }
        ensures same { result ≢ Reading.Open → self.new ≡ self.old }
    {
        if reader.reads() == u32::MAX {
            return Reading::Failed;
        }
        if self.end > CHUNK_ROOM - LINE_ROOM {
            self.octets.copy_within(self.start..self.end, 0);
            self.end -= self.start;
            self.start = 0;
        }
        let Ok(count) = reader.read(&mut self.octets[self.end..]) else {
            return Reading::Failed;
        };
        if count == 0 {
            return Reading::AtEnd;
        }
        self.end += count;
        Reading::Open
    }

    // Returns the number of held octets.
    fn len(&self) -> usize
        ensures { result ≡ length self.now }
    {
        self.end - self.start
    }
}

// Returns the position of the first line feed.
fn feed_position(octets: &[u8]) -> Option<usize>
    ensures { result ≡ position (λ octet. octet == 10) octets.now }
{
    position_of_end(octets, Delimiter::At(b'\n'))
}
