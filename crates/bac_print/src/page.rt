//! Text on its way to a writer.
ghost use Rattle.std.specs.Prelude.{[], ◌*◌, ◌++◌, ◌+◌, ◌==◌, ◌≡◌, ◌≤◌, decimal, drop, false, is_err, length};
ghost use Rattle.{std.specs.Prelude.{None, position}, hex.specs.Hex.encode_lower};
ghost use Rattle.bac_print.specs.{folded, folded_line, folded_octet, has_failed, held, left_after, left_behind, Prints};
ghost use Rattle.bac_print.specs.{room_of, TookOrFailed, writer_of, Writes};
ghost use Rattle.bac_print.specs.Inner.{HasNoFeed, HasNotRead, hex_pairs, Holds};

use crate::checked::{Checked, WriteFailed};
use arrayvec::ArrayVec;
use bac_text::{Delimiter, position_of_end};
use std::io::Write;

// The octets that a page holds before they go to the writer.
const PAGE_ROOM: usize = 16_384;

// From this many octets on, a text is long.
const LONG_TEXT: usize = 16;

// The octets that are turned into hexadecimal at a time.
const HEX_PART: usize = 32;

// The two hexadecimal digits of each octet, in lower case.
const HEX_PAIRS: &[u8; 512] = b"\
    000102030405060708090a0b0c0d0e0f101112131415161718191a1b1c1d1e1f\
    202122232425262728292a2b2c2d2e2f303132333435363738393a3b3c3d3e3f\
    404142434445464748494a4b4c4d4e4f505152535455565758595a5b5c5d5e5f\
    606162636465666768696a6b6c6d6e6f707172737475767778797a7b7c7d7e7f\
    808182838485868788898a8b8c8d8e8f909192939495969798999a9b9c9d9e9f\
    a0a1a2a3a4a5a6a7a8a9aaabacadaeafb0b1b2b3b4b5b6b7b8b9babbbcbdbebf\
    c0c1c2c3c4c5c6c7c8c9cacbcccdcecfd0d1d2d3d4d5d6d7d8d9dadbdcdddedf\
    e0e1e2e3e4e5e6e7e8e9eaebecedeeeff0f1f2f3f4f5f6f7f8f9fafbfcfdfeff\
    ";

// The longest folded line, in octets without its line feed: as long as a line of a script may be.
const FOLDED_LINE: usize = 4_096;

// The digits of the longest number.
const LONGEST_NUMBER: usize = 20;

/// Text on its way to a writer. It is gathered in a buffer of fixed size, and goes to the writer when the buffer is
/// full or [`Page::turn_in`] is called. After a failed write all later text is lost, so it is enough to ask the page
/// once whether it failed. A page cannot be dropped: it must be finished.
pub struct Page<'w, W> {
    writer: &'w mut Checked<W>,
    held: ArrayVec<u8, PAGE_ROOM>,
    // The number of octets that the current line has room for; `None` if lines are not folded.
    room: Option<usize>,
}

impl<'w, W: Write> Page<'w, W> {
    /// Returns an empty page on its way to the writer.
    pub fn new(writer: &'w mut Checked<W>) -> Self
        ensures same { result.writer.ghost_name ≡ writer.entry.ghost_name }
        ensures writer { writer_of result ≡ writer.old }
        ensures empty { held result ≡ [] }
        ensures unfolded { room_of result ≡ None }
    {
        Page {
            writer,
            held: ArrayVec::new(),
            room: None,
        }
    }

    /// Returns an empty page on its way to the writer, whose lines are folded: a line of more than 4,096 octets goes on
    /// in lines that begin with `#+`.
    pub fn folding(writer: &'w mut Checked<W>) -> Self
        ensures same { result.writer.ghost_name ≡ writer.entry.ghost_name }
        ensures writer { writer_of result ≡ writer.old }
        ensures empty { held result ≡ [] }
        ensures folds { room_of result ≡ Some folded_line }
    {
        Page {
            writer,
            held: ArrayVec::new(),
            room: Some(FOLDED_LINE),
        }
    }

    /// Returns whether the writer has failed.
    pub fn failed(&self) -> bool
        ensures { result ≡ has_failed (writer_of self.now) }
    {
        self.writer.failed()
    }

    /// Writes the held text to the writer.
    #[tactic(auto, unfolding(crate::specs::Wrote, crate::specs::laid_out, crate::specs::room_after))]
    pub fn turn_in(&mut self)
        ensures printed { Prints W.contents self.old self.new [] }
        ensures empty { held self.new ≡ [] }
    {
        write_on(self.writer, self.held.as_slice());
        self.held.clear();
    }

    /// Writes the held text to the writer, and gives the writer back.
    ///
    /// # Errors
    ///
    /// `WriteFailed` if the writer has failed.
    pub fn finish(self) -> Result<(), WriteFailed>
        ensures printed { Writes W.contents (writer_of self.entry) self.exit.0.now (held self.entry) [] [] }
        ensures failed { has_failed self.exit.0.now ≡ is_err result }
    {
        let Page {
            writer,
            held,
            room: _,
        } = self;
        write_on(writer, held.as_slice());
        if writer.failed() {
            return Err(WriteFailed);
        }
        Ok(())
    }

    /// Prints the text.
    #[tactic(auto, using(crate::proofs::printed_whole))]
    #[inline(always)]
    pub fn print(&mut self, text: &[u8])
        ensures { Prints W.contents self.old self.new text.now }
    {
        match self.room {
            None => self.hold(text),
            Some(left) => self.room = Some(self.fold(text, left)),
        }
    }

    // Adds a text to the page, folded, if its first line has this much room. Returns the room after it. Most texts end
    // before their line does, or with it, and fit in it: the compiler knows that of a constant.
    #[inline(always)]
    fn fold(&mut self, text: &[u8], room: usize) -> usize
        ensures text { Holds W.contents self.old self.new (folded room text.now) }
        ensures left { result ≡ left_after room text.now }
    {
        match feed_position(text) {
            None if text.len() <= room => {
                self.hold(text);
                room - text.len()
            }
            Some(end) if end + 1 == text.len() && end <= room => {
                self.hold(text);
                FOLDED_LINE
            }
            _ => self.fold_lines(text, room),
        }
    }

    // Adds a text without a line feed, and returns the room after it.
    #[tactic(auto, using(crate::proofs::no_feed_fits, crate::proofs::no_feed_left))]
    #[inline(always)]
    fn fold_plain(&mut self, text: &[u8], room: usize) -> usize
        requires { HasNoFeed text.now }
        ensures text { Holds W.contents self.old self.new (folded room text.now) }
        ensures left { result ≡ left_after room text.now }
    {
        if text.len() > room {
            return self.fold_octets(text, room);
        }
        self.hold(text);
        room - text.len()
    }

    // Adds a text of several lines, or of one that may not fit, and returns the room after it.
    fn fold_lines(&mut self, text: &[u8], room: usize) -> usize
        ensures text { Holds W.contents self.old self.new (folded room text.now) }
        ensures left { result ≡ left_after room text.now }
    {
        let end = feed_position(text).unwrap_or(text.len());
        let (front, rest) = text.split_at(end.min(room));
        self.hold(front);
        self.fold_octets(rest, room - front.len())
    }

    // Prints a text octet by octet, folded, and returns the room that is left in its line.
    fn fold_octets(&mut self, octets: &[u8], room: usize) -> usize
        ensures text { Holds W.contents self.old self.new (folded room octets.now) }
        ensures left { result ≡ left_after room octets.now }
    {
        let mut left = room;
        for octet in octets {
            left = self.fold_octet(*octet, left);
        }
        left
    }

    // Prints one octet, folded, and returns the room that is left in its line.
    fn fold_octet(&mut self, octet: u8, room: usize) -> usize
        ensures text { Holds W.contents self.old self.new (folded_octet room octet) }
        ensures left { result ≡ left_behind room octet }
    {
        if octet == b'\n' {
            self.hold(b"\n");
            return FOLDED_LINE;
        }
        if room == 0 {
            self.hold(&[b'\n', b'#', b'+', octet]);
            return FOLDED_LINE - 3;
        }
        self.hold(&[octet]);
        room - 1
    }

    // Prints a text that has no line feed.
    #[tactic(auto, using(crate::proofs::printed_whole))]
    #[inline(always)]
    pub(crate) fn print_plain(&mut self, text: &[u8])
        requires { HasNoFeed text.now }
        ensures { Prints W.contents self.old self.new text.now }
    {
        match self.room {
            None => self.hold(text),
            Some(left) => self.room = Some(self.fold_plain(text, left)),
        }
    }

    // Adds a text to the page unchanged.
    #[inline(always)]
    fn hold(&mut self, text: &[u8])
        ensures { Holds W.contents self.old self.new text.now }
    {
        if self.held.try_extend_from_slice(text).is_err() {
            self.hold_past(text);
        }
    }

    // Adds a text to a page that has no room for it.
    #[cold]
    fn hold_past(&mut self, text: &[u8])
        ensures { Holds W.contents self.old self.new text.now }
    {
        self.turn_in();
        self.hold_or_write(text);
    }

    // Holds the text on an empty page, or writes it if it is longer than a page.
    fn hold_or_write(&mut self, text: &[u8])
        requires { held self.old ≡ [] }
        ensures { Holds W.contents self.old self.new text.now }
    {
        if self.held.try_extend_from_slice(text).is_err() {
            write_on(self.writer, text);
        }
    }
}

impl<W: Write> Page<'_, W> {
    /// Prints the number in decimal digits.
    #[tactic(auto, using(crate::proofs::eight_octets, crate::proofs::no_feed_digits))]
    pub fn print_number(&mut self, number: u64)
        ensures { Prints W.contents self.old self.new (decimal number) }
    {
        let mut room = [0; LONGEST_NUMBER];
        let start = write_digits(number, &mut room, LONGEST_NUMBER);
        self.print_plain(&room[start..]);
    }

    /// Prints the octets in hexadecimal digits, in lower case.
    #[tactic(auto, using(crate::proofs::printing_hex))]
    pub fn print_hex(&mut self, octets: &[u8])
        ensures { Prints W.contents self.old self.new (encode_lower octets.now) }
    {
        let mut rest = octets;
        while !rest.is_empty() {
            let (part, later) = rest.split_at(rest.len().min(HEX_PART));
            self.print_hex_part(part);
            rest = later;
        }
    }

    #[tactic(auto, using(crate::proofs::no_feed_hex))]
    fn print_hex_part(&mut self, octets: &[u8])
        requires { length octets.now ≤ HEX_PART }
        ensures { Prints W.contents self.old self.new (encode_lower octets.now) }
    {
        let mut digits = [0; 2 * HEX_PART];
        let digits = &mut digits[..2 * octets.len()];
        write_pairs(octets, digits, HEX_PAIRS);
        self.print_plain(digits);
    }
}

// Returns the position of the first line feed. The compiler finds it in a constant text that is short; a long text is
// searched for several octets at a time.
fn feed_position(text: &[u8]) -> Option<usize>
    ensures { result ≡ position (λ octet. octet == 10) text.now }
{
    if text.len() < LONG_TEXT {
        text.iter().position(|octet| *octet == b'\n')
    } else {
        position_of_end(text, Delimiter::At(b'\n'))
    }
}

// Writes the two hexadecimal digits of each octet, which are looked up in the pairs of digits.
#[inline(always)]
fn write_pairs(octets: &[u8], digits: &mut [u8], pairs: &[u8; 512])
    requires pairs { pairs.now ≡ hex_pairs }
    requires room { length digits.old ≡ 2 * length octets.now }
    ensures { digits.new ≡ encode_lower octets.now }
{
    for at in 0..octets.len() {
        let pair = 2 * usize::from(octets[at]);
        digits[2 * at] = pairs[pair];
        digits[2 * at + 1] = pairs[pair + 1];
    }
}

/// Writes the decimal digits of a number so that they end before position `end`, and returns where they begin.
#[tactic(auto, using(std::proofs::lemmas::Fmt::decimal_nonempty))]
pub(crate) fn write_digits(number: u64, room: &mut [u8], end: usize) -> usize
    requires within { end ≤ length room.old }
    requires fits { length (decimal number) ≤ end }
    ensures digits { drop result room.new ≡ decimal number ++ drop end room.old }
    ensures start { result + length (decimal number) ≡ end }
    ensures size { length room.new ≡ length room.old }
{
    let mut start = end;
    let mut rest = number;
    while rest >= 10 {
        start -= 1;
        room[start] = b'0' + (rest % 10) as u8;
        rest /= 10;
    }
    start -= 1;
    room[start] = b'0' + rest as u8;
    start
}

// Writes the whole text, or nothing if the writer has failed before.
fn write_on<W: Write>(writer: &mut Checked<W>, text: &[u8])
    ensures { Writes W.contents writer.old writer.new [] [] text.now }
{
    if !writer.failed() {
        let _ = put(writer, text);
    }
}

// Writes the whole text, or fails after the beginning of it.
fn put<W: Write>(writer: &mut Checked<W>, text: &[u8]) -> Result<(), WriteFailed>
    requires { has_failed writer.old ≡ false }
    ensures text { TookOrFailed W.contents writer.old writer.new text.now result }
    ensures failed { has_failed writer.new ≡ is_err result }
    ensures reads { HasNotRead writer.old writer.new }
{
    let mut rest = text;
    while !rest.is_empty() {
        let Ok(taken) = writer.write(rest) else {
            return Err(WriteFailed);
        };
        if taken == 0 {
            return Err(WriteFailed);
        }
        rest = &rest[taken..];
    }
    Ok(())
}
