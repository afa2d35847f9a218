//! Readers and writers that fail, one operation after another.
use crate::tests::streams::{Asked, Progress, printed_after, telling, with_room};
use arrayvec::ArrayVec;
use bac_print::Checked;
use bac_script::{TraceEnd, TraceFault, trace};
use std::alloc::Global;
use std::io::{self, ErrorKind, Read};

const SCRIPT: &[u8] =
    b"read 127.0.0.1:47808 0 5 85\ntick 2999\ntick 3000\ntick 6000\ntick 9000\ntick 12000\n";

/// The text that the script prints.
const PRINTED: &[u8] = b"send 0 127.0.0.1:47808 810a001101040005010c0c000000051955\n\
    send 0 127.0.0.1:47808 810a001101040005010c0c000000051955\n\
    send 0 127.0.0.1:47808 810a001101040005010c0c000000051955\n\
    send 0 127.0.0.1:47808 810a001101040005010c0c000000051955\n\
    timeout 0\n";

const WHOLE: Result<TraceEnd, TraceFault> = Ok(TraceEnd { lines: 6 });

// Script and text may be in fixed room: a run allocates no memory, by its signature.
#[test]
fn a_text_in_fixed_room(rt: HostRuntime) {
    let mut room = [0; PRINTED.len()];
    let mut writer = Checked::new(room.as_mut_slice());
    assert!(rt; trace(&mut Checked::new(SCRIPT), &mut writer) == WHOLE);
    assert!(rt; room.as_slice() == PRINTED);
}

/// Returns whether a writer that accepts this many octets has this beginning of the text, and the script reports that
/// writing failed.
fn leaves_front(alloc: Global, left: usize, fails: bool) -> bool {
    let mut taken = Vec::new(alloc);
    let mut writer = Checked::new(with_room(&mut taken, left, fails));
    let got = trace(&mut Checked::new(SCRIPT), &mut writer);
    got == Err(TraceFault::WriteFailed) && PRINTED.get(..left) == Some(taken.as_slice())
}

#[test]
fn writes_fail_in_turn(rt: HostRuntime) {
    for left in 0..PRINTED.len() {
        for fails in &[true, false] {
            assert!(rt; leaves_front(rt.alloc(), left, *fails), "after {left}");
        }
    }
}

/// A script, its text, and how many octets of both there are up to the end of each line that prints.
#[derive(Drop)]
struct Worked<'a> {
    script: &'a [u8],
    text: &'a [u8],
    ends: &'a [(usize, usize)],
}

const RETRIES: Worked<'static> = Worked {
    script: SCRIPT,
    text: PRINTED,
    ends: &[(28, 58), (48, 116), (58, 174), (68, 232), (79, 242)],
};

/// Runs a script while the read and the write with these numbers fail. Returns how many reads and writes were made, and
/// how many octets were written; `None` if the run ends with another answer, writes another text, or reads before
/// printed text is written.
fn counts(
    worked: &Worked<'_>,
    (read, write, takes_none): (usize, usize, bool),
    answer: Result<TraceEnd, TraceFault>,
) -> Option<(usize, usize, usize)> {
    let progress = Progress::default();
    let mut reader = Checked::new(Asked {
        progress: &progress,
        script: worked.script,
        ends: worked.ends,
        fails_at: read,
    });
    let mut writer = Checked::new(telling(&progress, worked.text, write, takes_none));
    let got = trace(&mut reader, &mut writer);
    let is_right = got == answer
        && reader.failed() == (got == Err(TraceFault::ReadFailed))
        && writer.failed() == (got == Err(TraceFault::WriteFailed));
    if !is_right || progress.is_wrong.get() {
        return None;
    }
    let (reads, writes) = (progress.reads.get(), progress.writes.get());
    Some((reads, writes, progress.written.get()))
}

/// Returns whether a reader that gives one octet at a time, and fails at this read, is not read again, and the text of
/// the whole lines before is written.
fn fails_at(worked: &Worked<'_>, read: usize) -> bool {
    let fails = (read, usize::MAX, false);
    let wanted = printed_after(worked.ends, read);
    match counts(worked, fails, Err(TraceFault::ReadFailed)) {
        Some((reads, _, written)) => reads == read.wrapping_add(1) && written == wanted,
        None => false,
    }
}

// Before each read all printed text is written.
#[test]
fn nobody_waits_for_text(rt: HostRuntime) {
    let found = counts(&RETRIES, (usize::MAX, usize::MAX, false), WHOLE);
    assert!(rt; found == Some((SCRIPT.len() + 1, 5, PRINTED.len())));
}

// A reader that fails once is not read again. A writer that fails once, or accepts nothing once, is not used again, and
// nothing is read after that.
#[test]
fn what_failed_is_not_asked_again(rt: HostRuntime) {
    for read in 0..=SCRIPT.len() {
        assert!(rt; fails_at(&RETRIES, read), "at {read}");
    }
    for write in 0..5 {
        for takes_none in &[true, false] {
            let fails = (usize::MAX, write, *takes_none);
            let found = counts(&RETRIES, fails, Err(TraceFault::WriteFailed));
            let is_right = matches!(found, Some((_, writes, _)) if writes == write + 1);
            assert!(rt; is_right, "at {write}");
        }
    }
}

/// A script of many requests, with its text.
#[derive(Drop)]
struct Requests {
    script: ArrayVec<u8, 2048>,
    text: ArrayVec<u8, 4096>,
    ends: ArrayVec<(usize, usize), 80>,
}

impl Requests {
    fn add(&mut self, line: &[u8], printed: &[&[u8]]) {
        let _ = self.script.try_extend_from_slice(line);
        for part in printed {
            let _ = self.text.try_extend_from_slice(part);
        }
        let _ = self.ends.try_push((self.script.len(), self.text.len()));
    }
}

const READ: &[u8] = b"read 127.0.0.1:47808 0 5 85\n";

/// The answer to the first read.
const VALUE: &[u8] = b"data 127.0.0.1:47808 810a0017010030010c0c0000000519553e444290999a3f\n";

/// Returns the hexadecimal digit of a number below 16.
fn digit(number: u8) -> &'static [u8] {
    let place = usize::from(number);
    b"0123456789abcdef".get(place..=place).unwrap_or(b"")
}

// Sixty-four requests are sent, and the sixty-fifth has no place until the first is answered.
fn sixty_five() -> Requests {
    let mut all = Requests {
        script: ArrayVec::new(),
        text: ArrayVec::new(),
        ends: ArrayVec::new(),
    };
    let (to, rest) = (b" 127.0.0.1:47808 810a001101040005", b"0c0c000000051955\n");
    for ticket in 0..64_u8 {
        let tens = if ticket < 10 { b"" } else { digit(ticket / 10) };
        let number = ticket + 1;
        let (high, low) = (digit(number / 16), digit(number % 16));
        let ones = digit(ticket % 10);
        all.add(READ, &[b"send ", tens, ones, to, high, low, rest]);
    }
    all.add(READ, &[b"full\n"]);
    all.add(VALUE, &[b"done 0 value 4290999a\n"]);
    all.add(READ, &[b"send 64", to, b"41", rest]);
    all
}

#[test]
fn reads_fail_in_turn(rt: HostRuntime) {
    let all = sixty_five();
    let worked = Worked {
        script: all.script.as_slice(),
        text: all.text.as_slice(),
        ends: all.ends.as_slice(),
    };
    assert!(rt; worked.script.len() == 1_916 && worked.ends.len() == 67);
    for read in 0..=worked.script.len() {
        // The sixty-one lines after the second are alike: only the first octet of each is tried.
        let is_like_others = 56 <= read && read < 1_764 && read % 28 > 0;
        assert!(rt; is_like_others || fails_at(&worked, read), "at {read}");
    }
}

/// Gives a script in one read, and nothing in the next. A read after that fails, or gives the script again.
#[derive(Drop)]
struct EndedOnce<'a> {
    script: &'a [u8],
    at: usize,
    fails: bool,
}

impl Read for EndedOnce<'_> {
    fn read(&mut self, buf: &mut [u8]) -> io::Result<usize> {
        let asked = self.at;
        self.at = asked.saturating_add(1);
        if asked == 1 {
            return Ok(0);
        }
        if asked > 1 && self.fails {
            return Err(io::Error::from(ErrorKind::Other));
        }
        let count = self.script.len().min(buf.len());
        buf[..count].copy_from_slice(&self.script[..count]);
        Ok(count)
    }
}

/// Returns whether a reader of this script is read twice, the second time at its end, and has not failed.
fn is_read_twice(script: &[u8], fails: bool) -> bool {
    let at = 0;
    let mut reader = Checked::new(EndedOnce { script, at, fails });
    let mut room = [0; PRINTED.len()];
    let got = trace(&mut reader, &mut Checked::new(room.as_mut_slice()));
    got == WHOLE && room.as_slice() == PRINTED && reader.reads() == 2 && !reader.failed()
}

// A read that gave nothing is the last one, whether or not a line feed comes before it.
#[test]
fn what_has_ended_is_not_asked_again(rt: HostRuntime) {
    for fails in &[true, false] {
        assert!(rt; is_read_twice(SCRIPT, *fails));
        assert!(rt; is_read_twice(&SCRIPT[..SCRIPT.len() - 1], *fails));
    }
}

/// Returns whether a reader of this script, which has a line with this fault, is read only once.
fn is_read_once(script: &[u8], fault: TraceFault) -> bool {
    let (at, fails) = (0, true);
    let mut reader = Checked::new(EndedOnce { script, at, fails });
    let got = trace(&mut reader, &mut Checked::new([0; 1].as_mut_slice()));
    got == Err(fault) && reader.reads() == 1 && !reader.failed()
}

// After a line that is bad or too long the reader is not read again.
#[test]
fn a_bad_line_is_read_at_once(rt: HostRuntime) {
    assert!(rt; is_read_once(b"x\n", TraceFault::BadLine(1)));
    assert!(rt; is_read_once(b"tick 1\ntick x\ntick 2", TraceFault::BadLine(2)));
    assert!(rt; is_read_once(&[b'#'; 4_097], TraceFault::LineTooLong(1)));
}
