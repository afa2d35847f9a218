//! Readers and writers that fail.

use std::cell::Cell;
use std::io::{self, ErrorKind, Read, Write};

/// Accepts this many octets, one at a time, and then accepts none, or fails. If it fails, it also fails to flush.
#[derive(Drop)]
pub(crate) struct Room<'a> {
    taken: &'a mut Vec<u8>,
    left: usize,
    fails: bool,
}

/// Returns a writer that appends to `taken` the octets that it accepts.
pub(crate) fn with_room(taken: &mut Vec<u8>, left: usize, fails: bool) -> Room<'_> {
    Room { taken, left, fails }
}

impl Write for Room<'_> {
    fn write(&mut self, buf: &[u8]) -> io::Result<usize> {
        match buf.first() {
            Some(octet) if self.left > 0 => {
                self.left -= 1;
                self.taken.push(*octet)?;
                Ok(1)
            }
            Some(_) if self.fails => Err(io::Error::from(ErrorKind::Other)),
            _ => Ok(0),
        }
    }

    fn flush(&mut self) -> io::Result<()> {
        if self.fails {
            return Err(io::Error::from(ErrorKind::Other));
        }
        Ok(())
    }
}

/// The progress of a run, as its reader and its writer see it.
#[derive(Default, Drop)]
pub(crate) struct Progress {
    pub(crate) read: Cell<usize>,
    pub(crate) written: Cell<usize>,
    pub(crate) reads: Cell<usize>,
    pub(crate) writes: Cell<usize>,
    /// Whether a read came while printed text was not yet written, or after a failed write, or other text was written.
    pub(crate) is_wrong: Cell<bool>,
    pub(crate) is_broken: Cell<bool>,
}

/// Accepts this text, but fails once, at the write with this number, or accepts nothing there.
#[derive(Drop)]
pub(crate) struct Told<'a> {
    progress: &'a Progress,
    text: &'a [u8],
    at: usize,
    none: bool,
}

pub fn telling<'a>(progress: &'a Progress, text: &'a [u8], at: usize, none: bool) -> Told<'a> {
    Told {
        progress,
        text,
        at,
        none,
    }
}

impl Write for Told<'_> {
    fn write(&mut self, buf: &[u8]) -> io::Result<usize> {
        let writes = self.progress.writes.get();
        self.progress.writes.set(writes.saturating_add(1));
        if writes == self.at {
            self.progress.is_broken.set(true);
            if self.none {
                return Ok(0);
            }
            return Err(io::Error::from(ErrorKind::Other));
        }
        let written = self.progress.written.get();
        if !self.text.get(written..).unwrap_or(&[]).starts_with(buf) {
            self.progress.is_wrong.set(true);
        }
        self.progress.written.set(written.saturating_add(buf.len()));
        Ok(buf.len())
    }

    fn flush(&mut self) -> io::Result<()> {
        Ok(())
    }
}

/// Returns how many octets of a text are printed once this many octets of its script were read.
pub(crate) fn printed_after(ends: &[(usize, usize)], octets: usize) -> usize {
    let mut printed = 0;
    for (read, written) in ends {
        if *read <= octets {
            printed = *written;
        }
    }
    printed
}

/// Gives a script one octet at a time, and fails once, at the read with this number.
#[derive(Drop)]
pub(crate) struct Asked<'a> {
    pub(crate) progress: &'a Progress,
    pub(crate) script: &'a [u8],
    /// The number of octets of the script up to the end of each line that prints, and of the text.
    pub(crate) ends: &'a [(usize, usize)],
    pub(crate) fails_at: usize,
}

impl Read for Asked<'_> {
    fn read(&mut self, buf: &mut [u8]) -> io::Result<usize> {
        let read = self.progress.read.get();
        let printed = printed_after(self.ends, read);
        if self.progress.is_broken.get() || self.progress.written.get() < printed {
            self.progress.is_wrong.set(true);
        }
        let reads = self.progress.reads.get();
        self.progress.reads.set(reads.saturating_add(1));
        if reads == self.fails_at {
            return Err(io::Error::from(ErrorKind::Other));
        }
        match (self.script.get(read), buf.first_mut()) {
            (Some(octet), Some(place)) => {
                *place = *octet;
                self.progress.read.set(read.saturating_add(1));
                Ok(1)
            }
            _ => Ok(0),
        }
    }
}
