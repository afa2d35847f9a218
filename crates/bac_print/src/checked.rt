//! Readers and writers that remember whether they failed.
ghost use Rattle.std.specs.Io.{ReadsAtMost, WritesAtMost, KnownBytes.{Keeps, ReadConsumes, WriteAppends}};
ghost use Rattle.std.specs.Prelude.{[], if◌then◌else◌, is_err, length, min, take, ◌++◌, ◌+◌, ◌-◌, ◌^◌, ◌||◌, ◌∷◌, ◌≡◌};
ghost use Rattle.{bac_wire.specs.result_seen, bac_print.specs.{calls_of, ends_of, FlushCall, fresh, gone, has_ended}};
ghost use Rattle.bac_print.specs.{has_failed, inner_of, last_of, octets_of, passes_none, ReadCall, reads_of, WriteCall};

use crate::noted::Noted;
use std::io::{self, Read, Write};

/// A reader or a writer that remembers whether it failed, and counts its reads. It implements neither `Read` nor
/// `Write` of std: it has only these three methods, so nothing is read or written without a note.
#[derive(Drop)]
pub struct Checked<T> {
    inner: Noted<T>,
    failed: bool,
    reads: u64,
}

/// The writer failed, or took no octet.
#[derive(Clone, Copy, Debug, PartialEq, Eq)]
pub struct WriteFailed;

impl<T> Checked<T> {
    /// Returns this reader or writer with no read or write made yet.
    pub fn new(stream: T) -> Self
        ensures { result ≡ fresh stream }
    {
        Checked {
            inner: Noted::new(stream),
            failed: false,
            reads: 0,
        }
    }

    /// Returns whether a read or a write failed, or a write of at least one octet took none.
    pub fn failed(&self) -> bool
        ensures { result ≡ has_failed self.now }
    {
        self.failed
    }

    /// Returns the number of reads so far, at most `u32::MAX`.
    pub fn reads(&self) -> u32
        ensures { result ≡ min (reads_of self.now) (2 ^ 32 - 1) }
    {
        self.reads.min(u64::from(u32::MAX)) as u32
    }
}

impl<R: Read> Checked<R> {
    /// Reads once from the reader, into this room.
    #[tactic(auto, using(crate::proofs::one_read))]
    pub fn read(&mut self, buf: &mut [u8]) -> io::Result<usize>
        ensures bound { ReadsAtMost result buf.new }
        ensures asked { calls_of self.new ≡ calls_of self.old
            ++ ReadCall (length buf.old) (result_seen (λ count. take count buf.new) result) ∷ [] }
        ensures bytes { ReadConsumes (R.remaining (inner_of self.old)) (R.remaining (inner_of self.new))
            result buf.new }
        ensures failed { has_failed self.new ≡ (has_failed self.old || is_err result) }
        ensures ended { has_ended self.new ≡ passes_none result buf.new }
        ensures ends { ends_of self.new
            ≡ (if passes_none result buf.new then ends_of self.old + 1 else ends_of self.old) }
        ensures passed { octets_of self.new ≡ octets_of self.old ++ gone result buf.new }
        ensures last { last_of self.new ≡ gone result buf.new }
        ensures reads { reads_of self.new ≡ min (reads_of self.old + 1) (2 ^ 64 - 1) }
    {
        self.reads = self.reads.saturating_add(1);
        let outcome = self.inner.read(buf);
        if outcome.is_err() {
            self.failed = true;
        }
        outcome
    }
}

impl<W: Write> Checked<W> {
    /// Writes these octets to the writer once.
    #[tactic(auto, using(crate::proofs::one_call))]
    pub fn write(&mut self, buf: &[u8]) -> io::Result<usize>
        ensures bound { WritesAtMost result buf.now }
        ensures asked { calls_of self.new ≡ calls_of self.old ++ WriteCall buf.now result ∷ [] }
        ensures bytes { WriteAppends (W.contents (inner_of self.old)) (W.contents (inner_of self.new)) result buf.now }
        ensures failed { has_failed self.new ≡ (has_failed self.old || is_err result || passes_none result buf.now) }
        ensures passed { octets_of self.new ≡ octets_of self.old ++ gone result buf.now }
        ensures last { last_of self.new ≡ gone result buf.now }
        ensures ended { (has_ended self.new ≡ has_ended self.old) × (ends_of self.new ≡ ends_of self.old) }
        ensures reads { self.new ≡ record self.old { inner = self.new.inner; failed = self.new.failed } }
    {
        let outcome = self.inner.write(buf);
        match outcome {
            Ok(0) => self.failed = self.failed || !buf.is_empty(),
            Ok(_) => {}
            Err(_) => self.failed = true,
        }
        outcome
    }

    /// Flushes the writer.
    #[tactic(auto, using(crate::proofs::one_call))]
    pub fn flush(&mut self) -> io::Result<()>
        ensures asked { calls_of self.new ≡ calls_of self.old ++ FlushCall result ∷ [] }
        ensures passed { (octets_of self.new ≡ octets_of self.old) × (last_of self.new ≡ last_of self.old) }
        ensures bytes { Keeps (W.contents (inner_of self.old)) (W.contents (inner_of self.new)) }
        ensures ended { (has_ended self.new ≡ has_ended self.old) × (ends_of self.new ≡ ends_of self.old) }
        ensures reads { self.new ≡ record self.old { inner = self.new.inner } }
    {
        self.inner.flush()
    }
}
