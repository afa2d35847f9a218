//! Readers and writers that fail.
use crate::tests::streams::{Asked, Progress, with_room};
use bac_print::{Checked, WriteFailed, show_value};
use std::cell::Cell;
use std::io::{self, ErrorKind, Read, Write};

#[test]
fn a_fresh_reader_has_not_failed(rt: HostRuntime) {
    let progress = Progress::default();
    let mut reader = Checked::new(Asked {
        progress: &progress,
        script: b"aa",
        ends: &[],
        fails_at: 1,
    });
    let mut octets = [0; 4];
    assert!(rt; !reader.failed() && reader.reads() == 0);
    assert!(rt; reader.read(&mut octets).is_ok() && !reader.failed());
    assert!(rt; reader.read(&mut octets).is_err() && reader.failed() && reader.reads() == 2);
}

// A flush returns the result of the writer's own flush, and is not a failed write. A writer that accepts none of an
// octet has failed.
#[test]
fn a_full_writer_has_failed_and_a_flush_has_not(rt: HostRuntime) {
    for fails in &[true, false] {
        let mut taken = Vec::new(rt.alloc());
        let mut writer = Checked::new(with_room(&mut taken, 0, *fails));
        assert!(rt; writer.flush().is_err() == *fails && !writer.failed());
        assert!(rt; show_value(b"\x00", &mut writer) == Err(WriteFailed) && writer.failed());
    }
}

/// The results of a stream's calls, one after another: this many octets, or a failure of this kind.
const ANSWERS: [Result<usize, ErrorKind>; 10] = [
    Ok(9),
    Ok(1),
    Ok(0),
    Ok(2),
    Err(ErrorKind::TimedOut),
    Ok(3),
    Err(ErrorKind::Interrupted),
    Ok(0),
    Err(ErrorKind::WouldBlock),
    Ok(16),
];

/// A reader and writer that counts its calls, and gives these results.
#[derive(Drop)]
struct Answering<'a> {
    calls: &'a Cell<usize>,
}

impl Answering<'_> {
    fn next(&self) -> io::Result<usize> {
        let call = self.calls.get();
        self.calls.set(call.saturating_add(1));
        match ANSWERS.get(call) {
            Some(Ok(count)) => Ok(*count),
            Some(Err(kind)) => Err(io::Error::from(*kind)),
            None => Err(io::Error::from(ErrorKind::Other)),
        }
    }
}

impl Read for Answering<'_> {
    fn read(&mut self, buf: &mut [u8]) -> io::Result<usize> {
        let count = self.next()?.min(buf.len());
        Ok(count)
    }
}

impl Write for Answering<'_> {
    fn write(&mut self, buf: &[u8]) -> io::Result<usize> {
        let count = self.next()?.min(buf.len());
        Ok(count)
    }

    fn flush(&mut self) -> io::Result<()> {
        self.next()?;
        Ok(())
    }
}

/// Returns whether a call with this many octets has this result of the stream.
fn is_told(got: io::Result<usize>, answer: &Result<usize, ErrorKind>, octets: usize) -> bool {
    match (got, answer) {
        (Ok(count), Ok(answered)) => count == octets.min(*answered),
        (Err(error), Err(kind)) => error.kind() == *kind,
        _ => false,
    }
}

#[test]
fn each_call_is_one_of_the_stream_within(rt: HostRuntime) {
    for octets in 0..=16 {
        let [reads, writes, flushes] = [Cell::new(0), Cell::new(0), Cell::new(0)];
        let mut reader = Checked::new(Answering { calls: &reads });
        let mut writer = Checked::new(Answering { calls: &writes });
        let mut flushed = Checked::new(Answering { calls: &flushes });
        let mut room = [0; 16];
        for (at, answer) in ANSWERS.iter().enumerate() {
            assert!(rt;
                is_told(reader.read(&mut room[..octets]), answer, octets),
                "read {at}"
            );
            assert!(rt;
                is_told(writer.write(&room[..octets]), answer, octets),
                "write {at}"
            );
            assert!(rt;
                is_told(flushed.flush().map(|()| 0), answer, 0),
                "flush {at}"
            );
            let calls = [reads.get(), writes.get(), flushes.get()];
            assert!(rt; calls == [at + 1; 3], "after call {at}");
        }
    }
}
