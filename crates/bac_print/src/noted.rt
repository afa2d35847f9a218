//! Readers and writers with a note of each of their calls.
ghost use Rattle.std.specs.{Borrow.ftrue, Io.{ReadsAtMost, WritesAtMost, KnownBytes.{Keeps, ReadConsumes}}};
ghost use Rattle.std.specs.{Io.KnownBytes.WriteAppends, Prelude.{[], length, take, ◌++◌, ◌∷◌, ◌≡◌}};
ghost use Rattle.{bac_wire.specs.result_seen, bac_print.specs.StreamCall.{FlushCall, ReadCall, StreamCall, WriteCall}};

use crate::ghost_list::{GhostList, NoteOf};
use std::io::{self, Read, Write};
use std::marker::Model;

/// A reader or a writer with a list of its calls. It is trusted that each of its three methods makes exactly the one
/// call that it notes.
#[derive(Drop)]
pub(crate) struct Noted<T> {
    stream: T,
    transcript: GhostList<CallMade>,
}

impl<T> Noted<T> {
    /// Returns this reader or writer with an empty list of calls.
    pub(crate) fn new(stream: T) -> Self
        ensures { result ≡ record { stream = stream; transcript = record { of = record {}; items = [] } } }
    {
        let transcript = GhostList::new();
        Noted { stream, transcript }
    }
}

impl<R: Read> Noted<R> {
    /// Reads once from the reader.
    pub(crate) fn read(&mut self, room: &mut [u8]) -> io::Result<usize>
        ensures bound { ReadsAtMost result room.new }
        ensures bytes { ReadConsumes (R.remaining self.old.stream) (R.remaining self.new.stream) result room.new }
        ensures noted { self.new.transcript.items ≡ self.old.transcript.items
            ++ ReadCall (length room.old) (result_seen (λ count. take count room.new) result) ∷ [] }
    {
        let answer = self.stream.read(room);
        self.transcript.push(&Made::Read(room, &answer));
        answer
    }
}

impl<W: Write> Noted<W> {
    /// Writes to the writer once.
    pub(crate) fn write(&mut self, octets: &[u8]) -> io::Result<usize>
        ensures bound { WritesAtMost result octets.now }
        ensures bytes { WriteAppends (W.contents self.old.stream) (W.contents self.new.stream) result octets.now }
        ensures noted { self.new.transcript.items ≡ self.old.transcript.items ++ WriteCall octets.now result ∷ [] }
    {
        let answer = self.stream.write(octets);
        self.transcript.push(&Made::Write(octets, &answer));
        answer
    }

    /// Flushes the writer.
    pub(crate) fn flush(&mut self) -> io::Result<()>
        ensures bytes { Keeps (W.contents self.old.stream) (W.contents self.new.stream) }
        ensures noted { self.new.transcript.items ≡ self.old.transcript.items ++ FlushCall result ∷ [] }
    {
        let answer = self.stream.flush();
        self.transcript.push(&Made::Flush(&answer));
        answer
    }
}

/// A call of a reader or a writer with its result, as clauses see it. No code makes one.
#[derive(Drop)]
pub(crate) struct CallMade {
    ghost call: { StreamCall },
}

impl Model for CallMade {
    ghost Value = { StreamCall };

    ghost view = { λ made. made.call };

    ghost also_owns = { λ _. ftrue };
}

/// A call that was made, with its result: a read into this room, a write of these octets, or a flush.
#[derive(Clone, Copy, Drop)]
pub(crate) enum Made<'a> {
    Read(&'a [u8], &'a io::Result<usize>),
    Write(&'a [u8], &'a io::Result<usize>),
    Flush(&'a io::Result<()>),
}

impl NoteOf<CallMade> for Made<'_> {
    ghost use Rattle.bac_print.specs.Inner.Checked.{call_of};

    ghost tells = { call_of };
}
