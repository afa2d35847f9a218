//! The notes on a link and its socket, which exist only in proofs.
ghost use Rattle.std.specs.Borrow.{ftrue};
ghost use Rattle.bac_links.specs.{Entry, SystemCall.SystemCall};

use crate::datagram::Datagram;
use crate::link::LinkFault;
use bac_pdu::Peer;
use bac_print::{GhostList, NoteOf};
use std::io;
use std::marker::Model;
use std::net::SocketAddr;
use std::time::Duration;

/// All calls of a link so far, with their answers.
pub(crate) type History = GhostList<EntryMade>;

/// One call of a link, with its answer, as clauses see it. No code makes one.
#[derive(Drop)]
pub(crate) struct EntryMade {
    ghost entry: { Entry },
}

impl Model for EntryMade {
    ghost Value = { Entry };

    ghost view = { λ made. made.entry };

    ghost also_owns = { λ _. ftrue };
}

/// One call of a link, with its answer: a wait of this many milliseconds and its datagram; the time; a send; an offer,
/// and whether it was taken.
#[derive(Clone, Copy, Drop)]
pub(crate) enum EntryNote<'a> {
    Waited(u32, &'a Result<Option<Peer>, LinkFault>, &'a Datagram),
    Timed(u64),
    Sent(&'a Result<(), LinkFault>, Peer, &'a [u8]),
    Offered(bool, Peer, &'a [u8]),
}

impl NoteOf<EntryMade> for EntryNote<'_> {
    ghost use Rattle.bac_links.specs.Inner.Note.{entry_of};

    ghost tells = { entry_of };
}

/// All calls of the system that a socket made so far, with their answers.
pub type Log = GhostList<SystemCallMade>;

/// One call of the system, with its answer, as clauses see it. No code makes one.
#[derive(Drop)]
pub struct SystemCallMade {
    ghost call: { SystemCall },
}

impl Model for SystemCallMade {
    ghost Value = { SystemCall };

    ghost view = { λ made. made.call };

    ghost also_owns = { λ _. ftrue };
}

/// One call of the system, with its answer.
#[derive(Clone, Copy, Drop)]
pub enum CallNote<'a> {
    Bind(SocketAddr),
    Limit(Duration, &'a io::Result<()>),
    AtOnce(bool, &'a io::Result<()>),
    SendTo(&'a [u8], SocketAddr, &'a io::Result<usize>),
    Receive(&'a [u8], &'a io::Result<(usize, SocketAddr)>),
    Elapsed(&'a io::Result<Duration>),
}

impl NoteOf<SystemCallMade> for CallNote<'_> {
    ghost use Rattle.bac_links.specs.Log.{call_of};

    ghost tells = { call_of };
}
