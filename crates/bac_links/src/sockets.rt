//! The sockets of the system, and the reason if no socket is available.
ghost use Rattle.std.specs.Prelude.{◌≡◌};

use crate::history::Log;
use crate::link::LinkFault;
use std::alloc::Global;
use std::fmt;
use thiserror::Error;

/// The UDP sockets of a runtime, which they own and lend to nobody. Their owner can only give them up for one socket
/// ([`bind_with`](crate::UdpLink::bind_with)), or pass them on.
#[derive(Drop)]
pub struct Sockets<R> {
    pub(crate) rt: R,
    pub(crate) alloc: Global,
}

impl<R> Sockets<R> {
    /// Returns the sockets of this runtime.
    pub fn new(rt: R, alloc: Global) -> Self
        ensures { result ≡ record { rt = rt; alloc = alloc } }
    {
        Sockets { rt, alloc }
    }
}

/// No socket, no memory or no clock is available. This keeps the sockets that were given up, and the calls of the
/// system. Nobody can take either out, and nobody else can make one: its owner has asked for a socket in vain, and has
/// used none of these sockets.
#[derive(Drop, Error)]
#[error("{}", LinkFault.message())]
pub struct NoSocket<R> {
    pub(crate) sockets: Sockets<R>,
    pub(crate) log: Log,
}

impl<R> fmt::Debug for NoSocket<R> {
    fn fmt<W: fmt::Write>(&self, f: &mut fmt::Formatter<W>) -> fmt::Result {
        f.write_str("NoSocket")
    }
}
