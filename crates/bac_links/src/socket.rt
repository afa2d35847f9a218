//! A UDP socket with a clock, and the one of the system.
ghost use Rattle.std.specs.{Duration.as_nanos, Io.WritesAtMost, IoError.error_kind, Prelude.{[], IfErr, IfOk, is_ok}};
ghost use Rattle.std.specs.{Prelude.{length, take, ◌++◌, ◌∷◌, ◌≡◌, ◌≤◌}, Result.{result_map_both, result_ok}};
ghost use Rattle.bac_links.specs.{AtOnce, Bind, Elapsed, Limit, Receive, SendTo};

use crate::history::{CallNote, Log};
use std::io;
use std::net::{Net, SocketAddr, UdpSocket};
use std::time::{Clock, Duration, Instant};

/// A UDP socket with a clock, which records its calls and answers. Each method is one call of the system.
pub trait Socket {
    ghost use Rattle.std.specs.Prelude.{List};
    ghost use Rattle.bac_links.specs.SystemCall.{SystemCall};

    // The calls of the system so far.
    ghost log: { Self → List SystemCall };

    /// Limits the wait of each receive from now on.
    fn set_read_timeout(&mut self, limit: Duration) -> io::Result<()>
        ensures { log self.new ≡ log self.old ++ Limit (as_nanos limit) (is_ok result) ∷ [] };

    /// Makes receives return at once from now on, or wait again.
    fn set_nonblocking(&mut self, on: bool) -> io::Result<()>
        ensures { log self.new ≡ log self.old ++ AtOnce on (is_ok result) ∷ [] };

    /// Sends a datagram to this address, and returns how many octets were sent.
    fn send_to(&mut self, octets: &[u8], to: SocketAddr) -> io::Result<usize>
        ensures bound { WritesAtMost result octets.now }
        ensures log { log self.new ≡ log self.old ++ SendTo octets.now to (result_ok result) ∷ [] };

    /// Waits for a datagram, and puts as much of it into the room as fits. Returns how many octets these are, and the
    /// sender.
    fn recv_from(&mut self, room: &mut [u8]) -> io::Result<(usize, SocketAddr)>
        ensures within { IfOk result (λ (taken, from). taken ≤ length room.new) }
        ensures log { log self.new ≡ log self.old ++ Receive (length room.old)
            (result_map_both (λ (taken, from). (take taken room.new, from)) error_kind result) ∷ [] };

    /// Returns how long ago the socket was made.
    fn elapsed(&mut self) -> io::Result<Duration>
        ensures { log self.new ≡ log self.old ++ Elapsed (result_ok result) ∷ [] };
}

/// A UDP socket of the system, and its clock.
///
/// This is what is trusted of a socket: that `bind` binds one, copies its descriptor and the runtime, and reads the
/// clock, each once; that each of the five calls of [`Socket`] makes the one call of `std` which has its name, with its
/// own arguments; and that they note that, and answer what it answered.
#[derive(Drop)]
pub struct SystemSocket<R: Drop, S: Drop = UdpSocket> {
    rt: R,
    socket: S,
    made: Instant,
    log: Log,
}

impl<R: Net + Clock + Clone + Drop> SystemSocket<R> {
    // Binds a socket at this address, or at a free port of the address if the port is 0. It keeps a duplicate of the
    // bound socket, whose descriptor is above those of the standard streams, even if one of these is closed.
    pub(crate) fn bind(rt: &R, at: SocketAddr) -> Result<Self, Log>
        ensures ok { IfOk result (λ socket. socket.log.items ≡ Bind at ∷ []) }
        ensures err { IfErr result (λ log. log.items ≡ Bind at ∷ []) }
    {
        let bound = UdpSocket::bind(rt, at);
        let mut log = Log::new();
        log.push(&CallNote::Bind(at));
        let Ok(bound) = bound else {
            return Err(log);
        };
        let same: Result<_, _> = rt.clone();
        let (Ok(socket), Ok(made), Ok(rt)) = (bound.try_clone(), Instant::now(rt), same) else {
            return Err(log);
        };
        Ok(SystemSocket {
            rt,
            socket,
            made,
            log,
        })
    }
}

impl<R: Drop, S: Drop> SystemSocket<R, S> {
    /// Ends the socket, and returns its calls and answers. With any runtime and any socket only the log is returned:
    /// neither has a call here, so none is made.
    pub fn into_log(self) -> Log
        ensures { result ≡ self.log }
    {
        self.log
    }
}

impl<R: Clock + Drop> Socket for SystemSocket<R> {
    ghost log = { λ socket. socket.log.items };

    fn set_read_timeout(&mut self, limit: Duration) -> io::Result<()>
        ensures log { self.new.log.items ≡ self.old.log.items ++ Limit (as_nanos limit) (is_ok result) ∷ [] }
        ensures left { self.new ≡ record self.old { log = self.new.log } }
    {
        let done = self.socket.set_read_timeout(Some(limit));
        self.log.push(&CallNote::Limit(limit, &done));
        done
    }

    fn set_nonblocking(&mut self, on: bool) -> io::Result<()>
        ensures log { self.new.log.items ≡ self.old.log.items ++ AtOnce on (is_ok result) ∷ [] }
        ensures left { self.new ≡ record self.old { log = self.new.log } }
    {
        let done = self.socket.set_nonblocking(on);
        self.log.push(&CallNote::AtOnce(on, &done));
        done
    }

    fn send_to(&mut self, octets: &[u8], to: SocketAddr) -> io::Result<usize>
        ensures bound { WritesAtMost result octets.now }
        ensures log { self.new.log.items ≡ self.old.log.items ++ SendTo octets.now to (result_ok result) ∷ [] }
        ensures left { self.new ≡ record self.old { log = self.new.log } }
    {
        let sent = self.socket.send_to(octets, to);
        self.log.push(&CallNote::SendTo(octets, to, &sent));
        sent
    }

    fn recv_from(&mut self, room: &mut [u8]) -> io::Result<(usize, SocketAddr)>
        ensures within { IfOk result (λ (taken, from). taken ≤ length room.new) }
        ensures log { self.new.log.items ≡ self.old.log.items ++ Receive (length room.old)
            (result_map_both (λ (taken, from). (take taken room.new, from)) error_kind result) ∷ [] }
        ensures left { self.new ≡ record self.old { log = self.new.log } }
    {
        let came = self.socket.recv_from(room);
        self.log.push(&CallNote::Receive(room, &came));
        came
    }

    fn elapsed(&mut self) -> io::Result<Duration>
        ensures log { self.new.log.items ≡ self.old.log.items ++ Elapsed (result_ok result) ∷ [] }
        ensures left { self.new ≡ record self.old { log = self.new.log } }
    {
        let passed = self.made.elapsed(&self.rt);
        self.log.push(&CallNote::Elapsed(&passed));
        passed
    }
}
