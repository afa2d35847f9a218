//! Tools over a socket whose calls of one sort fail, with each kind of error.
ghost use Rattle.std.specs.Prelude.{◌≡◌, ◌≤◌, length, IfOk};

use super::*;
use bac_links::{CallNote, Log, OnRefusal, Socket, UdpLink};
use std::io::{self, ErrorKind};
use std::net::{Ipv4Addr, SocketAddr, SocketAddrV4};
use std::time::Duration;

/// The calls of a socket.
#[derive(Clone, Copy, PartialEq, Eq)]
enum Asked {
    // The calls that say how long receives wait, or that they do not wait.
    Limit,
    Send,
    Receive,
    Time,
}

/// A socket that gives this datagram to each wait, but fails with this error at this kind of call. A failed wait takes
/// 50 ms.
#[derive(Drop)]
struct Failing<'a> {
    at: Asked,
    kind: ErrorKind,
    datagram: &'a [u8],
    passed: Duration,
    log: Log,
}

impl<'a> Failing<'a> {
    fn new(at: Asked, kind: ErrorKind, datagram: &'a [u8]) -> Self {
        Failing {
            at,
            kind,
            datagram,
            passed: Duration::from_millis(0),
            log: Log::new(),
        }
    }

    /// Returns this answer, or the error if this call is the one that fails.
    fn unless_failing<T: Drop>(&self, asked: Asked, answer: T) -> io::Result<T>
        ensures { IfOk result (λ given. given ≡ answer) }
    {
        if asked == self.at {
            return Err(io::Error::from(self.kind));
        }
        Ok(answer)
    }
}

/// Puts the octets into the room, as many as fit.
fn put(octets: &[u8], room: &mut [u8]) -> usize
    ensures within { result ≤ length room.new }
    ensures room { length room.new ≡ length room.old }
{
    let len = octets.len().min(room.len());
    room[..len].copy_from_slice(&octets[..len]);
    len
}

impl Socket for Failing<'_> {
    ghost log = { λ socket. socket.log.items };

    fn set_read_timeout(&mut self, limit: Duration) -> io::Result<()> {
        let done = self.unless_failing(Asked::Limit, ());
        self.log.push(&CallNote::Limit(limit, &done));
        done
    }

    fn set_nonblocking(&mut self, on: bool) -> io::Result<()> {
        let done = self.unless_failing(Asked::Limit, ());
        self.log.push(&CallNote::AtOnce(on, &done));
        done
    }

    fn send_to(&mut self, octets: &[u8], to: SocketAddr) -> io::Result<usize> {
        let sent = self.unless_failing(Asked::Send, octets.len());
        self.log.push(&CallNote::SendTo(octets, to, &sent));
        sent
    }

    fn recv_from(&mut self, room: &mut [u8]) -> io::Result<(usize, SocketAddr)> {
        let from = SocketAddr::V4(SocketAddrV4::new(
            Ipv4Addr::from_bits(CONTROLLER.ip),
            CONTROLLER.port,
        ));
        let came = self.unless_failing(Asked::Receive, (put(self.datagram, room), from));
        if came.is_err() {
            self.passed = self.passed.saturating_add(Duration::from_millis(50));
        }
        self.log.push(&CallNote::Receive(room, &came));
        came
    }

    fn elapsed(&mut self) -> io::Result<Duration> {
        let passed = self.unless_failing(Asked::Time, self.passed);
        self.log.push(&CallNote::Elapsed(&passed));
        passed
    }
}

/// Returns the end of a read with a timeout of 100 ms over a socket that gives the answer, with this error.
fn read_ends(alloc: Global, at: Asked, kind: ErrorKind) -> Result<Got, LinkFault> {
    let mut link = UdpLink::over(Failing::new(at, kind, VALUE), alloc, OnRefusal::Fails)?;
    let job = Job::Read(&call_of(100, 0, BODY));
    Ok(run_job(job, &mut link, [0; 9].as_mut_slice()))
}

/// Returns the end of a device that serves one datagram over a socket that gives a request, with this error.
fn serve_ends(alloc: Global, at: Asked, kind: ErrorKind) -> Result<Served, LinkFault> {
    let mut link = UdpLink::over(Failing::new(at, kind, ASK), alloc, OnRefusal::IsLost)?;
    let mut device = small_device().ok_or(LinkFault)?;
    Ok(serve(&mut link, &mut device, 1))
}

const UNHEARD: Got = Err(ToolFault::ReceiveFailed);

/// The ends of a device whose receives fail, and of one that hears nothing until all turns are spent.
const DEAF: Served = Err(ToolFault::ReceiveFailed);

const SILENT: Served = Err(ToolFault::TurnsSpent);

/// Each kind of error, and the ends of a read and of a device if each receive fails with it. If an error reports the
/// end of a wait, or that a device's reply did not reach its peer, it counts as silence.
static RECEIVING: [(ErrorKind, Got, Served); 12] = [
    (ErrorKind::WouldBlock, Ok(Exit::Bad), SILENT),
    (ErrorKind::TimedOut, Ok(Exit::Bad), SILENT),
    (ErrorKind::Interrupted, Ok(Exit::Bad), SILENT),
    (ErrorKind::ConnectionRefused, UNHEARD, SILENT),
    (ErrorKind::ConnectionReset, UNHEARD, SILENT),
    (ErrorKind::HostUnreachable, UNHEARD, SILENT),
    (ErrorKind::NetworkUnreachable, UNHEARD, SILENT),
    (ErrorKind::NetworkDown, UNHEARD, DEAF),
    (ErrorKind::NotConnected, UNHEARD, DEAF),
    (ErrorKind::PermissionDenied, UNHEARD, DEAF),
    (ErrorKind::OutOfMemory, UNHEARD, DEAF),
    (ErrorKind::Other, UNHEARD, DEAF),
];

#[test]
fn receives_fail(rt: HostRuntime) -> Result<(), Fail> {
    for (kind, read, served) in &RECEIVING {
        assert!(rt;
            read_ends(rt.alloc(), Asked::Receive, *kind)? == *read,
            "{kind:?}"
        );
        assert!(rt;
            serve_ends(rt.alloc(), Asked::Receive, *kind)? == *served,
            "{kind:?}"
        );
    }
    Ok(())
}

/// The other calls, and the ends of both if they fail, whatever the error is. A device loses the reply that it cannot
/// send. Without a clock no time passes, and datagrams are still received.
static OTHERS: [(Asked, Got, Served); 3] = [
    (Asked::Limit, UNHEARD, DEAF),
    (Asked::Send, Err(ToolFault::SendFailed), Ok(1)),
    (Asked::Time, Ok(Exit::Good), Ok(1)),
];

#[test]
fn other_calls_fail(rt: HostRuntime) -> Result<(), Fail> {
    for (at, read, served) in &OTHERS {
        for (kind, ..) in &RECEIVING {
            assert!(rt; read_ends(rt.alloc(), *at, *kind)? == *read, "{kind:?}");
            assert!(rt; serve_ends(rt.alloc(), *at, *kind)? == *served, "{kind:?}");
        }
    }
    Ok(())
}
