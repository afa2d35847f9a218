//! Two sockets of one process, one after the other.
ghost use Rattle.std.specs.Prelude.{◌≡◌, false, is_err, OnOk};

use super::*;
use crate::tests::tools::is_shown;
use bac_links::{Datagram, OnRefusal, Sockets, UdpLink};
use std::alloc::AllocError;
use std::cell::Cell;
use std::io;
use std::io::ErrorKind;
use std::net::{Net, SocketAddr, UdpSocket};
use std::time::{Clock, Duration};

/// Returns whether a link receives these octets within five seconds, from this peer.
pub(super) fn hears<L: Link>(link: &mut L, from: Peer, octets: &[u8]) -> Result<bool, LinkFault>
    requires { L.has_failed link.old ≡ false }
    ensures { L.has_failed link.new ≡ is_err result }
{
    let mut datagram = Datagram::new();
    let peer = link.receive(5_000, &mut datagram)?;
    Ok(peer == Some(from) && datagram.as_slice() == octets)
}

/// Returns how long a receive with this wait takes, by the link's own time. `None` if it receives something.
fn silence<L: Link>(link: &mut L, wait_ms: u32) -> Result<Option<u64>, LinkFault>
    requires { L.has_failed link.old ≡ false }
    ensures { OnOk result (L.has_failed link.new ≡ false) }
{
    let mut datagram = Datagram::new();
    let before = link.now();
    if link.receive(wait_ms, &mut datagram)?.is_some() || !datagram.as_slice().is_empty() {
        return Ok(None);
    }
    Ok(link.now().checked_sub(before))
}

/// Returns whether the desk, which waits for a millisecond, ends without an answer, and the field receives its request
/// afterwards. Then both receive nothing more.
fn times_out<L: Link>(desk: &mut L, field: &mut L) -> Result<bool, LinkFault>
    requires { (L.has_failed desk.old ≡ false) × (L.has_failed field.old ≡ false) }
{
    let mut room = [0xff; 96];
    let got = run_job(Job::Read(&call_of(1, 0, BODY)), desk, room.as_mut_slice());
    if got != Ok(Exit::Bad) || desk.failed() {
        return Ok(false);
    }
    let is_heard = is_text(&room, "timeout\n") && hears(field, OTHER, ASK)?;
    Ok(is_heard && silence(field, 1)?.is_some() && silence(desk, 1)?.is_some())
}

#[test]
fn two_sockets(rt: HostRuntime) -> Result<(), Fail> {
    let mut field = UdpLink::bind(&rt, rt.alloc(), CONTROLLER)?;
    let mut desk = UdpLink::bind(&rt, rt.alloc(), OTHER)?;
    assert!(rt; UdpLink::bind(&rt, rt.alloc(), OTHER).is_err());
    let sockets = Sockets::new(rt.clone()?, rt.alloc());
    let taken = UdpLink::bind_with(sockets, OTHER, OnRefusal::Fails);
    assert!(rt; matches!(&taken, Err(none) if is_shown(rt.alloc(), none, "bind failed")));
    assert!(rt; times_out(&mut desk, &mut field)?);
    Ok(())
}

/// The sender and the receiver of octets.
pub(super) type Way = (Peer, Peer);

/// Sends octets from one link to the other, and returns whether they arrive whole.
fn carries<L: Link>(from: &mut L, to: &mut L, way: Way, octets: &[u8]) -> Is
    requires { (L.has_failed from.old ≡ false) × (L.has_failed to.old ≡ false) }
    ensures { OnOk result ((L.has_failed from.new ≡ false) × (L.has_failed to.new ≡ false)) }
{
    from.send(way.1, octets)?;
    hears(to, way.0, octets)
}

/// Returns one octet more than a datagram may have; the value of each is its position.
fn counted_octets() -> [u8; 2_048] {
    let mut octets = [0; 2_048];
    for (n, octet) in octets.iter_mut().enumerate() {
        *octet = (n % 256) as u8;
    }
    octets
}

/// Returns whether the shortest and the longest datagram arrive whole and from their sender, a longer one does not
/// arrive, and nothing is left. A wait without a datagram takes its full time, and a wait of 0 ms only looks.
fn carries_up_to_the_longest<L: Link>(near: &mut L, far: &mut L, way: Way) -> Is
    requires { (L.has_failed near.old ≡ false) × (L.has_failed far.old ≡ false) }
    ensures { OnOk result ((L.has_failed near.new ≡ false) × (L.has_failed far.new ≡ false)) }
{
    let octets = counted_octets();
    let most = octets.get(..2_047).unwrap_or(&[]);
    let are_heard = carries(near, far, way, &[])?
        && carries(near, far, way, &[0])?
        && carries(near, far, way, most)?;
    near.send(way.1, &octets)?;
    let long = silence(far, 1_000)?;
    let short = silence(far, 0)?;
    let waited = silence(near, 1_000)?;
    Ok(are_heard && long.is_some() && is_within(short, 0, 2_000) && is_within(waited, 950, 3_000))
}

fn is_within(passed: Option<u64>, least: u64, below: u64) -> bool {
    matches!(passed, Some(passed) if least <= passed && passed < below)
}

#[test]
fn long_datagrams(rt: HostRuntime) -> Result<(), Fail> {
    let here = Peer {
        port: 47_810,
        ..CONTROLLER
    };
    let there = Peer {
        port: 47_811,
        ..CONTROLLER
    };
    let mut near = UdpLink::bind(&rt, rt.alloc(), here)?;
    let mut far = UdpLink::bind(&rt, rt.alloc(), there)?;
    assert!(rt; carries_up_to_the_longest(&mut near, &mut far, (here, there))?);
    assert!(rt; carries_up_to_the_longest(&mut far, &mut near, (there, here))?);
    Ok(())
}

// A socket has one address. Other sockets can have its port at other addresses.
#[test]
fn one_port_of_two_addresses(rt: HostRuntime) -> Result<(), Fail> {
    let here = Peer {
        port: 47_815,
        ..CONTROLLER
    };
    let there = Peer {
        ip: 0x7f00_0002,
        ..here
    };
    let mut near = UdpLink::bind(&rt, rt.alloc(), here)?;
    let mut far = UdpLink::bind(&rt, rt.alloc(), there)?;
    assert!(rt; carries(&mut near, &mut far, (here, there), ASK)?);
    Ok(())
}

/// A network whose clock has this time, or fails if there is none.
struct Timed<'a, N> {
    net: &'a N,
    told: &'a Cell<Option<Duration>>,
}

impl<N> Clone for Timed<'_, N> {
    fn clone(&self) -> Result<Self, AllocError> {
        Ok(*self)
    }
}

impl<N> Copy for Timed<'_, N> {}

impl<N: Net> Net for Timed<'_, N> {
    type Stream = N::Stream;

    type Listener = N::Listener;

    fn bind(&self, at: SocketAddr) -> io::Result<N::Listener> {
        self.net.bind(at)
    }

    fn connect(&self, to: SocketAddr) -> io::Result<N::Stream> {
        self.net.connect(to)
    }

    fn bind_udp(&self, at: SocketAddr) -> io::Result<UdpSocket> {
        self.net.bind_udp(at)
    }
}

impl<N> Clock for Timed<'_, N> {
    fn monotonic(&self) -> io::Result<Duration> {
        match self.told.get() {
            Some(time) => Ok(time),
            None => Err(io::Error::from(ErrorKind::Other)),
        }
    }

    fn since_1970(&self) -> io::Result<Duration> {
        Err(io::Error::from(ErrorKind::Other))
    }
}

/// Returns this many seconds and nanoseconds.
fn after((seconds, nanos): (u64, u64)) -> Duration {
    Duration::from_secs(seconds).saturating_add(Duration::from_nanos(nanos))
}

/// The time of a clock that was at 7 seconds when a link was made, and the time of the link.
static TIMES: [(Option<(u64, u64)>, u64); 6] = [
    (Some((7, 999_999)), 0),
    (Some((8, 1_999_999)), 1_001),
    (None, 1_001),
    (Some((4_294_974, 296_000_000)), 4_294_967_296),
    (Some((20_000_000_000_000_000, 0)), u64::MAX),
    (Some((6, 0)), 0),
];

// The time of a socket is in whole milliseconds since it was made, from the monotonic clock; if that fails, the time
// does not change.
#[test]
fn time_of_a_socket(rt: HostRuntime) -> Result<(), Fail> {
    let told = Cell::new(Some(after((7, 0))));
    let timed = Timed {
        net: &rt,
        told: &told,
    };
    let here = Peer {
        port: 47_816,
        ..CONTROLLER
    };
    let mut link = UdpLink::bind(&timed, rt.alloc(), here)?;
    assert!(rt; link.now() == 0);
    for (time, now) in &TIMES {
        told.set(time.map(after));
        assert!(rt; link.now() == *now, "{now}");
    }
    Ok(())
}

/// A Who-Is that was forwarded from port 0, from the broadcast address, and from no address. No reply can be sent
/// there.
const FROM_PORT_0: &[u8] = b"\x81\x04\x00\x0e\x7f\x00\x00\x01\x00\x00\x01\x00\x10\x08";

const FROM_ALL: &[u8] = b"\x81\x04\x00\x0e\xff\xff\xff\xff\xba\xc0\x01\x00\x10\x08";

const FROM_NOWHERE: &[u8] = b"\x81\x04\x00\x0e\x00\x00\x00\x00\x00\x00\x01\x00\x10\x08";

/// Sends a request from the desk, lets the device serve this many datagrams, and returns whether it replies to each and
/// the desk receives the value.
fn answers<L: Link>(desk: &mut L, field: &mut L, device: &mut Device, to: Peer, count: u32) -> Is
    requires { (L.has_failed desk.old ≡ false) × (L.has_failed field.old ≡ false) }
    ensures { OnOk result (L.has_failed desk.new ≡ false) }
{
    desk.send(to, ASK)?;
    let got = serve(field, device, count);
    Ok(got == Ok(count) && !field.failed() && hears(desk, to, VALUE)?)
}

/// Returns whether a device still answers the desk after requests from addresses to which no reply can be sent.
fn goes_on<L: Link>(desk: &mut L, field: &mut L, device: &mut Device, server: Peer) -> Is
    requires { (L.has_failed desk.old ≡ false) × (L.has_failed field.old ≡ false) }
    ensures { OnOk result (L.has_failed desk.new ≡ false) }
{
    desk.send(server, FROM_PORT_0)?;
    desk.send(server, FROM_ALL)?;
    desk.send(server, FROM_NOWHERE)?;
    answers(desk, field, device, server, 4)
}

/// Returns whether a device answers the desk, and its link then fails if a reply cannot be sent.
fn is_stopped<L: Link>(desk: &mut L, field: &mut L, device: &mut Device, server: Peer) -> Is
    requires { (L.has_failed desk.old ≡ false) × (L.has_failed field.old ≡ false) }
{
    if !answers(desk, field, device, server, 1)? || field.failed() {
        return Ok(false);
    }
    desk.send(server, FROM_PORT_0)?;
    Ok(serve(field, device, 1) == Err(ToolFault::SendFailed) && field.failed())
}

// A request whose reply cannot be sent does not stop a device; without this setting the link fails.
#[test]
fn refused_replies_are_lost(rt: HostRuntime) -> Result<(), Fail> {
    let server = Peer {
        port: 47_813,
        ..CONTROLLER
    };
    let strict = Peer {
        port: 47_814,
        ..CONTROLLER
    };
    let mut device = small_device().ok_or("no device")?;
    let client = Peer {
        port: 47_812,
        ..CONTROLLER
    };
    let mut desk = UdpLink::bind(&rt, rt.alloc(), client)?;
    let sockets = Sockets::new(rt.clone()?, rt.alloc());
    let mut field = UdpLink::bind_with(sockets, server, OnRefusal::IsLost)?;
    assert!(rt; goes_on(&mut desk, &mut field, &mut device, server)?);
    let mut brittle = UdpLink::bind(&rt, rt.alloc(), strict)?;
    assert!(rt; is_stopped(&mut desk, &mut brittle, &mut device, strict)?);
    Ok(())
}
