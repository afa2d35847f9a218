//! A link over a UDP socket.
ghost use Rattle.std.specs.{Duration.as_nanos, Option.option_flatten};
ghost use Rattle.std.specs.Prelude.{[], false, IfErr, IfNone, IfOk, IfSome, is_err, is_ok, length, MatchOption};
ghost use Rattle.std.specs.{Prelude.{None, Ok, OnErr, OnOk, vec_len, ◌*◌, ◌++◌, ◌+◌, ◌≡◌, ◌≢◌}, Result.result_ok};
ghost use Rattle.{bac_pdu.specs.station, bac_links.specs.{account_over, Binds, BindsAtMost, Gains, heard_by}};
ghost use Rattle.bac_links.specs.{endless, heard_from, is_quiet, IsAddressOf, limits, Logs, longest_datagram, Looks};
ghost use Rattle.bac_links.specs.{modes, most_looks, Offered, OverSocket, patience_for, peer_at, posted, Sends, Sets};
ghost use Rattle.bac_links.specs.{time_by, Timed, Times, Waited, Waits, Inner.{brought, IsPlain, KeepsUnheard}};
ghost use Rattle.bac_links.specs.{Inner.ReceivesOnce, Keeps.Keeps};

use crate::datagram::{DATAGRAM_OCTETS, Datagram};
use crate::history::{EntryNote, History, Log};
use crate::link::{Link, LinkFault};
use crate::socket::{Socket, SystemSocket};
use crate::sockets::{NoSocket, Sockets};
use bac_pdu::Peer;
use std::alloc::Global;
use std::io;
use std::io::ErrorKind;
use std::net::{Ipv4Addr, Net, SocketAddr, SocketAddrV4};
use std::snapshot::Snapshot;
use std::time::{Clock, Duration};

// One octet more than a datagram may have, so that a longer one is noticed.
const BUFFER_OCTETS: usize = DATAGRAM_OCTETS + 1;

/// How a datagram is treated that the system refuses to send, for example one to port 0, or to an unreachable address.
#[derive(Clone, Copy, Debug, PartialEq, Eq)]
pub enum OnRefusal {
    /// The send fails. This is for a client, whose peer was given to it.
    Fails,
    /// The datagram is lost, as any datagram may be on its way. A receive that reports the loss of an earlier one is
    /// ignored too. This is for a server, whose peers are strangers.
    IsLost,
}

// How the receives of a socket wait: at most this long (0 before the first limit), or not at all.
#[derive(Clone, Copy)]
struct Patience {
    limit_ms: u32,
    at_once: bool,
}

// The result of one receive.
#[derive(Clone, Copy)]
enum Brought {
    Datagram(Peer),
    Silence,
    // A datagram that is too long, or is from no IPv4 address.
    Unheard,
}

/// A link over a UDP socket. Its time is milliseconds since the socket was made.
#[derive(Drop)]
pub struct UdpLink<S: Socket + Drop> {
    socket: S,
    // The socket from which the link was made, as it was then. It needs no memory.
    made_of: Snapshot<S>,
    buffer: Vec<u8>,
    time: u64,
    patience: Patience,
    refused: OnRefusal,
    failed: bool,
    // The calls of the link, with their answers.
    history: History,
    ghost room: { vec_len buffer ≡ longest_datagram + 1 },
    ghost keeps: { ∥ Keeps refused (S.log made_of.value) (S.log socket) history.items patience time failed ∥₁ },
}

impl<R: Net + Clock + Clone + Drop> UdpLink<SystemSocket<R>> {
    /// Returns a link over a socket at this address, or at a free port of the address if the port is 0. If the system
    /// refuses a datagram, the send fails.
    ///
    /// # Errors
    ///
    /// `LinkFault` if no such socket, no memory or no clock is available.
    pub fn bind(rt: &R, alloc: Global, at: Peer) -> Result<Self, LinkFault>
        ensures sound { IfOk result (λ link. ⟦<UdpLink<SystemSocket<R>> as Link>⟧.has_failed link ≡ false) }
        ensures refused { IfOk result (λ link. link.refused ≡ OnRefusal.Fails) }
        ensures at { IfOk result (λ link. Binds at link.socket.log.items) }
        ensures made { IfOk result (λ link. ⟦<UdpLink<SystemSocket<R>> as Link>⟧.seen link
            ≡ account_over OnRefusal.Fails link.socket.log.items []) }
        ensures begun { IfOk result (λ link. (link.time ≡ 0) × (link.patience ≡ endless)) }
    {
        let same: Result<_, _> = rt.clone();
        let Ok(rt) = same else {
            return Err(LinkFault);
        };
        match Self::bind_with(Sockets::new(rt, alloc), at, OnRefusal::Fails) {
            Ok(link) => Ok(link),
            Err(_) => Err(LinkFault),
        }
    }

    /// Returns a link over one of these sockets, which are given up for it, at this address. `refused` says how a
    /// datagram is treated that the system refuses to send.
    ///
    /// # Errors
    ///
    /// `NoSocket` if no such socket, no memory or no clock is available. It keeps the sockets.
    pub fn bind_with(sockets: Sockets<R>, at: Peer, refused: OnRefusal) -> Result<Self, NoSocket<R>>
        ensures sound { IfOk result (λ link. ⟦<UdpLink<SystemSocket<R>> as Link>⟧.has_failed link ≡ false) }
        ensures refused { IfOk result (λ link. link.refused ≡ refused) }
        ensures at { IfOk result (λ link. Binds at link.socket.log.items) }
        ensures made { IfOk result (λ link. ⟦<UdpLink<SystemSocket<R>> as Link>⟧.seen link
            ≡ account_over refused link.socket.log.items []) }
        ensures begun { IfOk result (λ link. (link.time ≡ 0) × (link.patience ≡ endless)) }
        ensures none { IfErr result (λ none. BindsAtMost at none.log.items) }
        ensures kept { IfErr result (λ none. none.sockets ≡ sockets) }
    {
        let Ok(buffer) = buffer(sockets.alloc) else {
            let log = Log::new();
            return Err(NoSocket { sockets, log });
        };
        match SystemSocket::bind(&sockets.rt, address_of(at)) {
            Ok(socket) => Ok(Self::with(socket, buffer, refused)),
            Err(log) => Err(NoSocket { sockets, log }),
        }
    }
}

impl<S: Socket + Drop> UdpLink<S> {
    /// Returns a link over this socket, whose receives have no time limit yet.
    ///
    /// # Errors
    ///
    /// `LinkFault` if there is no memory.
    pub fn over(socket: S, alloc: Global, refused: OnRefusal) -> Result<Self, LinkFault>
        ensures sound { IfOk result (λ link. ⟦<UdpLink<S> as Link>⟧.has_failed link ≡ false) }
        ensures refused { IfOk result (λ link. link.refused ≡ refused) }
        ensures socket { IfOk result (λ link. link.socket ≡ socket) }
        ensures made { IfOk result (λ link. ⟦<UdpLink<S> as Link>⟧.seen link ≡ account_over refused (S.log socket) []) }
        ensures begun { IfOk result (λ link. (link.time ≡ 0) × (link.patience ≡ endless)) }
    {
        Ok(Self::with(socket, buffer(alloc)?, refused))
    }

    // Returns a link over this socket, with this room for a datagram.
    fn with(socket: S, buffer: Vec<u8>, refused: OnRefusal) -> Self
        requires { vec_len buffer ≡ longest_datagram + 1 }
        ensures sound { ⟦<UdpLink<S> as Link>⟧.has_failed result ≡ false }
        ensures refused { result.refused ≡ refused }
        ensures socket { result.socket ≡ socket }
        ensures made { ⟦<UdpLink<S> as Link>⟧.seen result ≡ account_over refused (S.log socket) [] }
        ensures begun { (result.time ≡ 0) × (result.patience ≡ endless) }
    {
        UdpLink {
            made_of: Snapshot::of(&socket),
            socket,
            buffer,
            time: 0,
            patience: Patience {
                limit_ms: 0,
                at_once: false,
            },
            refused,
            failed: false,
            history: History::new(),
        }
    }

    /// Returns the socket, in its state after the last call of the link.
    pub fn into_socket(self) -> S
        ensures { result ≡ self.socket }
    {
        self.socket
    }
}

// Returns room for a datagram, and for one octet more.
fn buffer(alloc: Global) -> Result<Vec<u8>, LinkFault>
    ensures { IfOk result (λ buffer. vec_len buffer ≡ longest_datagram + 1) }
{
    vec![in alloc; 0; BUFFER_OCTETS].map_err(|_| LinkFault)
}

impl<S: Socket + Drop> Link for UdpLink<S> {
    ghost Origin = { OverSocket };

    ghost seen = { λ link. account_over link.refused (S.log link.made_of.value) link.history.items };

    ghost has_failed = { λ link. link.failed };

    fn send(&mut self, to: Peer, octets: &[u8]) -> Result<(), LinkFault>
        requires { self.old.failed ≡ false }
        ensures fault { self.new.failed ≡ is_err result }
        ensures lost { self.old.refused ≡ OnRefusal.IsLost → result ≡ Ok tt }
        ensures left { (self.new.refused ≡ self.old.refused) × (self.new.time ≡ self.old.time)
            × (self.new.patience ≡ self.old.patience) × (self.new.buffer ≡ self.old.buffer) }
        ensures asked { Logs (Sends self.old.refused (station to) octets.now (is_ok result))
            (S.log self.old.socket) (S.log self.new.socket) }
        ensures told { Gains (posted result (station to) octets.now)
            (account_over self.old.refused (S.log self.old.made_of.value) self.old.history.items)
            (account_over self.new.refused (S.log self.new.made_of.value) self.new.history.items) }
    {
        let sent = post(&mut self.socket, self.refused, to, octets);
        self.failed = sent.is_err();
        self.history.push(&EntryNote::Sent(&sent, to, octets));
        sent
    }

    fn offer(&mut self, to: Peer, octets: &[u8]) -> bool
        requires { self.old.failed ≡ false }
        ensures fault { self.new.failed ≡ false }
        ensures left { (self.new.refused ≡ self.old.refused) × (self.new.time ≡ self.old.time)
            × (self.new.patience ≡ self.old.patience) × (self.new.buffer ≡ self.old.buffer) }
        ensures asked { Logs (Sends OnRefusal.Fails (station to) octets.now result)
            (S.log self.old.socket) (S.log self.new.socket) }
        ensures told { Gains (Offered (station to) octets.now result)
            (account_over self.old.refused (S.log self.old.made_of.value) self.old.history.items)
            (account_over self.new.refused (S.log self.new.made_of.value) self.new.history.items) }
    {
        let taken = post(&mut self.socket, OnRefusal::Fails, to, octets).is_ok();
        self.history.push(&EntryNote::Offered(taken, to, octets));
        taken
    }

    fn receive(&mut self, wait_ms: u32, datagram: &mut Datagram) -> Result<Option<Peer>, LinkFault>
        requires { self.old.failed ≡ false }
        ensures fault { self.new.failed ≡ is_err result }
        ensures plain { IfOk result (λ heard. IfSome heard (λ from. from.route ≡ None)) }
        ensures kept { IfNone (option_flatten (result_ok result)) (datagram.new ≡ datagram.old) }
        ensures limited { OnOk result (self.new.patience ≡ patience_for self.old.patience wait_ms) }
        ensures left { (self.new.refused ≡ self.old.refused) × (self.new.time ≡ self.old.time) }
        ensures asked { Logs (Waits self.old.refused self.old.patience wait_ms (heard_by result datagram.new))
            (S.log self.old.socket) (S.log self.new.socket) }
        ensures told { Gains (Waited wait_ms (heard_by result datagram.new))
            (account_over self.old.refused (S.log self.old.made_of.value) self.old.history.items)
            (account_over self.new.refused (S.log self.new.made_of.value) self.new.history.items) }
    {
        let heard = next_datagram(
            &mut self.socket,
            &mut self.patience,
            self.refused,
            &mut self.buffer,
            wait_ms,
            datagram,
        );
        self.failed = heard.is_err();
        let note = EntryNote::Waited(wait_ms, &heard, datagram);
        self.history.push(&note);
        heard
    }

    fn now(&mut self) -> u64
        ensures left { (self.new.refused ≡ self.old.refused) × (self.new.failed ≡ self.old.failed)
            × (self.new.patience ≡ self.old.patience) × (self.new.buffer ≡ self.old.buffer) × (self.new.time ≡ result) }
        ensures asked { Logs (Times self.old.time result) (S.log self.old.socket) (S.log self.new.socket) }
        ensures told { Gains (Timed result)
            (account_over self.old.refused (S.log self.old.made_of.value) self.old.history.items)
            (account_over self.new.refused (S.log self.new.made_of.value) self.new.history.items) }
    {
        self.time = time_by(self.socket.elapsed(), self.time);
        self.history.push(&EntryNote::Timed(self.time));
        self.time
    }

    fn failed(&self) -> bool {
        self.failed
    }
}

// Returns the address of a peer on the network. A route is not part of it.
fn address_of(peer: Peer) -> SocketAddr
    ensures { IsAddressOf (station peer) result }
{
    SocketAddr::V4(SocketAddrV4::new(Ipv4Addr::from_bits(peer.ip), peer.port))
}

// Sends the octets to the address of the peer.
fn post<S: Socket>(
    socket: &mut S,
    refused: OnRefusal,
    to: Peer,
    octets: &[u8],
) -> Result<(), LinkFault>
    ensures lost { refused ≡ OnRefusal.IsLost → result ≡ Ok tt }
    ensures asked { Logs (Sends refused (station to) octets.now (is_ok result)) (S.log socket.old)
        (S.log socket.new) }
{
    match socket.send_to(octets, address_of(to)) {
        Ok(sent) if sent == octets.len() => Ok(()),
        _ if refused == OnRefusal::IsLost => Ok(()),
        _ => Err(LinkFault),
    }
}

// Returns the next datagram within the wait, if there is one that a `Datagram` holds.
fn next_datagram<S: Socket>(
    socket: &mut S,
    patience: &mut Patience,
    refused: OnRefusal,
    buffer: &mut [u8],
    wait_ms: u32,
    datagram: &mut Datagram,
) -> Result<Option<Peer>, LinkFault>
    requires { length buffer.old ≡ longest_datagram + 1 }
    ensures room { length buffer.new ≡ length buffer.old }
    ensures limited { OnOk result (patience.new ≡ patience_for patience.old wait_ms) }
    ensures plain { IfOk result (λ heard. IfSome heard (λ from. from.route ≡ None)) }
    ensures kept { IfNone (option_flatten (result_ok result)) (datagram.new ≡ datagram.old) }
    ensures asked { Logs (Waits refused patience.old wait_ms (heard_by result datagram.new)) (S.log socket.old)
        (S.log socket.new) }
{
    let wanted = patience_for(*patience, wait_ms);
    set_patience(socket, *patience, wanted)?;
    *patience = wanted;
    look(socket, refused, buffer, most_looks(wait_ms), datagram)
}

// Returns how receives must wait for this wait: not at all if it is 0.
fn patience_for(patience: Patience, wait_ms: u32) -> Patience
    ensures { result ≡ patience_for patience wait_ms }
{
    if wait_ms == 0 {
        Patience {
            at_once: true,
            ..patience
        }
    } else {
        Patience {
            limit_ms: wait_ms,
            at_once: false,
        }
    }
}

// Makes the receives of the socket wait in this way. Only changes are passed to the system.
fn set_patience<S: Socket>(
    socket: &mut S,
    before: Patience,
    wanted: Patience,
) -> Result<(), LinkFault>
    ensures { Logs (Sets before wanted (is_ok result)) (S.log socket.old) (S.log socket.new) }
{
    set_mode(socket, before.at_once, wanted.at_once)?;
    limit_wait(socket, before.limit_ms, wanted.limit_ms)
}

// Makes the receives of the socket return at once, or wait.
fn set_mode<S: Socket>(socket: &mut S, before: bool, wanted: bool) -> Result<(), LinkFault>
    ensures unset { OnErr result (before ≢ wanted) }
    ensures asked { S.log socket.new ≡ S.log socket.old ++ modes before wanted (is_ok result) }
{
    if before == wanted {
        return Ok(());
    }
    socket.set_nonblocking(wanted).map_err(|_| LinkFault)
}

// Limits the socket's waits to this time from now on.
fn limit_wait<S: Socket>(socket: &mut S, before_ms: u32, wait_ms: u32) -> Result<(), LinkFault>
    ensures unlimited { OnErr result (wait_ms ≢ before_ms) }
    ensures asked { S.log socket.new ≡ S.log socket.old ++ limits before_ms wait_ms (is_ok result) }
{
    if wait_ms == before_ms {
        return Ok(());
    }
    socket
        .set_read_timeout(wait_of(wait_ms))
        .map_err(|_| LinkFault)
}

// Returns how many receives a wait of this length makes at most: one more after each datagram that is skipped.
fn most_looks(wait_ms: u32) -> u32
    ensures { result ≡ most_looks wait_ms }
{
    if wait_ms == 0 { 256 } else { 4 }
}

// Returns the sender of the first datagram that is not skipped, if one comes in this many receives.
#[tactic(auto, using(crate::proofs::looked, crate::proofs::looks_end, crate::proofs::looks_on))]
fn look<S: Socket>(
    socket: &mut S,
    refused: OnRefusal,
    buffer: &mut [u8],
    times: u32,
    datagram: &mut Datagram,
) -> Result<Option<Peer>, LinkFault>
    requires { length buffer.old ≡ longest_datagram + 1 }
    ensures room { length buffer.new ≡ length buffer.old }
    ensures plain { IfOk result (λ heard. IfSome heard (λ from. from.route ≡ None)) }
    ensures kept { IfNone (option_flatten (result_ok result)) (datagram.new ≡ datagram.old) }
    ensures looks { Logs (Looks refused times (heard_by result datagram.new)) (S.log socket.old) (S.log socket.new) }
{
    let mut left = times;
    'looks: while left > 0 {
        left -= 1;
        match receive_once(socket, refused, buffer, datagram)? {
            Brought::Datagram(from) => return Ok(Some(from)),
            Brought::Silence => return Ok(None),
            Brought::Unheard => {}
        }
    }
    Ok(None)
}

// Receives once from the system.
fn receive_once<S: Socket>(
    socket: &mut S,
    refused: OnRefusal,
    buffer: &mut [u8],
    datagram: &mut Datagram,
) -> Result<Brought, LinkFault>
    requires { length buffer.old ≡ longest_datagram + 1 }
    ensures room { length buffer.new ≡ length buffer.old }
    ensures plain { IfOk result IsPlain }
    ensures kept { KeepsUnheard result datagram.old datagram.new }
    ensures asked { Logs (ReceivesOnce refused (brought result datagram.new)) (S.log socket.old) (S.log socket.new) }
{
    match socket.recv_from(buffer) {
        Ok((len, from)) => match keep(from, &buffer[..len], datagram) {
            Some(peer) => Ok(Brought::Datagram(peer)),
            None => Ok(Brought::Unheard),
        },
        Err(e) if is_quiet(refused, e.kind()) => Ok(Brought::Silence),
        Err(_) => Err(LinkFault),
    }
}

// Returns a duration of this many milliseconds.
fn wait_of(wait_ms: u32) -> Duration
    ensures { as_nanos result ≡ wait_ms * 1_000_000 }
{
    Duration::from_millis(u64::from(wait_ms))
}

// Keeps the octets from this address, and returns the peer; or None, if they are too many.
fn keep(from: SocketAddr, octets: &[u8], datagram: &mut Datagram) -> Option<Peer>
    ensures peer { result ≡ heard_from from octets.now }
    ensures held { MatchOption result (datagram.new ≡ datagram.old) (λ peer. datagram.new ≡ octets.now) }
{
    let peer = peer_of(from)?;
    if datagram.set(octets) {
        Some(peer)
    } else {
        None
    }
}

// Returns the peer at an IPv4 address.
fn peer_of(address: SocketAddr) -> Option<Peer>
    ensures { result ≡ peer_at address }
{
    match address {
        SocketAddr::V4(address) => Some(Peer {
            ip: address.ip().to_bits(),
            port: address.port(),
            route: None,
        }),
        SocketAddr::V6(_) => None,
    }
}

// Returns whether a receive with this error counts as silence.
fn is_quiet(refused: OnRefusal, kind: ErrorKind) -> bool
    ensures { result ≡ is_quiet refused kind }
{
    match kind {
        ErrorKind::WouldBlock | ErrorKind::TimedOut | ErrorKind::Interrupted => true,
        // These report a datagram that was sent before.
        ErrorKind::ConnectionRefused
        | ErrorKind::ConnectionReset
        | ErrorKind::HostUnreachable
        | ErrorKind::NetworkUnreachable => refused == OnRefusal::IsLost,
        _ => false,
    }
}

// Returns the time of the link, from the time that has passed by its clock.
fn time_by(passed: io::Result<Duration>, before: u64) -> u64
    ensures { result ≡ time_by (result_ok passed) before }
{
    match passed {
        Ok(passed) => u64::try_from(passed.as_millis()).unwrap_or(u64::MAX),
        Err(_) => before,
    }
}
