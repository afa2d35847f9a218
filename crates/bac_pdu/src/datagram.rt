//! Whole datagrams, read and written: the link header, the network header, and the APDU after both.

ghost use Rattle.std.specs.Prelude.{◌+◌, ◌<◌, ◌^◌, ◌≡◌, ◌≤◌, false, IfOk, IfSome, length, OnErr, OnOk, option_map};
ghost use Rattle.{std.specs.Prelude.Some, bac_wire.specs.frame_room, bac_pdu.specs.{address_at, announced_at}};
ghost use Rattle.bac_pdu.specs.{behind_hops, carried, delivery, everyone, header_at, IsRoutable, link_at};
ghost use Rattle.bac_pdu.specs.{network_address, origin_at, plain_header, station, Takes, wrapped};
ghost use Rattle.bac_pdu.specs.Inner.{address_seen, front_octets, header_seen};

use crate::bits::has_bit;
use crate::peer::Peer;
use crate::route::Route;
use arrayvec::ArrayVec;
use bac_wire::{FRAME_OCTETS, Frame, Full};
use byteorder::{BigEndian, ByteOrder};

/// The contents of a datagram.
#[derive(Clone, Copy, Debug)]
pub struct Carried<'a> {
    /// The sender, to which a reply goes.
    pub peer: Peer,
    /// Whether the datagram was sent to more than one station.
    pub broadcast: bool,
    /// The octets after both headers.
    pub apdu: &'a [u8],
}

// The contents of a network header (clause 6.2): the destination and the source, if they are in other networks.
#[derive(Clone, Copy)]
struct Header<'a> {
    destination: Option<Address<'a>>,
    source: Option<Address<'a>>,
}

// A station of another network, as in a network header.
#[derive(Clone, Copy)]
struct Address<'a> {
    network: u16,
    address: &'a [u8],
}

// The type of each BACnet/IP datagram.
const BACNET_IP: u8 = 0x81;

// The functions that are accepted (Annex J.2).
const UNICAST: u8 = 0x0a;

const BROADCAST: u8 = 0x0b;

const FORWARDED: u8 = 0x04;

// The number that stands for all networks (clause 6.2.2).
const ALL_NETWORKS: u16 = 0xffff;

// The version of the network header.
const VERSION: u8 = 1;

// The numbers of the bits of the control octet.
const NETWORK_MESSAGE: u8 = 7;

const DESTINATION: u8 = 5;

const SOURCE: u8 = 3;

// The control octets that are written.
const EXPECTS_REPLY: u8 = 0x04;

const DESTINED: u8 = 1 << DESTINATION;

// The hop count of a datagram that no router has passed on.
const HOPS: u8 = 255;

// The octets of the longest header that is written.
const HEADER_OCTETS: usize = 13;

// The most octets before an APDU: of the link header and of the network header.
const FRONT_OCTETS: usize = 4 + HEADER_OCTETS;

/// Returns the contents of the datagram that came from this address and port (Annex J and clause 6).
///
/// The peer is `from`, or the originator that a Forwarded-NPDU names, with the source of the network header as its
/// route; the route of `from` is ignored. `None` if the datagram is ignored: its link header is cut off, has another
/// type or function, or a length that is not the datagram's; its network header is cut off, has another version, or is
/// a message of the network layer; its destination is not all networks; or no route leads to its source.
#[tactic(auto, unfolding(crate::specs::carried))]
#[inline(always)]
pub fn open_datagram(from: Peer, datagram: &[u8]) -> Option<Carried<'_>>
    ensures value { option_map delivery result ≡ carried (station from) datagram.now }
{
    let (sender, to_all, rest) = link_and_rest(from, datagram)?;
    let (header, apdu) = header_and_rest(rest)?;
    if header
        .destination
        .is_some_and(|to| to.network != ALL_NETWORKS)
    {
        return None;
    }
    let route = match header.source {
        Some(source) => Some(Route::new(source.network, source.address)?),
        None => None,
    };
    Some(Carried {
        peer: Peer {
            ip: sender.ip,
            port: sender.port,
            route,
        },
        broadcast: to_all || header.destination.is_some(),
        apdu,
    })
}

/// Writes into the frame the unicast datagram that carries the APDU to the peer, and that says whether a reply is
/// expected.
///
/// Returns `Full`, with the frame unchanged, only if the datagram has more octets than a frame: an APDU of more than
/// 1,491 octets, or, with a route, of more than 1,487 minus those of its address. This never happens if the APDU has at
/// most 1,480.
#[tactic(auto, using(crate::proofs::front_before, crate::proofs::length_front, crate::proofs::length_wrapped, crate::proofs::put_front_takes))]
pub fn wrap(to: Peer, expect: bool, apdu: &[u8], frame: &mut Frame) -> Result<(), Full>
    ensures ok { OnOk result (frame.new ≡ wrapped (station to).route expect apdu.now) }
    ensures whole { OnOk result (Takes (station to).route expect apdu.now frame.new) }
    ensures fits { OnOk result (length (wrapped (station to).route expect apdu.now) ≤ frame_room) }
    ensures full { OnErr result (frame_room < length (wrapped (station to).route expect apdu.now)) }
    ensures room { OnErr result (1480 < length apdu.now) }
    ensures err { OnErr result (frame.new ≡ frame.old) }
{
    let front = front_of(to, expect, apdu.len())?;
    frame.clear();
    frame.append(front.as_slice())?;
    frame.append(apdu)
}

/// Turns the APDU in the frame into the datagram that `wrap` would make from it. Nothing is copied except within the
/// frame. Returns `Full`, with the frame unchanged, only if the datagram has more octets than a frame.
#[tactic(auto, using(crate::proofs::front_before, crate::proofs::length_front, crate::proofs::length_wrapped, crate::proofs::put_front_takes))]
#[inline(always)]
pub fn wrap_within(to: Peer, expect: bool, frame: &mut Frame) -> Result<(), Full>
    ensures ok { OnOk result (frame.new ≡ wrapped (station to).route expect frame.old) }
    ensures whole { OnOk result (Takes (station to).route expect frame.old frame.new) }
    ensures fits { OnOk result (length (wrapped (station to).route expect frame.old) ≤ frame_room) }
    ensures full { OnErr result (frame_room < length (wrapped (station to).route expect frame.old)) }
    ensures room { OnErr result (1480 < length frame.old) }
    ensures err { OnErr result (frame.new ≡ frame.old) }
{
    match to.route {
        None => frame.prepend(&local_front(expect, frame.len())),
        Some(_) => {
            let front = front_of(to, expect, frame.len())?;
            frame.prepend(front.as_slice())
        }
    }
}

/// Turns the APDU in the frame into the unicast datagram that asks a router to broadcast it in this network, or, if the
/// number is 65535, in all networks that the router knows: the destination is the network, without an address (clause
/// 6.2.2). No reply is expected. The number must not be 0. Returns `Full`, with the frame unchanged, only if the APDU
/// has more than 1,487 octets.
#[tactic(auto, using(crate::proofs::across_made, crate::proofs::across_takes))]
pub fn wrap_across(network: u16, frame: &mut Frame) -> Result<(), Full>
    requires { 0 < network }
    ensures ok { OnOk result (frame.new ≡ wrapped (Some (everyone network)) false frame.old) }
    ensures whole { OnOk result (Takes (Some (everyone network)) false frame.old frame.new) }
    ensures full { OnErr result (1487 < length frame.old) }
    ensures err { OnErr result (frame.new ≡ frame.old) }
{
    if frame.len() > FRAME_OCTETS - 10 {
        return Err(Full);
    }
    frame.prepend(&front_across(network, frame.len()))
}

// Returns the sender of the datagram, whether it was sent to all, and the octets after the link header.
#[tactic(auto, unfolding(crate::specs::link_at))]
fn link_and_rest(from: Peer, datagram: &[u8]) -> Option<(Peer, bool, &[u8])>
    ensures { option_map (λ x. ((station x.0, x.1), x.2.now)) result ≡ link_at (station from) datagram.now }
{
    let [kind, function, high, low, rest @ ..] = datagram else {
        return None;
    };
    if *kind != BACNET_IP || usize::from(BigEndian::read_u16(&[*high, *low])) != datagram.len() {
        return None;
    }
    origin_and_rest(*function, from, rest)
}

// Returns the sender of a datagram with this function, whether it was sent to all, and the octets after the
// originator's.
fn origin_and_rest(function: u8, from: Peer, octets: &[u8]) -> Option<(Peer, bool, &[u8])>
    ensures { option_map (λ x. ((station x.0, x.1), x.2.now)) result ≡ origin_at function (station from) octets.now }
{
    match function {
        UNICAST => Some((from, false, octets)),
        BROADCAST => Some((from, true, octets)),
        FORWARDED => {
            let [a, b, c, d, e, f, rest @ ..] = octets else {
                return None;
            };
            let originator = Peer {
                ip: BigEndian::read_u32(&[*a, *b, *c, *d]),
                port: BigEndian::read_u16(&[*e, *f]),
                route: None,
            };
            Some((originator, true, rest))
        }
        _ => None,
    }
}

// Returns the network header at the front, and the APDU after it. `None` if it is cut off, has another version, or is
// a message of the network layer.
#[tactic(auto, unfolding(crate::specs::header_at))]
fn header_and_rest(octets: &[u8]) -> Option<(Header<'_>, &[u8])>
    ensures { option_map (λ x. (header_seen x.0, x.1.now)) result ≡ header_at octets.now }
{
    let [version, control, rest @ ..] = octets else {
        return None;
    };
    if *version != VERSION || has_bit(*control, NETWORK_MESSAGE) {
        return None;
    }
    let destined = has_bit(*control, DESTINATION);
    let (destination, rest) = announced_and_rest(destined, rest)?;
    let (source, rest) = announced_and_rest(has_bit(*control, SOURCE), rest)?;
    let rest = rest_behind_hops(destined, rest)?;
    Some((
        Header {
            destination,
            source,
        },
        rest,
    ))
}

// Returns the address, if the control octet announces one, and the octets after it.
fn announced_and_rest(announced: bool, octets: &[u8]) -> Option<(Option<Address<'_>>, &[u8])>
    ensures { option_map (λ x. (option_map address_seen x.0, x.1.now)) result
        ≡ announced_at announced octets.now }
{
    if !announced {
        return Some((None, octets));
    }
    let (address, rest) = address_and_rest(octets)?;
    Some((Some(address), rest))
}

// Returns a network and an address in it, whose length is in the octet before it, and the octets after.
#[tactic(auto, unfolding(crate::specs::address_at))]
fn address_and_rest(octets: &[u8]) -> Option<(Address<'_>, &[u8])>
    ensures { option_map (λ x. (address_seen x.0, x.1.now)) result ≡ address_at octets.now }
{
    let [high, low, count, rest @ ..] = octets else {
        return None;
    };
    let network = BigEndian::read_u16(&[*high, *low]);
    let (address, rest) = rest.split_at_checked(usize::from(*count))?;
    Some((Address { network, address }, rest))
}

// Returns the octets after the hop count, which is present if a destination is.
fn rest_behind_hops(destined: bool, octets: &[u8]) -> Option<&[u8]>
    ensures { option_map (λ x. x.now) result ≡ behind_hops destined octets.now }
{
    if !destined {
        return Some(octets);
    }
    let [_, rest @ ..] = octets else {
        return None;
    };
    Some(rest)
}

// Returns the octets before an APDU of this size: the link header and the network header. Returns `Full` if no frame
// has room for these and the APDU.
#[tactic(auto, unfolding(crate::specs::Inner::front_octets))]
fn front_of(to: Peer, expect: bool, size: usize) -> Result<ArrayVec<u8, FRONT_OCTETS>, Full>
    requires { size < 2 ^ 63 }
    ensures ok { IfOk result (λ front. front.items ≡ front_octets (station to).route expect size) }
    ensures fits { OnOk result (length (front_octets (station to).route expect size) + size ≤ frame_room) }
    ensures full { OnErr result (frame_room < length (front_octets (station to).route expect size) + size) }
    ensures short { length (front_octets (station to).route expect size) ≤ FRONT_OCTETS }
    ensures routable { IfSome (station to).route IsRoutable }
{
    let header = network_header(to.route, expect);
    let length = 4 + header.len() + size;
    if length > FRAME_OCTETS {
        return Err(Full);
    }
    let mut count = [0; 2];
    BigEndian::write_u16(&mut count, length as u16);
    let mut front = ArrayVec::new();
    front.push(BACNET_IP);
    front.push(UNICAST);
    front.try_extend_from_slice(&count).unwrap();
    front.try_extend_from_slice(header.as_slice()).unwrap();
    Ok(front)
}

// Returns the octets before an APDU of this size for a station of this network.
#[tactic(auto, using(crate::proofs::local_front))]
fn local_front(expect: bool, size: usize) -> [u8; 6]
    requires { size ≤ frame_room }
    ensures { result ≡ front_octets None expect size }
{
    let [high, low] = (6 + size as u16).to_be_bytes();
    let [version, control] = local_header(expect);
    [BACNET_IP, UNICAST, high, low, version, control]
}

// Returns the octets before an APDU of this size for all stations of a network.
#[tactic(auto, using(crate::proofs::across_front))]
fn front_across(network: u16, size: usize) -> [u8; 10]
    requires { size ≤ 1487 }
    ensures { result ≡ front_octets (Some (everyone network)) false size }
{
    let [high, low] = (10 + size as u16).to_be_bytes();
    let [version, control, first, second, count, hops] = broadcast_header(network);
    [
        BACNET_IP, UNICAST, high, low, version, control, first, second, count, hops,
    ]
}

// Returns the network header of a datagram to a station. A station of another network is its destination.
fn network_header(route: Option<Route>, expect: bool) -> ArrayVec<u8, HEADER_OCTETS>
    ensures value { result.items ≡ plain_header (option_map network_address route) expect }
    ensures short { length result.items ≤ HEADER_OCTETS }
    ensures routable { IfSome (option_map network_address route) IsRoutable }
{
    let mut header = ArrayVec::new();
    let [version, control] = local_header(expect);
    header.push(version);
    let Some(route) = route else {
        header.push(control);
        return header;
    };
    let mut network = [0; 2];
    BigEndian::write_u16(&mut network, route.network());
    header.push(DESTINED + control);
    header.try_extend_from_slice(&network).unwrap();
    header.push(route.address().len() as u8);
    header.try_extend_from_slice(route.address()).unwrap();
    header.push(HOPS);
    header
}

// Returns the network header of a datagram for a station of this network.
fn local_header(expect: bool) -> [u8; 2]
    ensures { result ≡ plain_header None expect }
{
    [VERSION, if expect { EXPECTS_REPLY } else { 0 }]
}

// Returns the network header of a datagram for all stations of a network.
fn broadcast_header(network: u16) -> [u8; 6]
    ensures { result ≡ plain_header (Some (everyone network)) false }
{
    let [high, low] = network.to_be_bytes();
    [VERSION, DESTINED, high, low, 0, HOPS]
}
