//! A peer as text.
ghost use Rattle.std.specs.Prelude.{IfSome, option_map, ◌<◌, ◌≡◌, ◌≤◌};
ghost use Rattle.{bac_pdu.specs.{network_address, station}, bac_text.specs.{address_of, cut_at, number_before_dot}};
ghost use Rattle.bac_text.specs.{network_at, network_of, peer_of, plain_peer_of, reach_of, reach_seen, routable};
ghost use Rattle.bac_text.specs.{route_of};
ghost use Rattle.bac_text.specs.{short_number, Inner.{digit, octets_in}};

use crate::hex_digits::{HexDigits, read_hex};
use crate::numbers::{leading_number, read_number};
use crate::search::{Delimiter, position_of_end};
use bac_pdu::{ADDRESS_OCTETS, Peer, Route};

// The port of BACnet/IP, which is the default (Annex J.1.2).
const USUAL_PORT: u16 = 47_808;

/// Returns the peer that a text names, such as `127.0.0.1`, `127.0.0.1:47808` or `127.0.0.1:47808/5/07`: the last is
/// the station with the address 07 in network 5, behind the router at this address and port. Returns `None` if the text
/// names no peer.
pub fn read_peer(text: &str) -> Option<Peer>
    ensures { option_map station result ≡ peer_of text.now }
{
    peer_in(text.as_bytes())
}

/// Returns the peer that octets name: an IP address in dotted decimal, then `:` and the port, if it is not the usual
/// one, and for a station of another network `/`, the number of the network, `/` and the address there in hexadecimal
/// digits.
pub fn peer_in(text: &[u8]) -> Option<Peer>
    ensures { option_map station result ≡ peer_of text.now }
{
    match cut(text, b'/') {
        None => plain_peer_in(text),
        Some((router, route)) => {
            let router = plain_peer_in(router)?;
            let route = read_route(route)?;
            Some(Peer {
                ip: router.ip,
                port: router.port,
                route: Some(route),
            })
        }
    }
}

/// Returns the peer without a route that a text names.
pub fn plain_peer_in(text: &[u8]) -> Option<Peer>
    ensures { option_map station result ≡ plain_peer_of text.now }
{
    let (ip, port) = match cut(text, b':') {
        None => (read_address(text)?, USUAL_PORT),
        Some((address, port)) => {
            let port = short_number(port, 5, 65_535)?;
            (read_address(address)?, port as u16)
        }
    };
    Some(Peer {
        ip,
        port,
        route: None,
    })
}

/// The receivers of a Who-Is.
#[derive(Clone, Copy)]
pub struct Reach {
    /// The peer that the Who-Is is sent to.
    pub to: Peer,
    /// The network in which the router there broadcasts it; 65535 is all networks. `None` if it is only for the peer.
    pub network: Option<u16>,
}

/// Returns the receivers of a Who-Is that octets name: a peer as `peer_in` reads it; or a router, `/`, and the number
/// of a network after it, or `*` for all networks.
pub fn reach_in(text: &[u8]) -> Option<Reach>
    ensures value { option_map reach_seen result ≡ reach_of text.now }
    ensures some { IfSome result (λ reach. IfSome reach.network (λ network. 0 < network)) }
{
    match network_in(text) {
        None => {
            let to = peer_in(text)?;
            Some(Reach { to, network: None })
        }
        Some((router, network)) => {
            let to = plain_peer_in(router)?;
            Some(Reach {
                to,
                network: Some(network),
            })
        }
    }
}

/// Returns the octets before and after the first octet with this value.
#[tactic(auto, using(std::proofs::lemmas::List::take_rest))]
pub(crate) fn cut(text: &[u8], octet: u8) -> Option<(&[u8], &[u8])>
    ensures { option_map (λ parts. (parts.0.now, parts.1.now)) result ≡ cut_at octet text.now }
{
    let position = position_of_end(text, Delimiter::At(octet))?;
    Some((&text[..position], &text[position + 1..]))
}

fn read_address(text: &[u8]) -> Option<u32>
    ensures { result ≡ address_of text.now }
{
    let (first, rest) = number_before_dot(text)?;
    let (second, rest) = number_before_dot(rest)?;
    let high = first * 256 + second;
    let (third, fourth) = number_before_dot(rest)?;
    let high = high * 256 + third;
    Some(high * 256 + short_number(fourth, 3, 255)?)
}

// Returns a number up to 255 before a dot, and the octets after the dot.
#[inline(always)]
fn number_before_dot(text: &[u8]) -> Option<(u32, &[u8])>
    ensures value { option_map (λ found. (found.0, found.1.now)) result ≡ number_before_dot text.now }
    ensures limit { IfSome result (λ found. found.0 ≤ 255) }
{
    match text {
        [ones, b'.', rest @ ..] => Some((digit(*ones)?, rest)),
        [tens, ones, b'.', rest @ ..] => Some((digit(*tens)? * 10 + digit(*ones)?, rest)),
        [hundreds, tens, ones, b'.', rest @ ..] => {
            let number = digit(*hundreds)? * 100 + digit(*tens)? * 10 + digit(*ones)?;
            if number > 255 {
                return None;
            }
            Some((number, rest))
        }
        _ => None,
    }
}

// Returns the number of a decimal digit.
#[inline(always)]
fn digit(octet: u8) -> Option<u32>
    ensures value { result ≡ digit octet }
    ensures limit { IfSome result (λ number. number ≤ 9) }
{
    if !octet.is_ascii_digit() {
        return None;
    }
    Some(u32::from(octet - b'0'))
}

fn read_route(text: &[u8]) -> Option<Route>
    ensures { option_map network_address result ≡ route_of text.now }
{
    let (network, address) = cut(text, b'/')?;
    let network = read_number(network, 65_535)?;
    let address = read_hex(address)?;
    route_to(network as u16, address)
}

#[tactic(auto, using(crate::proofs::routable_digits))]
fn route_to(network: u16, address: HexDigits<'_>) -> Option<Route>
    ensures { option_map network_address result ≡
        routable (record { network = network; address = octets_in address.entry.digits.now }) }
{
    let mut room = [0; ADDRESS_OCTETS];
    if address.digits.len() > 2 * ADDRESS_OCTETS {
        return None;
    }
    let octets = &mut room[..address.digits.len() / 2];
    hex::decode_to_slice(address.digits, octets).unwrap();
    Route::new(network, octets)
}

// Returns a router, and the network after it.
fn network_in(text: &[u8]) -> Option<(&[u8], u16)>
    ensures value { option_map (λ parts. (parts.0.now, parts.1)) result ≡ network_at text.now }
    ensures some { IfSome result (λ parts. 0 < parts.1) }
{
    let (router, behind) = cut(text, b'/')?;
    let network = read_network(behind)?;
    Some((router, network))
}

fn read_network(word: &[u8]) -> Option<u16>
    ensures value { result ≡ network_of word.now }
    ensures some { IfSome result (λ network. 0 < network) }
{
    if word == b"*".as_slice() {
        return Some(u16::MAX);
    }
    let number = read_number(word, 65_534)?;
    if number == 0 {
        return None;
    }
    Some(number as u16)
}

// Returns a number with at most this many digits, up to a limit.
fn short_number(text: &[u8], digits: usize, limit: u32) -> Option<u32>
    requires { digits ≤ 5 }
    ensures value { result ≡ short_number digits limit text.now }
    ensures limit { IfSome result (λ n. n ≤ limit) }
{
    let (number, count) = leading_number(text, digits);
    if count == 0 || count < text.len() || number > limit {
        return None;
    }
    Some(number)
}
