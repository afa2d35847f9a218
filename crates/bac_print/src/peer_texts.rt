//! A peer as it is printed.
ghost use Rattle.std.specs.Option.{option_map_or};
ghost use Rattle.std.specs.Prelude.{[], decimal, drop, length, option_map, ◌++◌, ◌+◌, ◌∷◌, ◌≡◌, ◌≤◌};
ghost use Rattle.bac_pdu.specs.{network_address, station};
ghost use Rattle.bac_print.specs.{address_text, peer_text, Prints, route_text};

use crate::page::{Page, write_digits};
use bac_pdu::{Peer, Route};
use std::io::Write;

// The octets of the longest address and port.
const LONGEST_STATION: usize = 21;

impl<W: Write> Page<'_, W> {
    /// Prints the IP address in dotted decimal, a colon and the port, and the route, if there is one.
    #[tactic(auto, using(crate::proofs::printing, std::proofs::lemmas::List::take_rest, std::proofs::lemmas::Grind::common_steps, crate::proofs::no_feed_station))]
    pub fn print_peer(&mut self, peer: Peer)
        ensures { Prints W.contents self.old self.new (peer_text (station peer)) }
    {
        let mut room = [0; LONGEST_STATION];
        let start = write_station(peer.ip, peer.port, &mut room);
        self.print_plain(&room[start..]);
        self.print_route(peer.route);
    }

    #[tactic(auto, using(crate::proofs::printing))]
    fn print_route(&mut self, route: Option<Route>)
        ensures { Prints W.contents self.old self.new (option_map_or route_text (option_map network_address route) []) }
    {
        if let Some(route) = route {
            self.print(b"/");
            self.print_number(u64::from(route.network()));
            self.print(b"/");
            self.print_hex(route.address());
        }
    }
}

// Writes an IP address in dotted decimal, a colon and a port at the end of the room, and returns where they begin.
#[tactic(auto, using(crate::proofs::two_octets))]
fn write_station(ip: u32, port: u16, room: &mut [u8; LONGEST_STATION]) -> usize
    ensures text { drop result room.new ≡ address_text ip ++ 58 ∷ decimal port }
    ensures within { result ≤ LONGEST_STATION }
    ensures size { length room.new ≡ LONGEST_STATION }
{
    let [first, second, third, fourth] = ip.to_be_bytes();
    let start = write_digits(u64::from(port), room, LONGEST_STATION);
    let start = write_octet(fourth, b':', room, start);
    let start = write_octet(third, b'.', room, start);
    let start = write_octet(second, b'.', room, start);
    write_octet(first, b'.', room, start)
}

// Writes the decimal digits of an octet and a mark so that they end before position `end`, and returns where they
// begin.
#[tactic(auto, using(crate::proofs::one_octet))]
fn write_octet(octet: u8, mark: u8, room: &mut [u8], end: usize) -> usize
    requires within { end ≤ length room.old }
    requires fits { 4 ≤ end }
    ensures text { drop result room.new ≡ decimal octet ++ mark ∷ drop end room.old }
    ensures start { end ≤ result + 4 }
    ensures before { result ≤ end }
    ensures size { length room.new ≡ length room.old }
{
    let end = end - 1;
    room[end] = mark;
    write_digits(u64::from(octet), room, end)
}
