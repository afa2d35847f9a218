//! Datagrams from addresses that no script can name, and frames that a datagram fills. Other datagrams are tested by
//! the scripts.

use crate::tests::{ASKER, octets, routed};
use bac_pdu::{Peer, Route, open_datagram, wrap};
use bac_wire::Frame;

/// 192.168.1.5:47808, the originator of a forwarded datagram.
const FORWARDED: Peer = Peer {
    ip: 0xc0a8_0105,
    port: 47808,
    route: None,
};

const AT_7: Option<(u16, &[u8])> = Some((5, &[7]));

const FAR: Option<(u16, &[u8])> = Some((65534, &[1, 2, 3, 4, 5, 6, 7]));

const TO_FAR: &str = "810a00120108fffe07010203040506071008";

/// Datagrams, their peers and routes, whether they went to all, and the number of octets before the APDU.
const CARRIED: [(&str, Peer, Option<(u16, &[u8])>, bool, usize); 8] = [
    ("810a000e010010080a03e81a04d2", ASKER, None, false, 6),
    // The bits 6, 4, 2, 1 and 0 of the control octet, and an empty APDU.
    ("810a00080157ffff", ASKER, None, false, 6),
    ("810a00060100", ASKER, None, false, 6),
    (TO_FAR, ASKER, FAR, false, 16),
    ("810a000c0108000501071008", ASKER, AT_7, false, 10),
    ("810b000c0120ffff00ff1008", ASKER, None, true, 10),
    ("810b00100128ffff0000050107ff1008", ASKER, AT_7, true, 14),
    ("8104000ec0a80105bac001001008", FORWARDED, None, true, 12),
];

/// Returns whether the datagram is carried from this peer, with this many octets before the APDU.
pub(crate) fn carries(from: Peer, octets: &[u8], peer: Peer, to_all: bool, headers: usize) -> bool {
    let Some(carried) = open_datagram(from, octets) else {
        return false;
    };
    let is_right = carried.peer == peer && carried.broadcast == to_all;
    is_right && octets.get(headers..) == Some(carried.apdu)
}

// The route of a datagram's sender is ignored.
#[test]
fn what_is_carried(rt: HostRuntime) {
    for (text, station, route, to_all, headers) in &CARRIED {
        let route = match route {
            Some((network, address)) => Route::new(*network, address),
            None => None,
        };
        let peer = Peer { route, ..*station };
        let datagram = octets(&rt, text);
        let from = routed(ASKER, 6, &[9]);
        let is_right = carries(from, datagram.as_slice(), peer, *to_all, *headers);
        assert!(&rt; is_right, "{text}");
    }
}

/// Returns whether an APDU of this many octets fills a frame with this beginning, and one octet more leaves the frame
/// unchanged.
fn is_filled(peer: Peer, is_expected: bool, longest: usize, front: &[u8]) -> bool {
    let apdu = [7; 1492];
    let (Some(most), Some(more)) = (apdu.get(..longest), apdu.get(..longest.wrapping_add(1))) else {
        return false;
    };
    let mut frame = Frame::new();
    wrap(peer, is_expected, more, &mut frame).is_err()
        && frame.is_empty()
        && wrap(peer, is_expected, most, &mut frame).is_ok()
        && wrap(peer, is_expected, &apdu, &mut frame).is_err()
        && frame.len() == 1497
        && frame.as_slice().starts_with(front)
}

#[test]
fn full_frames(rt: HostRuntime) {
    assert!(&rt; is_filled(ASKER, false, 1491, b"\x81\x0a\x05\xd9\x01\x00\x07\x07"));
    let far = routed(ASKER, 5, &[1, 2, 3, 4, 5, 6, 7]);
    assert!(&rt; is_filled(far, true, 1480, b"\x81\x0a\x05\xd9\x01\x24"));
}
