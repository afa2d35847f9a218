//! Worked rows of each crate, and readers, writers, links and memory that fail.

mod links;
mod runs;
mod script;
mod streams;
mod text;
mod tools;
mod words;

use bac_pdu::Peer;
use std::alloc::Global;
use std::process::Abort;

const LOCALHOST: u32 = 0x7f00_0001;

/// 127.0.0.1:47808, the peer of requests.
const CONTROLLER: Peer = Peer {
    ip: LOCALHOST,
    port: 47_808,
    route: None,
};

/// 127.0.0.1:50000, another peer.
const OTHER: Peer = Peer {
    port: 50_000,
    ..CONTROLLER
};

/// An answer: the present value of analog-input 5.
const VALUE: &[u8] =
    b"\x81\x0a\x00\x17\x01\x00\x30\x01\x0c\x0c\x00\x00\x00\x05\x19\x55\x3e\x44\x42\x90\x99\x9a\x3f";

/// A Who-Is for all devices, and the I-Am of the device 1234.
const WHO_IS: &[u8] = b"\x81\x0a\x00\x08\x01\x00\x10\x08";

const I_AM: &[u8] =
    b"\x81\x0a\x00\x15\x01\x00\x10\x00\xc4\x02\x00\x04\xd2\x22\x05\xc4\x91\x03\x22\x01\x04";

/// Returns whether the octets are written as these digits.
fn are_digits(alloc: Global, octets: &[u8], digits: &str) -> bool {
    match hex::encode(alloc, octets) {
        Ok(written) => written.as_str() == digits,
        Err(_) => false,
    }
}

#[test]
fn other_texts_are_refused(rt: HostRuntime) {
    assert!(&rt; !are_digits(rt.alloc(), b"\x01", "02"));
    for text in ["x", ""] {
        assert!(&rt; !is_text(&[b'y'; 96], text));
    }
}

/// Returns whether the room begins with this text, and is unchanged after it.
fn is_text(room: &[u8; 96], text: &str) -> bool {
    let len = text.len();
    room.get(..len) == Some(text.as_bytes()) && room.get(len..) == [0xff; 96].get(len..)
}
