//! Worked rows of each crate that scripts cannot express, and damaged octets for the reader of datagrams, the client
//! and the device. Cases that scripts can express are in tests/program/rows.

mod client;
mod damage;
mod datagrams;
mod device;
mod pdu;
mod reading;
mod wire;

use bac_device::{Device, DeviceInfo, demo};
use bac_pdu::{Peer, Route};
use bac_tsm::{Client, Config};
use bac_wire::{Frame, ObjectId};
use bac_work::begin;
use std::process::Abort;

/// 127.0.0.1:47808, the peer of the client's requests.
const CONTROLLER: Peer = Peer {
    ip: 0x7f00_0001,
    port: 47808,
    route: None,
};

/// 127.0.0.1:50000, the sender of requests to the device.
const ASKER: Peer = Peer {
    port: 50000,
    ..CONTROLLER
};

/// Returns the station with this address in this network, behind a router.
fn routed(router: Peer, network: u16, address: &[u8]) -> Peer {
    Peer {
        route: Route::new(network, address),
        ..router
    }
}

const READ_PROPERTY: u8 = 12;

/// The body of a request for the present value of analog-input 5.
const BODY: [u8; 7] = [0x0c, 0x00, 0x00, 0x00, 0x05, 0x19, 0x55];

/// Returns the datagram in which the client sends `BODY` with this invoke id.
fn request(invoke_id: u8) -> [u8; 17] {
    [
        0x81, 0x0a, 0x00, 0x11, 0x01, 0x04, 0x00, 0x05, invoke_id, 0x0c, 0x0c, 0x00, 0x00, 0x00,
        0x05, 0x19, 0x55,
    ]
}

/// Returns the octets of a text of hexadecimal digits. Any other text ends the test.
fn octets<H: Abort + AllocGlobal>(rt: &H, text: &str) -> Vec<u8> {
    match hex::decode(rt.alloc(), text) {
        Ok(octets) => octets,
        Err(_) => panic!(rt; "no octets in {text}"),
    }
}

/// The points that can be commanded: type and instance.
static COMMANDABLE: [(u16, u32); 6] = [(1, 1), (2, 2), (4, 4), (5, 5), (14, 1), (19, 1)];

/// A timeout of three seconds and three retries.
const USUAL: Config = Config {
    timeout: 3000,
    retries: 3,
};

/// Returns a client with one request to the controller open, with the ticket 0 and the invoke id 1.
fn asking() -> Client {
    let mut client = Client::new(USUAL, 0);
    let _ = client.submit(CONTROLLER, READ_PROPERTY, &BODY);
    client
}

/// Returns whether the client is as `asking` returned it.
fn is_asking(client: &Client) -> bool {
    let sent = match client.to_send(0) {
        Some((peer, octets)) => peer == CONTROLLER && octets == request(1).as_slice(),
        None => false,
    };
    sent && client.open_count() == 1 && client.number_of(0) == Some(1) && client.clock() == 0
}

/// Returns the device 1234, named `Small device`, with the demonstration points.
fn small_device() -> Option<Device> {
    Some(demo(DeviceInfo::new(1234, "Small device")?))
}

/// Returns whether every place of every point is NULL, as in a fresh device.
fn is_fresh(device: &Device) -> bool {
    for (kind, instance) in &COMMANDABLE {
        let Some(object) = ObjectId::new(*kind, *instance) else {
            return false;
        };
        for priority in 1..=16_u8 {
            if device.place(object, priority) != Some(None) {
                return false;
            }
        }
    }
    true
}

/// Returns whether the device is silent, leaves the frame empty, and stays like a fresh one.
fn is_silent(device: &mut Device, datagram: &[u8]) -> bool {
    let mut frame = Frame::new();
    let to = device.answer(ASKER, datagram, &mut frame, &mut begin());
    to.is_none() && frame.is_empty() && is_fresh(device)
}

/// Returns a frame with these octets, and after them this many nested brackets, at most 33.
fn nested(front: &[u8], depth: usize) -> Frame {
    let mut frame = Frame::new();
    let _ = frame.append(front);
    let _ = frame.append([0x0e; 33].get(..depth).unwrap_or(&[]));
    let _ = frame.append([0x0f; 33].get(..depth).unwrap_or(&[]));
    frame
}
