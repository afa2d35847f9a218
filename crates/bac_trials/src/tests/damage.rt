//! Each datagram is cut at every length, and has each octet after the first two changed in all 255 ways.

use crate::tests::datagrams::DATAGRAMS;
use crate::tests::pdu::datagrams::carries;
use crate::tests::{
    ASKER, CONTROLLER, asking, is_asking, is_fresh, is_silent, octets, small_device,
};
use bac_device::Device;
use bac_pdu::{open_datagram, read_apdu};
use bac_tsm::Client;
use bac_wire::Frame;
use bac_work::begin;

/// Returns whether the octets are ignored: they carry nothing, and the client and the device do not change.
fn is_ignored(client: &mut Client, device: &mut Device, octets: &[u8]) -> bool {
    open_datagram(CONTROLLER, octets).is_none()
        && client.datagram(CONTROLLER, octets).is_none()
        && is_asking(client)
        && is_silent(device, octets)
}

/// Returns whether a client handles the octets: they end its request, or it does not change. Afterwards it has one
/// request open.
fn is_taken(client: &mut Client, octets: &[u8]) -> bool {
    match client.datagram(CONTROLLER, octets) {
        Some(_) => {
            let is_over = client.open_count() == 0;
            *client = asking();
            is_over
        }
        None => is_asking(client),
    }
}

/// Returns whether a device handles the octets: its reply is a datagram with an APDU, or it is silent, with an empty
/// frame, and does not change. Afterwards it is a fresh one.
fn is_answered(device: &mut Device, octets: &[u8]) -> bool {
    let mut frame = Frame::new();
    let to = device.answer(ASKER, octets, &mut frame, &mut begin());
    if to.is_none() {
        return frame.is_empty() && is_fresh(device);
    }
    match small_device() {
        Some(fresh) => *device = fresh,
        None => return false,
    }
    is_reply(frame.as_slice())
}

/// Returns whether the octets are a datagram with an APDU. A reply to a station behind a router is for another network,
/// so its APDU is read without the destination.
fn is_reply(octets: &[u8]) -> bool {
    match octets {
        [0x81, 0x0a, _, _, 0x01, 0x00, apdu @ ..] => read_apdu(apdu).is_some(),
        [0x81, 0x0a, _, _, 0x01, 0x20, _, _, count, rest @ ..] => {
            let apdu = rest.get(usize::from(*count) + 1..).unwrap_or(&[]);
            read_apdu(apdu).is_some()
        }
        _ => false,
    }
}

/// Returns whether the octets are handled with the octet at this place changed in each way. With another length in the
/// link header, octets 2 and 3, they must be ignored.
fn is_tolerated(client: &mut Client, device: &mut Device, datagram: &mut [u8], at: usize) -> bool {
    let Some(octet) = datagram.get(at).copied() else {
        return false;
    };
    for change in 1..=255_u8 {
        datagram[at] = octet ^ change;
        let is_well = match at {
            2 | 3 if !has_own_length(datagram) => is_ignored(client, device, datagram),
            _ => is_taken(client, datagram) && is_answered(device, datagram),
        };
        if !is_well {
            return false;
        }
    }
    datagram[at] = octet;
    true
}

/// Returns whether the link header has the datagram's own length.
fn has_own_length(datagram: &[u8]) -> bool {
    match datagram {
        [_, _, a, b, ..] => usize::from(u16::from_be_bytes([*a, *b])) == datagram.len(),
        _ => false,
    }
}

/// Returns whether reader, client and device handle the datagram however it is cut or damaged. Each shorter beginning,
/// with the old length, must be ignored.
fn is_survived(datagram: &mut [u8]) -> bool {
    let Some(mut device) = small_device() else {
        return false;
    };
    let mut client = asking();
    for count in 0..datagram.len() {
        if !is_ignored(&mut client, &mut device, &datagram[..count]) {
            return false;
        }
    }
    for place in 2..datagram.len() {
        if !is_tolerated(&mut client, &mut device, datagram, place) {
            return false;
        }
    }
    true
}

/// Returns whether the datagram has neither source nor destination, is from its sender, and has its APDU after six
/// octets.
fn is_plain(datagram: &[u8]) -> bool {
    matches!(datagram, [0x81, 0x0a, _, _, 0x01, 0x00 | 0x04, ..])
        && carries(CONTROLLER, datagram, CONTROLLER, false, 6)
        && carries(ASKER, datagram, ASKER, false, 6)
}

#[test]
fn plain_cut_and_changed_datagrams(rt: HostRuntime) {
    let mut plain = 0_u8;
    for text in DATAGRAMS.split(' ') {
        let mut datagram = octets(&rt, text);
        plain = plain.wrapping_add(u8::from(is_plain(datagram.as_slice())));
        assert!(&rt; is_survived(datagram.as_mut_slice()), "{text}");
    }
    assert!(&rt; plain == 84);
}
