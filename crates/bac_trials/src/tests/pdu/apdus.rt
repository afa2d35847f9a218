//! APDUs that are read and written, APDUs that are cut, and the sizes that a request announces.

ghost use Rattle.bac_pdu.specs.Apdu.{IsWritable, message};

use crate::tests::{BODY, octets};
use bac_pdu::{Apdu, Part, announced, read_apdu, write_apdu};
use bac_wire::Frame;
use std::process::Abort;

/// The last of several parts.
const LAST: Option<Part> = Some(Part {
    more: false,
    sequence: 0,
    window: 1,
});

const FIRST: Option<Part> = Some(Part {
    more: true,
    sequence: 255,
    window: 16,
});

/// Returns a request for a property, whose sender accepts APDUs of this code.
fn request(part: Option<Part>, code: u8, body: &[u8]) -> Apdu<'_> {
    Apdu::Confirmed {
        part,
        code,
        id: 1,
        service: 12,
        body,
    }
}

/// Returns the answer to a request for a property.
fn answer(part: Option<Part>, body: &[u8]) -> Apdu<'_> {
    Apdu::ComplexAck {
        part,
        id: 1,
        service: 12,
        body,
    }
}

fn error(body: &[u8]) -> Apdu<'_>
    ensures { IsWritable (message result) }
{
    let (id, service) = (1, 12);
    Apdu::Error { id, service, body }
}

fn abort(server: bool) -> Apdu<'static> {
    let (id, reason) = (1, 4);
    Apdu::Abort { server, id, reason }
}

fn who_is(body: &[u8]) -> Apdu<'_> {
    Apdu::Unconfirmed { service: 8, body }
}

const ACK: Apdu<'static> = Apdu::SimpleAck { id: 1, service: 15 };

const REJECT: Apdu<'static> = Apdu::Reject { id: 1, reason: 9 };

const VALUE: &[u8] = b"\x0c\x00\x00\x00\x05\x19\x55\x3e\x44\x42\x90\x99\x9a\x3f";

/// APDUs, and the octets that are written for them.
fn written() -> [(&'static str, Apdu<'static>); 12] {
    [
        ("0005010c0c000000051955", request(None, 5, &BODY)),
        ("08050100010c", request(LAST, 5, b"")),
        ("10080a03e81a04d2", who_is(b"\x0a\x03\xe8\x1a\x04\xd2")),
        ("20010f", ACK),
        ("30010c0c0000000519553e444290999a3f", answer(None, VALUE)),
        ("380100010c", answer(LAST, b"")),
        ("3c01ff100c00", answer(FIRST, b"\x00")),
        ("50010c91029120", error(b"\x91\x02\x91\x20")),
        ("50010c", error(b"")),
        ("600109", REJECT),
        ("700104", abort(false)),
        ("710104", abort(true)),
    ]
}

/// APDUs, and other octets that are read as these APDUs. The readers ignore all of a SegmentACK; in others the greatest
/// number of segments, the bit for accepting segments, the reserved bits, MOR without SEG, and octets after a
/// SimpleACK, a Reject and an Abort.
fn read_too() -> [(&'static str, Apdu<'static>); 8] {
    [
        ("40010001", Apdu::SegmentAck),
        ("4f", Apdu::SegmentAck),
        ("07ff010c", request(None, 15, b"")),
        ("37010c", answer(None, b"")),
        ("1f08", who_is(b"")),
        ("2f010f0909", ACK),
        ("6f010909", REJECT),
        ("7e010409", abort(false)),
    ]
}

/// APDUs that are cut, and APDUs of unknown kinds.
const UNREADABLE: &str =
    " 00 0005 000501 08050100 0805010001 10 20 2001 30 3001 38010001 50 5001 60 6001 70 7101 \
    80010c000000 90010c000000 a0010c000000 b0010c000000 c0010c000000 d0010c000000 e0010c000000 f0010c000000";

fn is_read<H: Abort + AllocGlobal>(rt: &H, text: &str, apdu: Option<Apdu<'_>>) -> bool {
    read_apdu(octets(rt, text).as_slice()) == apdu
}

fn is_written<H: Abort + AllocGlobal>(rt: &H, text: &str, apdu: Apdu<'_>) -> bool {
    let mut frame = Frame::new();
    let is_full = match apdu {
        Apdu::Confirmed { code: 16.., .. } | Apdu::SegmentAck => true,
        _ => write_apdu(&mut frame, &apdu).is_err(),
    };
    !is_full && frame.as_slice() == octets(rt, text).as_slice()
}

#[test]
fn read_and_written(rt: HostRuntime) {
    for (text, apdu) in &written() {
        assert!(&rt; is_read(&rt, text, Some(*apdu)), "{text}");
        assert!(&rt; is_written(&rt, text, *apdu), "{text}");
    }
    for (text, apdu) in &read_too() {
        assert!(&rt; is_read(&rt, text, Some(*apdu)), "{text}");
    }
    for text in UNREADABLE.split(' ') {
        assert!(&rt; is_read(&rt, text, None), "{text}");
    }
}

/// Codes of the longest APDU, and its octets for each.
static CODES: [u8; 9] = [0, 1, 2, 3, 4, 5, 6, 15, 0xf5];

static SIZES: [u16; 9] = [50, 128, 206, 480, 1024, 1476, 50, 50, 1476];

#[test]
fn a_full_frame_and_announced_sizes(rt: HostRuntime) {
    let mut frame = Frame::new();
    assert!(&rt; frame.append(&[0; 1490]).is_ok());
    assert!(&rt; write_apdu(&mut frame, &error(&[0; 5])).is_err() && frame.len() == 1490);
    assert!(&rt; write_apdu(&mut frame, &error(&[0; 4])).is_ok() && frame.len() == 1497);
    for (code, size) in CODES.iter().zip(&SIZES) {
        assert!(&rt; announced(*code) == *size, "{code}");
    }
}
