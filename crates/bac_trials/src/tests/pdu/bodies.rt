//! Bodies of services, field by field. Rejects are tested by the scripts.

use crate::tests::{nested, octets};
use bac_pdu::{
    Ack, IAm, ReadRequest, WhoIs, WriteRequest, read_ack, read_iam, read_read, read_whois,
    read_write, write_ack, write_error, write_iam, write_read, write_whois, write_write,
};
use bac_wire::{Frame, ObjectId, is_region};
use bac_work::begin;
use std::test::Fail;

/// Requests to read a property of analog-input 5, the index, and whether the body is the shortest. The last has a
/// property in more octets than needed, and tags in longer forms.
static READS: [(&str, u32, Option<u32>, bool); 6] = [
    ("0c000000051955", 85, None, true),
    ("0c00000005194d", 77, None, true),
    ("0c0000000519552901", 85, Some(1), true),
    ("0c000000051b01000029ff", 65536, Some(255), true),
    ("0c000000051affff2cffffffff", 65535, Some(u32::MAX), true),
    ("fd000400000005fd010200552a0001", 85, Some(1), false),
];

fn is_read(body: &[u8], property: u32, index: Option<u32>, is_shortest: bool) -> Option<bool> {
    let request = ReadRequest {
        object: ObjectId::new(0, 5)?,
        property,
        index,
    };
    let mut frame = Frame::new();
    let is_written = write_read(&mut frame, &request).is_ok();
    let is_same = (frame.as_slice() == body) == is_shortest;
    Some(read_read(body) == Ok(request) && is_written && is_same)
}

/// Answers for the present value of analog-input 5, and their values. The octet of a closing tag is inside a string in
/// one, and inside inner brackets in another.
static ANSWERS: [(&str, Option<u32>, &str); 6] = [
    ("0c0000000519553e444290999a3f", None, "444290999a"),
    ("0c0000000519553e72003f3f", None, "72003f"),
    ("0c0000000519553e0e21050f3f", None, "0e21050f"),
    ("0c0000000519553e3e3f3f", None, "3e3f"),
    ("0c0000000519553e3f", None, ""),
    ("0c00000005195529013e72003f3f", Some(1), "72003f"),
];

fn is_answer(body: &[u8], index: Option<u32>, value: &[u8]) -> Option<bool> {
    let ack = Ack {
        object: ObjectId::new(0, 5)?,
        property: 85,
        index,
        value,
    };
    let mut frame = Frame::new();
    let is_written = is_region(value, &mut begin()) && write_ack(&mut frame, &ack).is_ok();
    Some(read_ack(body, &mut begin()) == Some(ack) && is_written && frame.as_slice() == body)
}

const TWENTY: &str = "0c0040000119553e4441a000003f4910";

/// Orders for the present value of an analog-output: its instance, the value, and the priority.
static ORDERS: [(&str, u32, &str, Option<u8>); 5] = [
    (TWENTY, 1, "4441a00000", Some(16)),
    ("0c0040000119553e4441f000003f4908", 1, "4441f00000", Some(8)),
    ("0c0040000119553e003f4910", 1, "00", Some(16)),
    ("0c0040000219553e72003f3f", 2, "72003f", None),
    ("0c0040000219553e0e3e3f0f3f4901", 2, "0e3e3f0f", Some(1)),
];

fn is_order(body: &[u8], instance: u32, value: &[u8], priority: Option<u8>) -> Option<bool> {
    let order = WriteRequest {
        object: ObjectId::new(1, instance)?,
        property: 85,
        index: None,
        value,
        priority,
    };
    let mut frame = Frame::new();
    let is_written = match priority {
        Some(0 | 17..) => false,
        _ => is_region(value, &mut begin()) && write_write(&mut frame, &order).is_ok(),
    };
    Some(is_written && read_write(body, &mut begin()) == Ok(order) && frame.as_slice() == body)
}

#[test]
fn properties_are_read_answered_and_written(rt: HostRuntime) {
    for (text, property, index, is_shortest) in &READS {
        let body = octets(&rt, text);
        let is_right = is_read(body.as_slice(), *property, *index, *is_shortest);
        assert!(&rt; is_right == Some(true), "{text}");
    }
    for (text, index, value) in &ANSWERS {
        let (body, value) = (octets(&rt, text), octets(&rt, value));
        let is_right = is_answer(body.as_slice(), *index, value.as_slice());
        assert!(&rt; is_right == Some(true), "{text}");
    }
    for (text, instance, value, priority) in &ORDERS {
        let (body, value) = (octets(&rt, text), octets(&rt, value));
        let is_right = is_order(body.as_slice(), *instance, value.as_slice(), *priority);
        assert!(&rt; is_right == Some(true), "{text}");
    }
}

/// Returns the length of the value of an order that consists of this many nested brackets.
fn value_len(depth: usize) -> Option<usize> {
    let mut body = nested(b"\x0c\x00\x40\x00\x01\x19\x55\x3e", depth);
    let _ = body.append(&[0x3f]);
    match read_write(body.as_slice(), &mut begin()) {
        Ok(order) => Some(order.value.len()),
        Err(_) => None,
    }
}

#[test]
fn nested_values(rt: HostRuntime) {
    for (depth, len) in &[(0, 0), (1, 2), (31, 62), (32, 64)] {
        assert!(&rt; value_len(*depth) == Some(*len), "{depth}");
    }
    assert!(&rt; value_len(33).is_none());
}

/// Limits of a Who-Is; those in the wrong order are read too.
static LIMITS: [(&str, u32, u32); 3] = [
    ("09001903", 0, 3),
    ("0a03e81a04d2", 1000, 1234),
    ("0cffffffff1900", u32::MAX, 0),
];

fn are_limits(body: &[u8], low: u32, high: u32) -> bool {
    let who = WhoIs::Range { low, high };
    let mut frame = Frame::new();
    let is_written = write_whois(&mut frame, &who).is_ok() && frame.as_slice() == body;
    read_whois(body) == Some(who) && is_written
}

/// Bodies of a Who-Is that cannot be read, and bodies of an I-Am that cannot: the object is not a device, the body is
/// cut, it has more octets, or a value has another kind.
const NO_LIMITS: &str = "0900 1903 0900190300 09001d050000000000 0801190300";

const NOBODY: &str =
    "c4024004d22205c49103220104 c4020004d22205c491032201 c4020004d22205c4910322010400 c4020004d22205c42103220104";

#[test]
fn limits_and_nobody(rt: HostRuntime) {
    for (text, low, high) in &LIMITS {
        let body = octets(&rt, text);
        assert!(&rt; are_limits(body.as_slice(), *low, *high), "{text}");
    }
    assert!(&rt; read_whois(b"") == Some(WhoIs::All));
    for text in NO_LIMITS.split(' ') {
        let body = octets(&rt, text);
        assert!(&rt; read_whois(body.as_slice()).is_none(), "{text}");
    }
    for text in NOBODY.split(' ') {
        assert!(&rt; read_iam(octets(&rt, text).as_slice()).is_none(), "{text}");
    }
}

#[test]
fn the_device_1234(rt: HostRuntime) -> Result<(), Fail> {
    let i_am = IAm {
        device: ObjectId::new(8, 1234).ok_or("no object")?,
        max_apdu: 1476,
        segmentation: 3,
        vendor: 260,
    };
    let mut frame = Frame::new();
    assert!(&rt; write_iam(&mut frame, &i_am).is_ok() && read_iam(frame.as_slice()) == Some(i_am));
    let body = b"\xc4\x02\x00\x04\xd2\x22\x05\xc4\x91\x03\x22\x01\x04";
    assert!(&rt; frame.as_slice() == body.as_slice());
    Ok(())
}

#[test]
fn limits_and_errors_in_a_frame(rt: HostRuntime) {
    let mut frame = Frame::new();
    assert!(&rt; write_error(&mut frame, 2, 32).is_ok());
    assert!(&rt; frame.as_slice() == [0x91, 2, 0x91, 0x20].as_slice());
    assert!(&rt; write_whois(&mut frame, &WhoIs::All).is_ok() && frame.len() == 4);
    assert!(&rt; frame.append(&[0; 1490]).is_ok());
    assert!(&rt; write_error(&mut frame, 2, 32).is_err() && frame.len() == 1494);
}
