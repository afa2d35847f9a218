//! A frame at its limit, tags, and regions. Values, and octets that spell no value, are in tests/program/rows.

use crate::tests::{nested, octets};
use bac_wire::{Frame, Shape, Tag, Value, is_region, read_tag, region, write_tag, write_value};
use bac_work::begin;

/// The number of octets that are appended in turn, whether there is room for them, and the length of the frame then.
static APPENDED: [(usize, bool, usize); 5] = [
    (1496, true, 1496),
    (2, false, 1496),
    (1, true, 1497),
    (0, true, 1497),
    (1, false, 1497),
];

fn is_appended(frame: &mut Frame, count: usize, fits: bool, len: usize) -> bool {
    let octets = [7; 1497].get(..count).unwrap_or(&[]);
    frame.append(octets).is_ok() == fits && frame.len() == len
}

#[test]
fn a_frame_is_filled_cut_and_cleared(rt: HostRuntime) {
    let mut frame = Frame::new();
    assert!(&rt; frame.is_empty());
    for (count, fits, len) in &APPENDED {
        assert!(&rt; is_appended(&mut frame, *count, *fits, *len), "{count}");
    }
    assert!(&rt; frame.as_slice() == [7; 1497].as_slice());
    frame.clear();
    assert!(&rt; frame.is_empty() && frame.append(&[1, 2, 3]).is_ok() && frame.len() == 3);
    frame.truncate(2);
    assert!(&rt; frame.as_slice() == [1, 2].as_slice());
    frame.clear();
    assert!(&rt; frame.is_empty());
}

/// Returns whether a frame has a string of this many octets after this beginning, or is empty if there is no room.
fn is_written(count: usize, front: &[u8]) -> bool {
    let mut frame = Frame::new();
    let octets = [0; 1494].get(..count).unwrap_or(&[]);
    if write_value(&mut frame, &Value::Octets(octets)).is_err() {
        return front.is_empty() && frame.is_empty();
    }
    let len = front.len().wrapping_add(count);
    frame.len() == len && frame.as_slice().starts_with(front) && !front.is_empty()
}

#[test]
fn the_longest_string_and_values_that_can_not_be_spelled(rt: HostRuntime) {
    assert!(&rt; is_written(1493, b"\x65\xfe\x05\xd5") && is_written(1494, b""));
    assert!(&rt; !Value::Bits(8, &[0]).sound() && !Value::Bits(1, &[]).sound());
    assert!(&rt; Value::Bits(0, &[]).sound());
}

/// Octets, and the number and the shape of the tag that they spell.
static TAGS: [(&str, u8, Shape); 4] = [
    ("f914", 20, Shape::Context(1)),
    ("f905", 5, Shape::Context(1)),
    ("3e", 3, Shape::Opening),
    ("3f", 3, Shape::Closing),
];

fn tag_of(spelled: &[u8]) -> Option<(u8, Shape)> {
    match read_tag(spelled) {
        Some((tag, size)) if size == spelled.len() => Some((tag.number, tag.shape)),
        _ => None,
    }
}

#[test]
fn tags(rt: HostRuntime) {
    for (text, number, shape) in &TAGS {
        let tag = tag_of(octets(&rt, text).as_slice());
        assert!(&rt; tag == Some((*number, *shape)), "{text}");
    }
    for text in &["f9ff", "0605", "06"] {
        assert!(&rt; read_tag(octets(&rt, text).as_slice()).is_none(), "{text}");
    }
    let mut frame = Frame::new();
    let (number, shape) = (20, Shape::Context(1));
    assert!(&rt; write_tag(&mut frame, Tag { number, shape }).is_ok());
    assert!(&rt; frame.as_slice() == [0xf9, 0x14].as_slice());
}

/// Octets, how many of them are whole items before a closing tag 3, and whether they are all whole items.
static REGIONS: [(&str, Option<usize>, bool); 8] = [
    ("3f", Some(0), false),
    ("003f", Some(1), false),
    ("72003f3f", Some(3), false),
    ("00", None, true),
    ("44003f", None, false),
    ("", None, true),
    ("000e21050f", None, true),
    ("0e3f", None, false),
];

/// Returns whether this many nested brackets are whole items, and how many octets come before a closing tag 3 after
/// them.
fn ends_nested(depth: usize) -> (bool, Option<usize>) {
    let mut frame = nested(b"", depth);
    let is_whole = is_region(frame.as_slice(), &mut begin());
    let _ = frame.append(&[0x3f]);
    (is_whole, region(frame.as_slice(), &mut begin()))
}

#[test]
fn regions_and_nesting(rt: HostRuntime) {
    for (text, end, is_whole) in &REGIONS {
        let part = octets(&rt, text);
        assert!(&rt; region(part.as_slice(), &mut begin()) == *end, "{text}");
        assert!(&rt;
            is_region(part.as_slice(), &mut begin()) == *is_whole,
            "{text}"
        );
    }
    assert!(&rt; ends_nested(32) == (true, Some(64)) && ends_nested(33) == (false, None));
}
