//! Searches, devices, many requests and scripts.
use super::*;
use bac_device::demo;
use bac_pdu::WhoIs;
use bac_wire::Frame;
use bac_work::begin;

/// Words that ask for a search, and the limits of the devices, if there are any.
static SEARCHES: [(&str, Option<(u32, u32)>); 4] = [
    (
        "bactool bacwi 1000 1234 --mac 127.0.0.1",
        Some((1000, 1234)),
    ),
    ("bactool bacwi 1235 --mac 127.0.0.1", Some((1235, 1235))),
    ("bactool bacwi --mac 127.0.0.1", None),
    ("bactool bacwi --mac 127.0.0.1 5 3", Some((5, 3))),
];

const SET: &str = "bactool bacwi --mac 127.0.0.1 --apdu-timeout 60000 --port 47808";

/// Returns whether the words ask for a search at 127.0.0.1 for these devices, with this timeout and port.
fn searches(alloc: Global, line: &str, limits: Option<(u32, u32)>, set: (u32, u16)) -> bool {
    let Ok(Job::Use(Tool::WhoIs(search))) = parse(alloc, line) else {
        return false;
    };
    let who = match limits {
        Some((low, high)) => WhoIs::Range { low, high },
        None => WhoIs::All,
    };
    let is_set = (search.timeout, search.port) == set;
    search.who == who && search.to.ip == LOCALHOST && is_set
}

#[test]
fn searches_for_devices(rt: HostRuntime) {
    for (line, limits) in &SEARCHES {
        assert!(rt; searches(rt.alloc(), line, *limits, (3_000, 0)), "{line}");
    }
    assert!(rt; searches(rt.alloc(), SET, None, (60_000, 47_808)));
}

/// Returns whether the words ask for a device at this port, for this many datagrams, which answers a Who-Is for 1000 to
/// 1234 with these digits.
fn plays(alloc: Global, line: &str, set: (u16, u32), digits: &str) -> bool {
    let Ok(Job::Use(Tool::Device(serve))) = parse(alloc, line) else {
        return false;
    };
    let is_set = (serve.port, serve.count) == set;
    let mut reply = Frame::new();
    let who_is = b"\x81\x0a\x00\x0e\x01\x00\x10\x08\x0a\x03\xe8\x1a\x04\xd2";
    let _ = demo(serve.info).answer(OTHER, who_is, &mut reply, &mut begin());
    is_set && are_digits(alloc, reply.as_slice(), digits)
}

#[test]
fn devices_and_a_trace(rt: HostRuntime) {
    let i_am = "810a001501001000c4020004d22205c49103220104";
    assert!(rt; plays(rt.alloc(), "bactool bacdev 1234", (47_808, 65_535), i_am));
    let last = "bactool bacdev 4194302 --port 1 --count 1";
    assert!(rt; plays(rt.alloc(), last, (1, 1), ""));
    assert!(rt; matches!(parse(rt.alloc(), "bactool bactrace"), Ok(Job::Trace)));
}

/// Returns whether the words ask for many requests with this timeout, these retries, this port and this window.
fn batches(alloc: Global, line: &str, set: (u32, u8, u16, u32)) -> bool {
    let Ok(Job::Run(batch)) = parse(alloc, line) else {
        return false;
    };
    (batch.timeout, batch.retries, batch.port, batch.window) == set
}

#[test]
fn many_requests(rt: HostRuntime) {
    assert!(rt; batches(rt.alloc(), "bactool bacrun", (3_000, 3, 0, 1)));
    let set = "bactool bacrun --window 64 --apdu-timeout 60000 --apdu-retries 0 --port 47808";
    assert!(rt; batches(rt.alloc(), set, (60_000, 0, 47_808, 64)));
}
