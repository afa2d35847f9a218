//! The search for devices, and a serving device, over links in memory.
use super::*;

/// The line that is printed for the device 1234, once and twice.
const LINE: &str = "1234 127.0.0.1:47808 1476 3 260\n";

const TWICE: &str = "1234 127.0.0.1:47808 1476 3 260\n1234 127.0.0.1:47808 1476 3 260\n";

const AT_07: &str = "1234 127.0.0.1:47808/5/07 1476 3 260\n";

/// The devices that are asked for, and the datagram of the Who-Is.
const ALL: (WhoIs, &[u8]) = (WhoIs::All, WHO_IS);

const SOME: &[u8] = b"\x81\x0a\x00\x0e\x01\x00\x10\x08\x0a\x03\xe8\x1a\x04\xd2";

const WHO_IS_ANOTHER: &[u8] = b"\x81\x0a\x00\x0e\x01\x00\x10\x08\x0a\x04\xd3\x1a\x04\xd3";

fn between(low: u32, high: u32) -> WhoIs {
    WhoIs::Range { low, high }
}

/// Returns whether a search has this end over these steps, prints this text, and sends its Who-Is once, or not if the
/// send fails.
fn searches(
    alloc: Global,
    (who, asks): (WhoIs, &[u8]),
    steps: &[Step<'_>],
    fail_send: Option<u32>,
    (answer, text): (Got, &str),
) -> bool {
    let search = Search { who, ..SEARCH };
    let asked = [(0, asks)];
    let sent = asked.get(..usize::from(fail_send.is_none())).unwrap_or(&[]);
    let end = (answer, text, sent);
    ends(alloc, Job::Search(&search), steps, fail_send, end)
}

/// The I-Am of the station 07 of network 5, behind a router.
const FAR: &[u8] =
    b"\x81\x0a\x00\x19\x01\x08\x00\x05\x01\x07\x10\x00\xc4\x02\x00\x04\xd2\x22\x05\xc4\x91\x03\x22\x01\x04";

const HEARD: Step<'static> = Step::Packet(5, CONTROLLER, I_AM);

const LATE: Step<'static> = Step::Packet(3_000, CONTROLLER, I_AM);

/// Returns whether a search without a fault has this end over these steps.
fn finds(alloc: Global, asked: (WhoIs, &[u8]), steps: &[Step<'_>], exit: Exit, text: &str) -> bool {
    searches(alloc, asked, steps, None, (Ok(exit), text))
}

#[test]
fn devices_are_found(rt: HostRuntime) {
    let some = (between(1_000, 1_234), SOME);
    let other = (between(1_235, 1_235), WHO_IS_ANOTHER);
    let far = [Step::Packet(1, CONTROLLER, FAR)];
    assert!(rt; finds(rt.alloc(), some, &[HEARD], Exit::Good, LINE));
    assert!(rt; finds(rt.alloc(), some, &[HEARD, HEARD], Exit::Good, TWICE));
    assert!(rt; finds(rt.alloc(), other, &[HEARD], Exit::Bad, ""));
    assert!(rt; finds(rt.alloc(), some, &far, Exit::Good, AT_07));
}

// A datagram that comes exactly at the end of the time is received; a later one is not. If the clock goes back, the
// time is still over.
#[test]
fn a_search_ends_in_time(rt: HostRuntime) {
    let back = [Step::Quiet(2_999), Step::Quiet(0), HEARD, LATE];
    assert!(rt; finds(rt.alloc(), ALL, &[], Exit::Bad, ""));
    assert!(rt; finds(rt.alloc(), ALL, &[LATE, HEARD], Exit::Good, LINE));
    assert!(rt; finds(rt.alloc(), ALL, &back, Exit::Good, TWICE));
}

#[test]
fn searches_fail(rt: HostRuntime) {
    let unsent = (Err(ToolFault::SendFailed), "");
    assert!(rt; searches(rt.alloc(), ALL, &[HEARD], Some(0), unsent));
    let deaf = (Err(ToolFault::ReceiveFailed), LINE);
    assert!(rt; searches(rt.alloc(), ALL, &[HEARD, Step::Broken], None, deaf));
    let spent = (Err(ToolFault::TurnsSpent), "");
    assert!(rt; searches(rt.alloc(), ALL, quiet(&rt).as_slice(), None, spent));
}

/// Runs the demonstration device over these steps for this many datagrams. Returns whether it has this end and sent
/// these replies to OTHER.
fn serves(
    alloc: Global,
    steps: &[Step<'_>],
    fail: Option<u32>,
    count: u32,
    (answer, sent): (Served, &[(u64, &[u8])]),
) -> bool {
    let Some(mut device) = small_device() else {
        return false;
    };
    let Ok(mut link) = MemoryLink::new(alloc, steps, fail) else {
        return false;
    };
    let got = serve(&mut link, &mut device, count);
    let is_lost = matches!(got, Err(ToolFault::SendFailed | ToolFault::ReceiveFailed));
    got == answer && link.failed() == is_lost && has_sent(&link, OTHER, sent)
}

const ASKED: Step<'static> = Step::Packet(0, OTHER, ASK);

/// Two requests that are answered, and a datagram that is not one.
const COMES: [Step<'static>; 3] = [
    ASKED,
    Step::Packet(0, OTHER, WHO_IS),
    Step::Packet(0, OTHER, &[0]),
];

const REPLIES: &[(u64, &[u8])] = &[(0, VALUE), (0, I_AM)];

#[test]
fn a_device_serves(rt: HostRuntime) {
    assert!(rt; serves(rt.alloc(), &COMES, None, 3, (Ok(2), REPLIES)));
    assert!(rt; serves(rt.alloc(), &[Step::Broken], None, 0, (Ok(0), &[])));
    let spent = (Err(ToolFault::TurnsSpent), [].as_slice());
    assert!(rt; serves(rt.alloc(), quiet(&rt).as_slice(), None, 1, spent));
}

#[test]
fn a_server_fails(rt: HostRuntime) {
    let value = &REPLIES[..1];
    let unsent = (Err(ToolFault::SendFailed), value);
    assert!(rt; serves(rt.alloc(), &COMES, Some(1), 3, unsent));
    let deaf = (Err(ToolFault::ReceiveFailed), value);
    assert!(rt; serves(rt.alloc(), &[ASKED, Step::Broken], None, 3, deaf));
}
