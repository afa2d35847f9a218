//! Calls over links in memory.
use super::*;
use bac_wire::Frame;
use bac_work::begin;

/// Answers to a read, the exit, and the line that is printed.
static ANSWERS: [(&str, Exit, &str); 10] = [
    (
        "810a0017010030010c0c0000000519553e444290999a3f",
        Exit::Good,
        "4290999a\n",
    ),
    (
        "810a0015010030010c0c00000005194d3e72003f3f",
        Exit::Good,
        "\"?\"\n",
    ),
    (
        "810a0016010030010c0c0000000519553e0e21050f3f",
        Exit::Good,
        "hex 0e21050f\n",
    ),
    (
        "810a0016010030010c0c0000000519553e444290999a",
        Exit::Bad,
        "bad-ack\n",
    ),
    ("810a0009010020010c", Exit::Bad, "bad-ack\n"),
    ("810a000b0100380100010c", Exit::Bad, "segmented\n"),
    ("810a0009010050010c", Exit::Bad, "bad-error\n"),
    ("810a000d010050010c91029120", Exit::Bad, "error 2 32\n"),
    ("810a00090100600109", Exit::Bad, "reject 9\n"),
    ("810a00090100710104", Exit::Bad, "abort 4\n"),
];

/// Returns whether a read with this answer has this exit and prints this line.
fn is_answered(alloc: Global, answer: &[u8], exit: Exit, text: &str) -> bool {
    let steps = [Step::Packet(5, CONTROLLER, answer)];
    let call = call_of(3_000, 3, BODY);
    let end = (Ok(exit), text, [(0, ASK)].as_slice());
    ends(alloc, Job::Read(&call), &steps, None, end)
}

#[test]
fn answers_are_printed(rt: HostRuntime) {
    for (digits, exit, text) in &ANSWERS {
        let answer = hex::decode(rt.alloc(), digits).expect(&rt, "octets");
        assert!(rt;
            is_answered(rt.alloc(), answer.as_slice(), *exit, text),
            "{text}"
        );
    }
}

/// A write of -5 to analog-value 2 at priority 16.
const WRITE: &[u8] =
    b"\x81\x0a\x00\x17\x01\x04\x00\x05\x01\x0f\x0c\x00\x80\x00\x02\x19\x55\x3e\x31\xfb\x3f\x49\x10";

const WRITE_BODY: &[u8] = b"\x0c\x00\x80\x00\x02\x19\x55\x3e\x31\xfb\x3f\x49\x10";

/// Returns whether a write has this exit over these steps, and prints this line.
fn writes(alloc: Global, steps: &[Step<'_>], exit: Exit, text: &str) -> bool {
    let call = call_of(10, 0, WRITE_BODY);
    let end = (Ok(exit), text, [(0, WRITE)].as_slice());
    ends(alloc, Job::Write(&call), steps, None, end)
}

/// Returns the demonstration device's answer to the write.
fn denied() -> Option<Frame> {
    let mut device = small_device()?;
    let mut frame = Frame::new();
    let to = device.answer(CONTROLLER, WRITE, &mut frame, &mut begin());
    if to != Some(CONTROLLER) {
        return None;
    }
    Some(frame)
}

const SIMPLE: Step<'static> = Step::Packet(5, CONTROLLER, b"\x81\x0a\x00\x09\x01\x00\x20\x01\x0f");

const COMPLEX: Step<'static> = Step::Packet(
    5,
    CONTROLLER,
    b"\x81\x0a\x00\x0a\x01\x00\x30\x01\x0f\x00",
);

// Writes that are answered by the demonstration device, by an acknowledgement of either kind, and not at all.
#[test]
fn a_value_is_written(rt: HostRuntime) {
    let denied = denied().expect(&rt, "an answer");
    let denied = [Step::Packet(5, CONTROLLER, denied.as_slice())];
    assert!(rt; writes(rt.alloc(), &denied, Exit::Bad, "error 2 9\n"));
    assert!(rt; writes(rt.alloc(), &[SIMPLE], Exit::Good, "ok\n"));
    assert!(rt; writes(rt.alloc(), &[COMPLEX], Exit::Bad, "bad-ack\n"));
    assert!(rt; writes(rt.alloc(), &[], Exit::Bad, "timeout\n"));
}

/// Returns whether a read with a timeout of 100 ms and one retry has this end.
fn reads(alloc: Global, steps: &[Step<'_>], fail: Option<u32>, end: End<'_>) -> bool {
    let call = call_of(100, 1, BODY);
    ends(alloc, Job::Read(&call), steps, fail, end)
}

const ONCE: &[(u64, &[u8])] = &[(0, ASK)];

const TWICE: &[(u64, &[u8])] = &[(0, ASK), (100, ASK)];

const LATER: &[(u64, &[u8])] = &[(0, ASK), (120, ASK)];

const LONG: &[u8] = &[0; 2_048];

/// Answers from another peer and to another request, a datagram that is too long, and the answer.
const HEARD: [Step<'static>; 4] = [
    Step::Packet(5, OTHER, VALUE),
    Step::Packet(6, CONTROLLER, LONG),
    Step::Packet(120, CONTROLLER, &[0; 9]),
    Step::Packet(130, CONTROLLER, VALUE),
];

// A datagram that must be ignored is ignored, and the request is sent again in time.
#[test]
fn a_request_is_sent_again(rt: HostRuntime) {
    let silence = (Ok(Exit::Bad), "timeout\n", TWICE);
    assert!(rt; reads(rt.alloc(), &[], None, silence));
    let value = (Ok(Exit::Good), "4290999a\n", LATER);
    assert!(rt; reads(rt.alloc(), &HEARD, None, value));
}

#[test]
fn calls_fail(rt: HostRuntime) {
    let unsent = Err(ToolFault::SendFailed);
    assert!(rt; reads(rt.alloc(), &[], Some(0), (unsent, "", &[])));
    assert!(rt; reads(rt.alloc(), &[], Some(1), (unsent, "", ONCE)));
    for broken in 0..3 {
        let mut steps = [
            Step::Quiet(1),
            Step::Quiet(2),
            Step::Packet(5, CONTROLLER, VALUE),
        ];
        steps[broken] = Step::Broken;
        let deaf = (Err(ToolFault::ReceiveFailed), "", ONCE);
        assert!(rt; reads(rt.alloc(), &steps, None, deaf), "{broken}");
    }
    let spent = (Err(ToolFault::TurnsSpent), "", ONCE);
    assert!(rt; reads(rt.alloc(), quiet(&rt).as_slice(), None, spent));
}
