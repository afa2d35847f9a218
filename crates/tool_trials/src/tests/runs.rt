//! Many requests over links in memory that fail, with readers and writers that fail.
ghost use Rattle.std.specs.Prelude.{◌≡◌, false};

mod unsent;

use super::*;
use crate::tests::I_AM;
use crate::tests::links::quiet;
use crate::tests::streams::{Asked, Progress, printed_after, telling, with_room};
use bac_links::{Link, MemoryLink, Step, ToolFault};
use bac_print::Checked;
use bac_run::{RunFault, Setup, run_requests};
use bac_script::{TraceEnd, TraceFault};
use bac_tsm::Config;
use std::io::{Read, Write};

const LINES: &[u8] = b"read 127.0.0.1:47808 0 5 85\nread 127.0.0.1:47808 0 5 85\n";

/// A bad line, with a request open.
const BAD: &[u8] = b"read 127.0.0.1:47808 0 5 85\nx\nread 127.0.0.1:47808 0 5 85\n";

/// The journal of both lines, if both are answered before any time has passed.
const JOURNAL: &[u8] = b"client 100 0 0\n\
    read 127.0.0.1:47808 0 5 85\n\
    # send 0 127.0.0.1:47808 810a001101040005010c0c000000051955\n\
    data 127.0.0.1:47808 810a0017010030010c0c0000000519553e444290999a3f\n\
    # done 0 value 4290999a\n\
    read 127.0.0.1:47808 0 5 85\n\
    # send 1 127.0.0.1:47808 810a001101040005020c0c000000051955\n\
    data 127.0.0.1:47808 810a0017010030020c0c0000000519553e444290999a3f\n\
    # done 1 value 4290999a\n\
    # end of the run\n";

/// The length of the journal up to each line `# send` and each line `# done`, and up to its end.
const ENDS: [usize; 5] = [103, 195, 283, 375, 392];

const FIRST: Step<'static> = Step::Packet(0, CONTROLLER, VALUE);

/// The answer to the second request.
const SECOND: Step<'static> = Step::Packet(
    0,
    CONTROLLER,
    b"\x81\x0a\x00\x17\x01\x00\x30\x02\x0c\x0c\x00\x00\x00\x05\x19\x55\x3e\x44\x42\x90\x99\x9a\x3f",
);

/// A Who-Is into a network behind a router, a request that stays open, and a wait.
const SEEKING: &[u8] = b"who 127.0.0.1:47808/5\nread 127.0.0.1:47808 0 5 85\nwait 120\n";

/// The journal of these lines: an I-Am comes after 40 ms, the request times out at 100, and at 120 the wait ends.
const SOUGHT: &[u8] = b"client 100 0 0\n\
    # who 127.0.0.1:47808 810a000c0120000500ff1008\n\
    read 127.0.0.1:47808 0 5 85\n\
    # send 0 127.0.0.1:47808 810a001101040005010c0c000000051955\n\
    data 127.0.0.1:47808 810a001501001000c4020004d22205c49103220104\n\
    # drop\n\
    tick 40\n\
    tick 100\n\
    # timeout 0\n\
    tick 120\n\
    # wait 120\n\
    # end of the run\n";

/// The two datagrams that these lines send.
const SOUGHT_BY: &[u8] = b"\x81\x0a\x00\x0c\x01\x20\x00\x05\x00\xff\x10\x08";

const READ: &[u8] = b"\x81\x0a\x00\x11\x01\x04\x00\x05\x01\x0c\x0c\x00\x00\x00\x05\x19\x55";

type Ran = Result<TraceEnd, RunFault>;

const WHOLE: Ran = Ok(TraceEnd { lines: 2 });

/// Makes the requests over the link, this many at a time, with a timeout of 100 ms and no retry.
pub(crate) fn run<L: Link, R: Read + Drop, W: Write + Drop>(
    window: usize,
    link: &mut L,
    reader: R,
    writer: W,
) -> Option<Ran>
    requires { L.has_failed link.old ≡ false }
{
    run_again(0, window, link, reader, writer)
}

/// Makes the requests over the link, with this many retries, this many at a time, with a timeout of 100 ms.
fn run_again<L: Link, R: Read + Drop, W: Write + Drop>(
    retries: u8,
    window: usize,
    link: &mut L,
    reader: R,
    writer: W,
) -> Option<Ran>
    requires { L.has_failed link.old ≡ false }
{
    let setup = Setup::new(Config::new(100, retries)?, window)?;
    let mut reader = Checked::new(reader);
    let mut writer = Checked::new(writer);
    Some(run_requests(setup, link, &mut reader, &mut writer))
}

/// Returns whether a run of these lines has this end over these steps, with this much of the journal.
fn ends(
    alloc: Global,
    (window, lines): (usize, &[u8]),
    steps: &[Step<'_>],
    (answer, length): (Ran, usize),
) -> bool {
    let Ok(mut link) = MemoryLink::new(alloc, steps, None) else {
        return false;
    };
    let mut taken = Vec::new(alloc);
    let got = run(
        window,
        &mut link,
        lines,
        with_room(&mut taken, usize::MAX, true),
    );
    got == Some(answer) && JOURNAL.get(..length) == Some(taken.as_slice())
}

const fn at_link(fault: ToolFault) -> Ran {
    Err(RunFault::Link(fault))
}

// The journal has all that was done before a link failed. If the wait at a bad line fails, that fault is reported.
#[test]
fn links_fail(rt: HostRuntime) {
    let silence = quiet(&rt);
    let (one, two) = ((1, LINES), (2, BAD));
    let unheard = at_link(ToolFault::ReceiveFailed);
    let spent = at_link(ToolFault::TurnsSpent);
    let bad = Err(RunFault::Script(TraceFault::BadLine(2)));
    let [sent, done, sent_next, _, ended] = ENDS;
    assert!(rt; ends(rt.alloc(), one, &[FIRST, SECOND], (WHOLE, ended)));
    assert!(rt; ends(rt.alloc(), one, &[Step::Broken], (unheard, sent)));
    assert!(rt;
        ends(
            rt.alloc(),
            one,
            &[FIRST, Step::Broken],
            (unheard, sent_next)
        )
    );
    assert!(rt; ends(rt.alloc(), one, silence.as_slice(), (spent, sent)));
    assert!(rt; ends(rt.alloc(), two, &[FIRST], (bad, done)));
    assert!(rt; ends(rt.alloc(), two, &[Step::Broken], (unheard, sent)));
    assert!(rt; ends(rt.alloc(), two, silence.as_slice(), (spent, sent)));
}

/// Returns whether each datagram of these lines is sent once, in their order, and the wait goes on with the open
/// request.
fn seeks(alloc: Global) -> bool {
    let steps = [
        Step::Packet(40, CONTROLLER, I_AM),
        Step::Quiet(100),
        Step::Quiet(100),
        Step::Quiet(120),
        Step::Quiet(120),
    ];
    let Ok(mut link) = MemoryLink::new(alloc, &steps, None) else {
        return false;
    };
    let mut taken = Vec::new(alloc);
    let got = run(
        2,
        &mut link,
        SEEKING,
        with_room(&mut taken, usize::MAX, true),
    );
    got == Some(Ok(TraceEnd { lines: 3 }))
        && taken.as_slice() == SOUGHT
        && link.sent(0) == Some((0, CONTROLLER, SOUGHT_BY))
        && link.sent(1) == Some((0, CONTROLLER, READ))
        && link.sent(2).is_none()
}

#[test]
fn who_is_sent_and_waited_for(rt: HostRuntime) {
    assert!(rt; seeks(rt.alloc()));
}

/// Returns whether a write is not sent if the writer fails after this many octets, before the line of the write.
fn writes_nothing(alloc: Global, left: usize) -> bool {
    let line = b"write 127.0.0.1:47808 1 1 85 8 -1 4 41a00000\n";
    let Ok(mut link) = MemoryLink::new(alloc, &[], None) else {
        return false;
    };
    let mut taken = Vec::new(alloc);
    let got = run(
        1,
        &mut link,
        line.as_slice(),
        with_room(&mut taken, left, true),
    );
    got == Some(Err(RunFault::Script(TraceFault::WriteFailed)))
        && JOURNAL.get(..left) == Some(taken.as_slice())
        && link.sent(0).is_none()
}

#[test]
fn unrecorded_writes_are_not_sent(rt: HostRuntime) {
    for left in 0..15 {
        assert!(rt; writes_nothing(rt.alloc(), left), "after {left}");
    }
}

/// Returns whether a writer that accepts this many octets has this beginning of the journal, and the run reports that
/// writing failed.
fn leaves_front(alloc: Global, left: usize, fails: bool) -> bool {
    let Ok(mut link) = MemoryLink::new(alloc, &[FIRST, SECOND], None) else {
        return false;
    };
    let mut taken = Vec::new(alloc);
    let got = run(1, &mut link, LINES, with_room(&mut taken, left, fails));
    got == Some(Err(RunFault::Script(TraceFault::WriteFailed)))
        && JOURNAL.get(..left) == Some(taken.as_slice())
        && !link.failed()
}

#[test]
fn writes_fail_in_turn(rt: HostRuntime) {
    for left in 0..JOURNAL.len() {
        for fails in &[true, false] {
            assert!(rt; leaves_front(rt.alloc(), left, *fails), "after {left}");
        }
    }
}

/// Returns whether a reader that gives one octet at a time, and fails at the read with this number, is not read again;
/// before each read the journal of the lines so far is written.
fn fails_at(alloc: Global, read: usize, answer: Ran) -> bool {
    let printed = [(0, 15), (28, 195), (56, 375)];
    let whole = if answer == WHOLE {
        JOURNAL.len()
    } else {
        printed_after(&printed, read)
    };
    let progress = Progress::default();
    let reader = Asked {
        progress: &progress,
        script: LINES,
        ends: &printed,
        fails_at: read,
    };
    let writer = telling(&progress, JOURNAL, usize::MAX, false);
    let Ok(mut link) = MemoryLink::new(alloc, &[FIRST, SECOND], None) else {
        return false;
    };
    let got = run(1, &mut link, reader, writer);
    let is_read = progress.reads.get() == read.min(LINES.len()).saturating_add(1);
    let is_written = progress.written.get() == whole;
    got == Some(answer) && !progress.is_wrong.get() && is_read && is_written
}

#[test]
fn reads_fail_in_turn(rt: HostRuntime) {
    let unread = Err(RunFault::Script(TraceFault::ReadFailed));
    for read in 0..=LINES.len() {
        assert!(rt; fails_at(rt.alloc(), read, unread), "at {read}");
    }
    assert!(rt; fails_at(rt.alloc(), usize::MAX, WHOLE));
}
