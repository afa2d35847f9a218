//! The output before a tool waits, and how often it reads the time.
ghost use Rattle.std.specs.Prelude.{◌≡◌, false, IfOk, List};
ghost use Rattle.bac_links.specs.Played.{Scene};

use super::*;
use crate::tests::runs::run;
use crate::tests::streams::{Progress, telling};
use bac_links::Datagram;
use std::cell::Cell;

/// A link that notes at each receive how long it waits, and at each receive and each send how many octets were written
/// before it. It counts how often the time is read.
#[derive(Drop)]
struct Watching<'a> {
    link: MemoryLink,
    written: &'a Cell<usize>,
    before: Vec<usize>,
    before_sends: Vec<usize>,
    waits: Vec<u32>,
    asked: u32,
}

type Watched<'a> = Result<Watching<'a>, LinkFault>;

/// Returns a watching link with these steps.
fn watch<'a>(alloc: Global, steps: &[Step<'_>], written: &'a Cell<usize>) -> Watched<'a>
    ensures { IfOk result (λ watching. ⟦<MemoryLink as Link>⟧.has_failed watching.link ≡ false) }
{
    Ok(Watching {
        link: MemoryLink::new(alloc, steps, None)?,
        written,
        before: Vec::new(alloc),
        before_sends: Vec::new(alloc),
        waits: Vec::new(alloc),
        asked: 0,
    })
}

impl Link for Watching<'_> {
    ghost Origin = { List Scene };

    ghost seen = { λ watching. ⟦<MemoryLink as Link>⟧.seen watching.link };

    ghost has_failed = { λ watching. ⟦<MemoryLink as Link>⟧.has_failed watching.link };

    fn send(&mut self, to: Peer, octets: &[u8]) -> Result<(), LinkFault> {
        let _ = self.before_sends.push(self.written.get());
        self.link.send(to, octets)
    }

    fn offer(&mut self, to: Peer, octets: &[u8]) -> bool {
        let _ = self.before_sends.push(self.written.get());
        self.link.offer(to, octets)
    }

    fn receive(&mut self, wait: u32, datagram: &mut Datagram) -> Result<Option<Peer>, LinkFault> {
        let _ = self.before.push(self.written.get());
        let _ = self.waits.push(wait);
        self.link.receive(wait, datagram)
    }

    fn now(&mut self) -> u64 {
        self.asked = self.asked.saturating_add(1);
        self.link.now()
    }

    fn failed(&self) -> bool {
        self.link.failed()
    }
}

const LINES: &[u8] =
    b"1234 127.0.0.1:47808 1476 3 260\n1234 127.0.0.1:47808 1476 3 260\n1234 127.0.0.1:47808 1476 3 260\n";

// Each line of 32 octets is written before the next wait, and each turn reads the time once.
#[test]
fn lines_go_out_before_the_next_wait(rt: HostRuntime) {
    let heard = Step::Packet(5, CONTROLLER, I_AM);
    let steps = [heard, Step::Quiet(6), heard, heard, Step::Quiet(3_000)];
    let progress = Progress::default();
    let mut link = watch(rt.alloc(), &steps, &progress.written).expect(&rt, "a link");
    let writer = telling(&progress, LINES, usize::MAX, false);
    assert!(rt; run_job(Job::Search(&SEARCH), &mut link, writer) == Ok(Exit::Good));
    assert!(rt; link.before.as_slice() == [0, 32, 32, 64, 96].as_slice() && link.asked == 6);
    assert!(rt; !progress.is_wrong.get());
}

/// A read and two writes.
const REQUESTS: &[u8] = b"read 127.0.0.1:47808 0 5 85\n\
    write 127.0.0.1:47808 1 1 85 8 -1 4 41a00000\n\
    write 127.0.0.1:47808 1 1 85 8 -1 4 41a00000\n";

/// The journal of these requests up to the last send. Its lines have 15, 28, 60, 45, 78, 45 and 78 octets.
const JOURNAL: &[u8] = b"client 100 0 0\n\
    read 127.0.0.1:47808 0 5 85\n\
    # send 0 127.0.0.1:47808 810a001101040005010c0c000000051955\n\
    write 127.0.0.1:47808 1 1 85 8 -1 4 41a00000\n\
    # send 1 127.0.0.1:47808 810a001a01040005020f0c0040000119553e4441a000003f4908\n\
    write 127.0.0.1:47808 1 1 85 8 -1 4 41a00000\n\
    # send 2 127.0.0.1:47808 810a001a01040005030f0c0040000119553e4441a000003f4908\n";

// Before the read only the lines before it are written; before each write the journal up to its line is written.
#[test]
fn lines_of_writes_go_out_before_they_are_sent(rt: HostRuntime) {
    let progress = Progress::default();
    let mut link = watch(rt.alloc(), &[Step::Broken], &progress.written).expect(&rt, "a link");
    let writer = telling(&progress, JOURNAL, usize::MAX, false);
    assert!(rt; run(3, &mut link, REQUESTS, writer).is_some());
    assert!(rt; link.before_sends.as_slice() == [15, 148, 271].as_slice());
    assert!(rt; !progress.is_wrong.get());
}

/// Returns whether a read with this timeout waits this long at each of two receives, and reads the time at its
/// beginning and after the first.
fn reads_waiting(alloc: Global, timeout: u32, wait: u32) -> bool {
    let written = Cell::new(0);
    let steps = [Step::Quiet(1), Step::Packet(5, CONTROLLER, VALUE)];
    let Ok(mut link) = watch(alloc, &steps, &written) else {
        return false;
    };
    let call = call_of(timeout, 3, BODY);
    let got = run_job(Job::Read(&call), &mut link, [0; 9].as_mut_slice());
    got == Ok(Exit::Good) && link.waits.as_slice() == [wait, wait].as_slice() && link.asked == 2
}

/// Returns whether a device waits this long at each of two receives.
fn serves_waiting(alloc: Global, wait: u32) -> bool {
    let written = Cell::new(0);
    let steps = [Step::Quiet(1_000), Step::Packet(1_500, OTHER, ASK)];
    let (Some(mut device), Ok(mut link)) = (small_device(), watch(alloc, &steps, &written)) else {
        return false;
    };
    let got = serve(&mut link, &mut device, 1);
    got == Ok(1) && link.waits.as_slice() == [wait, wait].as_slice()
}

// A call waits for 50 ms at a time, or for its timeout if that is shorter, and a device for a second.
#[test]
fn waits(rt: HostRuntime) {
    for (timeout, wait) in &[(3_000, 50), (51, 50), (10, 10)] {
        assert!(rt; reads_waiting(rt.alloc(), *timeout, *wait), "{timeout}");
    }
    assert!(rt; serves_waiting(rt.alloc(), 1_000));
}
