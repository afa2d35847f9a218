//! Datagrams of a run that the system refuses: each is lost, a remark says so, and the run goes on.

use super::*;
use bac_device::{Device, DeviceInfo, demo};
use bac_links::{Datagram, LinkFault, OnRefusal, Sockets, UdpLink, serve};
use std::test::Fail;

/// A line, and one more to the same device.
const LINE: &[u8] = b"read 127.0.0.1:47808 0 5 85\n";

/// The journal of the line if its first datagram is refused and the second is answered.
const AGAIN: &[u8] = b"client 100 1 0\n\
    read 127.0.0.1:47808 0 5 85\n\
    # send 0 127.0.0.1:47808 810a001101040005010c0c000000051955\n\
    # unsent 127.0.0.1:47808 810a001101040005010c0c000000051955\n\
    tick 100\n\
    # send 0 127.0.0.1:47808 810a001101040005010c0c000000051955\n\
    data 127.0.0.1:47808 810a0017010030010c0c0000000519553e444290999a3f\n\
    # done 0 value 4290999a\n\
    # end of the run\n";

/// The journal of two lines that are open together, without any answer, if the third of four datagrams is refused.
const BOTH: &[u8] = b"client 100 1 0\n\
    read 127.0.0.1:47808 0 5 85\n\
    # send 0 127.0.0.1:47808 810a001101040005010c0c000000051955\n\
    read 127.0.0.1:47808 0 5 85\n\
    # send 1 127.0.0.1:47808 810a001101040005020c0c000000051955\n\
    tick 100\n\
    # send 0 127.0.0.1:47808 810a001101040005010c0c000000051955\n\
    # send 1 127.0.0.1:47808 810a001101040005020c0c000000051955\n\
    # unsent 127.0.0.1:47808 810a001101040005010c0c000000051955\n\
    tick 200\n\
    # timeout 0\n\
    # timeout 1\n\
    # end of the run\n";

/// The request of the second line.
const READ_NEXT: &[u8] = b"\x81\x0a\x00\x11\x01\x04\x00\x05\x02\x0c\x0c\x00\x00\x00\x05\x19\x55";

const SEEK: &[u8] = b"who 127.0.0.1:47808/5\n";

/// The journal of a Who-Is that is refused.
const UNSOUGHT: &[u8] = b"client 100 1 0\n\
    # who 127.0.0.1:47808 810a000c0120000500ff1008\n\
    # unsent 127.0.0.1:47808 810a000c0120000500ff1008\n\
    # end of the run\n";

/// Returns whether a run of these lines, with one retry and two requests open at most, ends well after this many lines
/// with this journal and these sends, if the link refuses the datagram with this number.
fn goes_on(
    alloc: Global,
    (lines, count): (&[u8], u64),
    (steps, refused): (&[Step<'_>], u32),
    (journal, sent): (&[u8], &[(u64, &[u8])]),
) -> bool {
    let Ok(mut link) = MemoryLink::new(alloc, steps, Some(refused)) else {
        return false;
    };
    let mut taken = Vec::new(alloc);
    let writer = with_room(&mut taken, usize::MAX, true);
    let got = run_again(1, 2, &mut link, lines, writer);
    for (n, (time, datagram)) in sent.iter().enumerate() {
        if link.sent(n) != Some((*time, CONTROLLER, *datagram)) {
            return false;
        }
    }
    got == Some(Ok(TraceEnd { lines: count }))
        && taken.as_slice() == journal
        && link.sent(sent.len()).is_none()
        && !link.failed()
}

// A request that is refused is sent again at its timeout.
#[test]
fn refused_requests_are_sent_again(rt: HostRuntime) {
    let answered = [
        Step::Quiet(100),
        Step::Quiet(100),
        Step::Packet(100, CONTROLLER, VALUE),
    ];
    let once: [(u64, &[u8]); 1] = [(100, READ)];
    assert!(rt; goes_on(rt.alloc(), (LINE, 1), (&answered, 0), (AGAIN, &once)));
}

// The other datagrams that are due are sent.
#[test]
fn datagrams_after_a_refused_one_are_sent(rt: HostRuntime) {
    let silent = [
        Step::Quiet(100),
        Step::Quiet(100),
        Step::Quiet(200),
        Step::Quiet(200),
    ];
    let three: [(u64, &[u8]); 3] = [(0, READ), (0, READ_NEXT), (100, READ_NEXT)];
    assert!(rt; goes_on(rt.alloc(), (LINES, 2), (&silent, 2), (BOTH, &three)));
}

// A Who-Is that is refused is not sent again.
#[test]
fn a_refused_who_is_is_lost(rt: HostRuntime) {
    assert!(rt; goes_on(rt.alloc(), (SEEK, 1), (&[], 0), (UNSOUGHT, &[])));
}

/// A link, and a device that answers each datagram at once that the link could send.
#[derive(Drop)]
struct Answering<L: Drop, M: Drop> {
    link: L,
    field: M,
    device: Device,
}

impl<L: Link + Drop, M: Link + Drop> Link for Answering<L, M> {
    ghost Origin = { L.Origin };

    ghost seen = { λ answering. L.seen answering.link };

    ghost has_failed = { λ answering. L.has_failed answering.link };

    fn send(&mut self, to: Peer, octets: &[u8]) -> Result<(), LinkFault> {
        self.link.send(to, octets)
    }

    fn offer(&mut self, to: Peer, octets: &[u8]) -> bool {
        let is_taken = self.link.offer(to, octets);
        if is_taken && !self.field.failed() {
            let _ = serve(&mut self.field, &mut self.device, 1);
        }
        is_taken
    }

    fn receive(&mut self, wait: u32, datagram: &mut Datagram) -> Result<Option<Peer>, LinkFault> {
        self.link.receive(wait, datagram)
    }

    fn now(&mut self) -> u64 {
        self.link.now()
    }

    fn failed(&self) -> bool {
        self.link.failed()
    }
}

/// A line to port 0, to which nothing can be sent, and a line to the device.
const NOWHERE: &[u8] = b"read 127.0.0.1:0 0 5 85\nread 127.0.0.1:47819 0 5 85\n";

/// Their journal without the times.
const JOURNAL_OF_BOTH: &str = "client 100 0 0\n\
    read 127.0.0.1:0 0 5 85\n\
    # send 0 127.0.0.1:0 810a001101040005010c0c000000051955\n\
    # unsent 127.0.0.1:0 810a001101040005010c0c000000051955\n\
    # timeout 0\n\
    read 127.0.0.1:47819 0 5 85\n\
    # send 1 127.0.0.1:47819 810a001101040005020c0c000000051955\n\
    data 127.0.0.1:47819 810a0017010030020c0c0000000519553e444290999a3f\n\
    # done 1 value 4290999a\n\
    # end of the run\n";

/// Returns whether the journal has these lines, apart from its times.
fn has_lines(journal: &str, lines: &str) -> bool {
    let mut left = lines.split('\n');
    for line in journal.split('\n') {
        if !line.starts_with("tick ") && left.next() != Some(line) {
            return false;
        }
    }
    left.next().is_none()
}

// A line after one that the system refuses to send is answered.
#[test]
fn lines_after_a_refused_one_are_answered(rt: HostRuntime) -> Result<(), Fail> {
    let server = Peer {
        port: 47_819,
        ..CONTROLLER
    };
    let client = Peer {
        port: 47_820,
        ..CONTROLLER
    };
    let sockets = Sockets::new(rt.clone()?, rt.alloc());
    let mut link = Answering {
        link: UdpLink::bind_with(sockets, client, OnRefusal::IsLost)?,
        field: UdpLink::bind(&rt, rt.alloc(), server)?,
        device: demo(DeviceInfo::new(1_234, "Small device").ok_or("no device")?),
    };
    let mut taken = Vec::new(rt.alloc());
    let writer = with_room(&mut taken, usize::MAX, true);
    assert!(rt; run(1, &mut link, NOWHERE, writer) == Some(WHOLE));
    let journal = str::from_utf8(taken.as_slice()).ok();
    assert!(rt; matches!(journal, Some(text) if has_lines(text, JOURNAL_OF_BOTH)));
    Ok(())
}
