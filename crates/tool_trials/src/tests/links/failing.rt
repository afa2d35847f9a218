//! Writers that fail, and memory that runs out.
use super::*;
use crate::tests::streams::with_room;
use linked_list_allocator::LocalHeap;
use std::alloc::Allocator;

/// Returns whether a writer that accepts this many octets has this beginning of the text, and the tool reports that
/// writing failed.
fn leaves_front(alloc: Global, job: Job<'_>, steps: &[Step<'_>], row: (&str, usize, bool)) -> bool {
    let (text, left, fails) = row;
    let Ok(mut link) = MemoryLink::new(alloc, steps, None) else {
        return false;
    };
    let mut taken = Vec::new(alloc);
    let got = run_job(job, &mut link, with_room(&mut taken, left, fails));
    let is_front = text.as_bytes().get(..left) == Some(taken.as_slice());
    got == Err(ToolFault::WriteFailed) && is_front && !link.failed()
}

fn read_leaves(alloc: Global, left: usize, fails: bool) -> bool {
    let steps = [Step::Packet(5, CONTROLLER, VALUE)];
    let job = call_of(100, 1, BODY);
    leaves_front(alloc, Job::Read(&job), &steps, ("4290999a\n", left, fails))
}

fn search_leaves(alloc: Global, left: usize) -> bool {
    let text = "1234 127.0.0.1:47808 1476 3 260\n1234 127.0.0.1:47808 1476 3 260\n";
    let steps = [Step::Packet(5, CONTROLLER, I_AM); 2];
    leaves_front(alloc, Job::Search(&SEARCH), &steps, (text, left, true))
}

#[test]
fn writes_fail_in_turn(rt: HostRuntime) {
    for left in 0..9 {
        let is_left = read_leaves(rt.alloc(), left, true) && read_leaves(rt.alloc(), left, false);
        assert!(rt; is_left, "{left}");
    }
    for left in 0..64 {
        assert!(rt; search_leaves(rt.alloc(), left), "{left}");
    }
}

/// Runs a read over a link in this memory.
fn read_within<A: Allocator + Copy>(alloc: A, room: &mut [u8]) -> Result<Got, LinkFault> {
    let steps = [Step::Packet(5, CONTROLLER, VALUE)];
    let mut link = MemoryLink::new(alloc, &steps, None)?;
    Ok(run_job(Job::Read(&call_of(100, 1, BODY)), &mut link, room))
}

// With too little memory a link cannot be made, or fails to send.
#[test]
fn memory_is_wanted(rt: HostRuntime) -> Result<(), Fail> {
    let mut refused = false;
    let mut unsent = false;
    let mut size = 16usize;
    for _ in 0..200u32 {
        let heap = LocalHeap::new(rt.alloc(), size)?;
        let mut room = [0xff; 96];
        match read_within(&heap, room.as_mut_slice()) {
            Err(LinkFault) => refused = true,
            Ok(Err(fault)) => {
                assert!(rt; fault == ToolFault::SendFailed && is_text(&room, ""));
                unsent = true;
            }
            Ok(Ok(exit)) => {
                assert!(rt; exit == Exit::Good && refused && unsent);
                return Ok(());
            }
        }
        size = size.saturating_add(16);
    }
    Err("the heap was never large enough")?
}
