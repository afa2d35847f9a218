//! Words that give no job.
use super::*;

// Whichever allocation fails, the answer is the job or `Memory` (rt try --test --fail-alloc N).
#[test]
fn memory_is_told(rt: HostRuntime) {
    let line = "bactool bacwp 1234 2 2 85 16 -1 3 -5 --mac 127.0.0.1";
    let answer = parse(rt.alloc(), line);
    assert!(rt;
        matches!(
            answer,
            Ok(Job::Use(Tool::Write(_))) | Err(UsageFault::Memory)
        )
    );
    let refused = parse(rt.alloc(), "bactool bacrp x");
    assert!(rt; matches!(refused, Err(UsageFault::Words(_) | UsageFault::Memory)));
}

// A space is not a part of a peer.
#[test]
fn a_peer_with_a_space(rt: HostRuntime) {
    let words = ["bactool", "bacwi", "--mac", "127.0.0.1 "];
    let answer = parse_words(rt.alloc(), &words);
    assert!(rt; matches!(answer, Err(UsageFault::BadMac | UsageFault::Memory)));
}
