//! Datagrams that are offered to a link: one that is refused is lost, and the link goes on.
ghost use Rattle.std.specs.Prelude.{◌≡◌, false, OnOk};

use super::sockets::{Way, hears};
use super::*;
use bac_links::{Datagram, OnRefusal, Sockets, UdpLink};
use linked_list_allocator::LocalHeap;
use std::alloc::Allocator;

// The offer with the number of the link is refused and not recorded. All sends after it are taken.
#[test]
fn one_of_four_is_refused(rt: HostRuntime) -> Result<(), Fail> {
    let mut link = MemoryLink::new(rt.alloc(), &[Step::Quiet(7)], Some(1))?;
    assert!(rt; link.offer(CONTROLLER, ASK));
    assert!(rt; !link.offer(CONTROLLER, VALUE) && !link.failed());
    assert!(rt; has_sent(&link, CONTROLLER, &[(0, ASK)]));
    assert!(rt; link.receive(50, &mut Datagram::new())?.is_none());
    assert!(rt; link.offer(CONTROLLER, WHO_IS));
    link.send(CONTROLLER, ASK)?;
    assert!(rt; !link.failed());
    assert!(rt; has_sent(&link, CONTROLLER, &[(0, ASK), (7, WHO_IS), (7, ASK)]));
    Ok(())
}

/// Offers a datagram to a link in this memory, and returns whether it was taken and whether the link has failed.
fn offered_within<A: Allocator + Copy>(alloc: A) -> Result<(bool, bool), LinkFault> {
    let mut link = MemoryLink::new(alloc, &[Step::Quiet(0)], None)?;
    let is_taken = link.offer(CONTROLLER, ASK);
    Ok((is_taken, link.failed()))
}

// With too little memory for its record an offer is refused.
#[test]
fn an_offer_needs_memory(rt: HostRuntime) -> Result<(), Fail> {
    let mut refused = false;
    let mut size = 16usize;
    for _ in 0..200u32 {
        let heap = LocalHeap::new(rt.alloc(), size)?;
        if let Ok((is_taken, has_failed)) = offered_within(&heap) {
            assert!(rt; !has_failed);
            if is_taken {
                assert!(rt; refused);
                return Ok(());
            }
            refused = true;
        }
        size = size.saturating_add(16);
    }
    Err("the heap was never large enough")?
}

/// Returns whether an offer to port 0 is refused, and the next one arrives at the other link.
fn loses_one<L: Link>(near: &mut L, far: &mut L, way: Way) -> Is
    requires { (L.has_failed near.old ≡ false) × (L.has_failed far.old ≡ false) }
    ensures { OnOk result ((L.has_failed near.new ≡ false) × (L.has_failed far.new ≡ false)) }
{
    let is_taken = near.offer(Peer { port: 0, ..way.1 }, ASK);
    let goes_on = !near.failed() && near.offer(way.1, VALUE);
    Ok(!is_taken && goes_on && hears(far, way.0, VALUE)?)
}

// A socket that is refused a datagram goes on, and says that it was refused, even if it counts refused ones as lost.
#[test]
fn a_refused_offer_is_lost(rt: HostRuntime) -> Result<(), Fail> {
    let here = Peer {
        port: 47_817,
        ..CONTROLLER
    };
    let there = Peer {
        port: 47_818,
        ..CONTROLLER
    };
    let mut near = UdpLink::bind(&rt, rt.alloc(), here)?;
    let sockets = Sockets::new(rt.clone()?, rt.alloc());
    let mut far = UdpLink::bind_with(sockets, there, OnRefusal::IsLost)?;
    assert!(rt; loses_one(&mut near, &mut far, (here, there))?);
    assert!(rt; loses_one(&mut far, &mut near, (there, here))?);
    Ok(())
}
