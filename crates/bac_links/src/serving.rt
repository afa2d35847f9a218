//! A device that replies to the datagrams of a link.
ghost use Rattle.std.specs.Prelude.{false, IfOk, ◌≡◌, ◌≤◌};
ghost use Rattle.bac_links.specs.{is_link_fault, Serves, Inner.ServesTurn};

use crate::datagram::Datagram;
use crate::fault::ToolFault;
use crate::link::{Link, most_turns};
use bac_device::Device;
use bac_wire::Frame;
use bac_work::begin;

// How long a server waits for a datagram, in milliseconds.
const SERVE_WAIT: u32 = 1_000;

/// Replies to datagrams until `count` of them came. Returns how many replies were sent.
///
/// # Errors
///
/// `SendFailed` and `ReceiveFailed` if the link failed; a reply that could not be sent is lost. `TurnsSpent` if fewer
/// datagrams came in 65,536 turns of at most a second.
pub fn serve<L: Link>(link: &mut L, device: &mut Device, count: u32) -> Result<u32, ToolFault>
    requires { L.has_failed link.old ≡ false }
    ensures fault { L.has_failed link.new ≡ is_link_fault result }
    ensures told { Serves count device.old device.new (L.seen link.old) (L.seen link.new) result }
{
    if count == 0 {
        return Ok(0);
    }
    let mut datagram = Datagram::new();
    let mut frame = Frame::new();
    let (mut came, mut sent) = (0, 0);
    for _turn in 0..most_turns() {
        let (brought, replied) = serve_turn(link, device, &mut datagram, &mut frame)?;
        came += brought;
        sent += replied;
        if came == count {
            return Ok(sent);
        }
    }
    Err(ToolFault::TurnsSpent)
}

// Replies to the next datagram, if one comes. Returns how many came, one or none, and how many replies were sent.
#[inline(always)]
#[tactic(auto, using(crate::proofs::gains_both))]
fn serve_turn<L: Link>(
    link: &mut L,
    device: &mut Device,
    datagram: &mut Datagram,
    frame: &mut Frame,
) -> Result<(u32, u32), ToolFault>
    requires { L.has_failed link.old ≡ false }
    ensures fault { L.has_failed link.new ≡ is_link_fault result }
    ensures few { IfOk result (λ (brought, replied). (brought ≤ 1) × (replied ≤ brought)) }
    ensures told { ServesTurn device.old device.new (L.seen link.old) (L.seen link.new) result }
{
    let from = match link.receive(SERVE_WAIT, datagram) {
        Ok(Some(from)) => from,
        Ok(None) => return Ok((0, 0)),
        Err(_) => return Err(ToolFault::ReceiveFailed),
    };
    let Some(to) = device.answer(from, datagram.as_slice(), frame, &mut begin()) else {
        return Ok((1, 0));
    };
    match link.send(to, frame.as_slice()) {
        Ok(()) => Ok((1, 1)),
        Err(_) => Err(ToolFault::SendFailed),
    }
}
