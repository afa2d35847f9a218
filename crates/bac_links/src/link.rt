//! The link through which the tools send and receive datagrams, and the turns in which they wait for one.
ghost use Rattle.std.specs.{Option.option_flatten, Prelude.{Bool, false, IfNone, IfOk, IfSome, is_err, None, ◌≡◌}};
ghost use Rattle.std.specs.Result.{result_ok};
ghost use Rattle.{bac_pdu.specs.station, bac_print.specs.message_text};
ghost use Rattle.bac_links.specs.{Account, Gains, heard_by, link_fault_text, most_turns, Offered, posted, Timed};
ghost use Rattle.bac_links.specs.{turn_wait, Waited};

use crate::datagram::Datagram;
use bac_pdu::Peer;
use bac_print::FaultMessage;
use thiserror::Error;

// The longest wait of a turn, in milliseconds.
const LONGEST_WAIT: u32 = 50;

/// A send or a receive failed, or a link could not be made.
#[derive(Clone, Copy, Debug, PartialEq, Eq, Error)]
#[error("{}", self.message())]
pub struct LinkFault;

impl LinkFault {
    /// The message if no link is available. A send or a receive that failed is reported as a `ToolFault`.
    pub fn message(&self) -> FaultMessage
        ensures { message_text result ≡ link_fault_text }
    {
        FaultMessage::Text("bind failed")
    }
}

/// A link sends and receives datagrams, and knows the time. Once a send or a receive has failed, no datagram is sent,
/// offered or received again.
pub trait Link {
    // The parts from which a link of this kind is made.
    ghost Origin: { Type 0 } = { Unit {0} };

    // The parts from which the link was made, which never change, and all its calls and answers so far.
    ghost seen: { Self → Account Origin };

    // A send or a receive has failed.
    ghost has_failed: { Self → Bool };

    /// Sends the octets to the peer's address and port; a route is in the octets.
    fn send(&mut self, to: Peer, octets: &[u8]) -> Result<(), LinkFault>
        requires { has_failed self.old ≡ false }
        ensures fault { has_failed self.new ≡ is_err result }
        ensures told { Gains (posted result (station to) octets.now) (seen self.old) (seen self.new) };

    /// Sends the octets like `send`. If the system refuses them, they are lost, and the link goes on. Returns whether
    /// the system took them.
    fn offer(&mut self, to: Peer, octets: &[u8]) -> bool
        requires { has_failed self.old ≡ false }
        ensures fault { has_failed self.new ≡ false }
        ensures told { Gains (Offered (station to) octets.now result) (seen self.old) (seen self.new) };

    /// Waits this many milliseconds for a datagram, and returns its sender. Returns None if none came; then, and after
    /// a fault, the datagram is unchanged.
    fn receive(&mut self, wait_ms: u32, datagram: &mut Datagram) -> Result<Option<Peer>, LinkFault>
        requires { has_failed self.old ≡ false }
        ensures fault { has_failed self.new ≡ is_err result }
        ensures plain { IfOk result (λ heard. IfSome heard (λ from. from.route ≡ None)) }
        ensures kept { IfNone (option_flatten (result_ok result)) (datagram.new ≡ datagram.old) }
        ensures told { Gains (Waited wait_ms (heard_by result datagram.new)) (seen self.old) (seen self.new) };

    /// Returns the time in milliseconds.
    fn now(&mut self) -> u64
        ensures fault { has_failed self.new ≡ has_failed self.old }
        ensures told { Gains (Timed result) (seen self.old) (seen self.new) };

    /// Returns whether a send or a receive has failed.
    fn failed(&self) -> bool
        ensures { result ≡ has_failed self.now };
}

/// Returns the number of turns after which a tool gives up. It is a function, not a constant, so that its clause states
/// the number.
pub const fn most_turns() -> u32
    ensures { result ≡ most_turns }
{
    65_536
}

/// Returns how long a turn of a call or a search with this timeout waits, in milliseconds.
pub fn turn_wait(timeout: u32) -> u32
    ensures { result ≡ turn_wait timeout }
{
    timeout.min(LONGEST_WAIT)
}
