//! A read over a socket, and its result.

ghost use Rattle.std.specs.Prelude.{[], false, IfErr, IfOk, List, Option, ◌<◌, ◌≡◌};
ghost use Rattle.{bac_tsm.specs.Outcome, bac_print.specs.{has_failed, Took}};
ghost use Rattle.bac_links.specs.{Binds, BindsAtMost, Tells, declared.call.Purpose.TheVariants.Reading};
ghost use Rattle.bac_links.specs.{declared.udp.OnRefusal.TheVariants.Fails, Ending.{ending_line, exit_of}};
ghost use Rattle.{bac_links.specs.{Socket.account_over, SystemCall.SystemCall}, bac_uses.specs.Anywhere.anywhere};

use bac_links::{
    Exit, Link, NoSocket, OnRefusal, Sockets, SystemSocket, ToolFault, UdpLink, run_read,
};
use bac_pdu::Peer;
use bac_print::Checked;
use bac_text::Call;
use std::io::Write;
use std::net::Net;
use std::time::Clock;

/// Makes this read over a socket, and returns its result and the link. The function can get only one socket, and only
/// from `sockets`.
///
/// # Errors
///
/// `NoSocket` if no socket could be bound.
pub fn read_over_udp<R: Net + Clock + Clone + Drop, W: Write>(
    sockets: Sockets<R>,
    call: &Call,
    writer: &mut Checked<W>,
) -> Result<(Result<Exit, ToolFault>, UdpLink<SystemSocket<R>>), NoSocket<R>>
    requires writer { has_failed writer.old ≡ false }
    requires timeout { 0 < call.now.timeout }
    // If the read met no fault, the line of its end was printed, and the exit is that of this end: good if a value was
    // read.
    ensures line { IfOk result (λ read. IfOk read.0 (λ exit. (ending : Option Outcome)
        × (exit ≡ exit_of Reading ending) × Took W.contents writer.old writer.new (ending_line Reading ending))) }
    // The read was made over a new link, whose only calls are those of the read.
    ensures read { IfOk result (λ read. (calls : List SystemCall) × Binds anywhere calls
        × Tells Reading call.now W.contents writer.old writer.new (account_over Fails calls [])
        (⟦<UdpLink<SystemSocket<R>> as Link>⟧.seen read.1) read.0) }
    // If there was no socket, no other call was made, and nothing printed.
    ensures none { IfErr result (λ none. (none.sockets ≡ sockets) × BindsAtMost anywhere none.log.items
        × (writer.new ≡ writer.old)) }
{
    let anywhere = Peer {
        ip: 0,
        port: 0,
        route: None,
    };
    let mut link = UdpLink::bind_with(sockets, anywhere, OnRefusal::Fails)?;
    Ok((run_read(call, &mut link, writer), link))
}
