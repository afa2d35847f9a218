//! The search for devices.
ghost use Rattle.std.specs.Prelude.{false, IfErr, is_err, ◌<◌, ◌≡◌};
ghost use Rattle.bac_pdu.specs.{station, Found.found_seen};
ghost use Rattle.bac_print.specs.{has_failed, Prints, Checked.TookOrFailed};
ghost use Rattle.bac_links.specs.{found_line, Gains, is_link_fault, is_write_fault, posted, Searched, who_is_to};
ghost use Rattle.bac_links.specs.Inner.{Listens, who_is_datagram};

use crate::datagram::Datagram;
use crate::exit::Exit;
use crate::fault::ToolFault;
use crate::link::{Link, most_turns, turn_wait};
use bac_pdu::{Apdu, Found, Peer, WHO_IS, WhoIs, read_found, wrap_within, write_apdu, write_whois};
use bac_print::{Checked, Page};
use bac_text::Search;
use bac_wire::Frame;
use std::io::Write;

/// Asks a station for its devices (Who-Is, clause 16.10), and prints a line for each device that introduces itself
/// before the timeout has passed: its instance, its peer, the longest APDU that it accepts, its segmentation and its
/// vendor. A device that was found is a good end. Each line is written before the next wait.
///
/// # Errors
///
/// `SendFailed` and `ReceiveFailed` if the link failed, and `TurnsSpent` if there is time left after 65,536 turns; then
/// the lines of the turns before were printed. `WriteFailed` if the writer failed or took no octet; then the lines
/// before and the beginning of the last one were printed.
pub fn run_whois<L: Link, W: Write>(
    search: &Search,
    link: &mut L,
    writer: &mut Checked<W>,
) -> Result<Exit, ToolFault>
    requires link { L.has_failed link.old ≡ false }
    requires writer { has_failed writer.old ≡ false }
    requires timeout { 0 < search.now.timeout }
    ensures link_fault { L.has_failed link.new ≡ is_link_fault result }
    ensures write_fault { has_failed writer.new ≡ is_write_fault result }
    ensures told { Searched search.now W.contents writer.old writer.new (L.seen link.old) (L.seen link.new) result }
{
    let first = link.now();
    ask(search, link)?;
    let wait_ms = turn_wait(search.timeout);
    let mut datagram = Datagram::new();
    let mut greatest = first;
    let mut any = false;
    for _turn in 0..most_turns() {
        any |= listen(search.who, link, wait_ms, &mut datagram, writer)?;
        greatest = greatest.max(link.now());
        if greatest - first >= u64::from(search.timeout) {
            return Ok(if any { Exit::Good } else { Exit::Bad });
        }
    }
    Err(ToolFault::TurnsSpent)
}

// Sends the Who-Is.
fn ask<L: Link>(search: &Search, link: &mut L) -> Result<(), ToolFault>
    requires { L.has_failed link.old ≡ false }
    ensures fault { L.has_failed link.new ≡ is_link_fault result }
    ensures told { Gains (posted result (station search.now.to) (who_is_to search.now)) (L.seen link.old)
        (L.seen link.new) }
    ensures err { IfErr result (λ fault. fault ≡ ToolFault.SendFailed) }
{
    let datagram = who_is(search.to, search.who);
    match link.send(search.to, datagram.as_slice()) {
        Ok(()) => Ok(()),
        Err(_) => Err(ToolFault::SendFailed),
    }
}

// Returns the datagram of a Who-Is. There is always room for it.
fn who_is(to: Peer, who: WhoIs) -> Frame
    ensures { result ≡ who_is_datagram (station to) who }
{
    let mut frame = Frame::new();
    let _ = write_apdu(
        &mut frame,
        &Apdu::Unconfirmed {
            service: WHO_IS,
            body: &[],
        },
    );
    let _ = write_whois(&mut frame, &who);
    let _ = wrap_within(to, false, &mut frame);
    frame
}

// Waits for a datagram, and prints the device that introduces itself in it. Returns true if there is one. No page is
// open during the wait, since an open page holds the writer.
fn listen<L: Link, W: Write>(
    who: WhoIs,
    link: &mut L,
    wait_ms: u32,
    datagram: &mut Datagram,
    writer: &mut Checked<W>,
) -> Result<bool, ToolFault>
    requires link { L.has_failed link.old ≡ false }
    requires writer { has_failed writer.old ≡ false }
    ensures link_fault { L.has_failed link.new ≡ is_link_fault result }
    ensures write_fault { has_failed writer.new ≡ is_write_fault result }
    ensures told { Listens who wait_ms W.contents writer.old writer.new (L.seen link.old) (L.seen link.new) result }
{
    match link.receive(wait_ms, datagram) {
        Ok(Some(from)) => match read_found(who, from, datagram.as_slice()) {
            Some(found) => {
                show_found(found, writer)?;
                Ok(true)
            }
            None => Ok(false),
        },
        Ok(None) => Ok(false),
        Err(_) => Err(ToolFault::ReceiveFailed),
    }
}

// Prints the line of a device.
fn show_found<W: Write>(found: Found, writer: &mut Checked<W>) -> Result<(), ToolFault>
    requires { has_failed writer.old ≡ false }
    ensures text { TookOrFailed W.contents writer.old writer.new (found_line (found_seen found)) result }
    ensures failed { has_failed writer.new ≡ is_err result }
    ensures fault { IfErr result (λ fault. fault ≡ ToolFault.WriteFailed) }
{
    let mut page = Page::new(writer);
    print_found(&mut page, found);
    page.finish()?;
    Ok(())
}

// Prints a device on a page.
fn print_found<W: Write>(page: &mut Page<'_, W>, found: Found)
    ensures { Prints W.contents page.old page.new (found_line (found_seen found)) }
{
    let device = found.device;
    page.print_number(u64::from(device.device.instance()));
    page.print(b" ");
    page.print_peer(found.peer);
    page.print(b" ");
    page.print_number(device.max_apdu);
    page.print(b" ");
    page.print_number(u64::from(device.segmentation));
    page.print(b" ");
    page.print_number(device.vendor);
    page.print(b"\n");
}
