//! The lines of a script, run on its client and its device one after another.

ghost use Rattle.std.specs.Prelude.{[], List, ◌≡◌};
ghost use Rattle.{bac_device.specs.Write, bac_print.specs.Prints};
ghost use Rattle.bac_tsm.specs.{keeping, step_of, Tick, Seen.event_seen};
ghost use Rattle.bac_script.specs.{arrival_seen, line_seen, notes_text};
ghost use Rattle.bac_script.specs.Inner.{device_with, ran, reply_after, ScriptStage, Stands, writes_with};

use crate::line::{Line, Received};
use crate::notes::{print_answer, print_any, print_due, print_note};
use bac_device::{Device, DeviceInfo, demo};
use bac_print::Page;
use bac_tsm::{Client, Event, Note, SubmitFault};
use bac_wire::Frame;
use bac_work::begin;
use std::io::Write;

/// Runs a line on the client and the device, and prints the result. The device's reply is written into the frame.
#[tactic(auto, using(bac_print::proofs::Printed::no_print))]
pub(crate) fn run_line<W: Write>(
    client: &mut Client,
    device: &mut Device,
    line: Line<'_>,
    reply: &mut Frame,
    page: &mut Page<'_, W>,
)
    ensures stage { (stage : ScriptStage) → Stands stage client.old device.old
        → Stands (ran stage (line_seen line.entry)).after client.new device.new }
    ensures text { (stage : ScriptStage) → Stands stage client.old device.old
        → Prints W.contents page.old page.new (ran stage (line_seen line.entry)).text }
{
    match line {
        Line::Blank | Line::Remark => {}
        Line::Client(config, first_ticket) => *client = Client::new(config, first_ticket),
        Line::Happens(event) => take(client, event, page),
        Line::LongWrite(_) => print_note(page, Note::Refused(SubmitFault::TooLong)),
        Line::Ask(received) => ask(device, received, reply, page),
    }
}

/// Returns the device of a script: the demonstration device with this number and name.
pub(crate) fn small_device() -> Device
    ensures { result ≡ device_with [] }
{
    let info = DeviceInfo::new(1_234, "Small device").unwrap();
    demo(info)
}

// Passes the client an event, and prints its notes.
fn take<W: Write>(client: &mut Client, event: Event<'_>, page: &mut Page<'_, W>)
    ensures client { client.new ≡ keeping client.old (step_of client.old (event_seen event.entry)).after }
    ensures text { Prints W.contents page.old page.new
        (notes_text (step_of client.old (event_seen event.entry)).notes) }
{
    match event {
        Event::Ask(peer, service, body) => match client.submit(peer, service, body) {
            Ok(ticket) => print_any(page, client.sent(ticket)),
            Err(fault) => print_note(page, Note::Refused(fault)),
        },
        Event::Data(peer, octets) => match client.datagram(peer, octets) {
            Some(ended) => print_note(page, Note::Done(ended)),
            None => print_note(page, Note::Dropped),
        },
        Event::Tick(now) => tell_time(client, now, page),
    }
}

// Gives the client the time, and prints what is due then.
fn tell_time<W: Write>(client: &mut Client, now: u64, page: &mut Page<'_, W>)
    ensures client { client.new ≡ keeping client.old (step_of client.old (Tick now)).after }
    ensures text { Prints W.contents page.old page.new (notes_text (step_of client.old (Tick now)).notes) }
{
    let due = client.tick(now);
    print_due(page, client, due.as_slice());
}

// Passes the device a datagram, and prints its reply, which is written into the frame.
fn ask<W: Write>(
    device: &mut Device,
    received: Received<'_>,
    reply: &mut Frame,
    page: &mut Page<'_, W>,
)
    ensures device { (writes : List Write) → device.old ≡ device_with writes
        → device.new ≡ device_with (writes_with writes (arrival_seen received.entry)) }
    ensures text { (writes : List Write) → device.old ≡ device_with writes
        → Prints W.contents page.old page.new (reply_after writes (arrival_seen received.entry)) }
{
    let to = device.answer(received.from, received.datagram, reply, &mut begin());
    print_answer(page, to, reply.as_slice());
}
