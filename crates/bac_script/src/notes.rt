//! The texts of a client's notes, and of a device's replies.

ghost use Rattle.std.specs.{List.flat_map, Option.option_to_list, Prelude.{[], option_map, ◌++◌, ◌∷◌}};
ghost use Rattle.{bac_pdu.specs.station, bac_print.specs.{peer_text, Prints}};
ghost use Rattle.bac_tsm.specs.{Done, due_notes, outcome_seen, Sent, Events.TimedOut, Seen.note_seen};
ghost use Rattle.{hex.specs.Hex.encode_lower, bac_script.specs.{note_text, notes_text, refusal_text, reply_text}};

use bac_pdu::Peer;
use bac_print::{Page, print_outcome};
use bac_tsm::{Client, DueEntry, Ended, Note, SubmitFault};
use std::io::Write;

/// Prints the line of a note.
#[tactic(auto, using(bac_print::proofs::Printed::printing))]
#[inline(always)]
pub fn print_note<W: Write>(page: &mut Page<'_, W>, note: Note<'_>)
    ensures { Prints W.contents page.old page.new (note_text (note_seen note.entry)) }
{
    match note {
        Note::Sent(ticket, peer, octets) => print_sent(page, ticket, peer, octets),
        Note::Refused(fault) => print_refusal(page, fault),
        Note::Done(ended) => print_end(page, ended),
        Note::Dropped => page.print(b"drop\n"),
        Note::TimedOut(ticket) => print_timeout(page, ticket),
    }
}

/// Prints the line of a note, if there is one.
#[tactic(auto, using(bac_print::proofs::Printed::printing, std::proofs::lemmas::Grind::common_steps))]
#[inline(always)]
pub(crate) fn print_any<W: Write>(page: &mut Page<'_, W>, note: Option<Note<'_>>)
    ensures { Prints W.contents page.old page.new
        (notes_text (option_to_list (option_map note_seen note.entry))) }
{
    if let Some(note) = note {
        print_note(page, note);
    }
}

/// Prints the entries of a tick, in their order.
#[tactic(auto, using(bac_print::proofs::Printed::printing, std::proofs::lemmas::Grind::common_steps, std::proofs::lemmas::List::take_more))]
pub(crate) fn print_due<W: Write>(page: &mut Page<'_, W>, client: &Client, due: &[DueEntry])
    ensures { Prints W.contents page.old page.new (notes_text (flat_map (due_notes client.now.state) due.now)) }
{
    for entry in due {
        print_any(page, client.due(*entry));
    }
}

/// Prints the device's answer: its reply, or that it is silent.
#[tactic(auto, using(bac_print::proofs::Printed::printing))]
pub(crate) fn print_answer<W: Write>(page: &mut Page<'_, W>, to: Option<Peer>, octets: &[u8])
    ensures { Prints W.contents page.old page.new (reply_text (option_map (λ peer. (station peer, octets.now)) to)) }
{
    match to {
        Some(peer) => {
            page.print(b"reply ");
            print_datagram(page, peer, octets);
        }
        None => page.print(b"silent\n"),
    }
}

/// Prints a peer and the octets of a datagram to or from this peer.
#[inline(always)]
#[tactic(auto, using(bac_print::proofs::Printed::printing))]
pub fn print_datagram<W: Write>(page: &mut Page<'_, W>, peer: Peer, octets: &[u8])
    ensures { Prints W.contents page.old page.new
        (peer_text (station peer) ++ 32 ∷ (encode_lower octets.now ++ 10 ∷ [])) }
{
    page.print_peer(peer);
    page.print(b" ");
    page.print_hex(octets);
    page.print(b"\n");
}

#[inline(always)]
#[tactic(auto, using(bac_print::proofs::Printed::printing))]
fn print_sent<W: Write>(page: &mut Page<'_, W>, ticket: u64, peer: Peer, octets: &[u8])
    ensures { Prints W.contents page.old page.new (note_text (Sent ticket (station peer) octets.now)) }
{
    page.print(b"send ");
    page.print_number(ticket);
    page.print(b" ");
    print_datagram(page, peer, octets);
}

fn print_refusal<W: Write>(page: &mut Page<'_, W>, fault: SubmitFault)
    ensures { Prints W.contents page.old page.new (refusal_text fault ++ 10 ∷ []) }
{
    let text = match fault {
        SubmitFault::TooLong => b"too-long\n".as_slice(),
        SubmitFault::TableFull => b"full\n",
        SubmitFault::TicketsSpent => b"spent\n",
    };
    page.print(text);
}

#[inline(always)]
fn print_end<W: Write>(page: &mut Page<'_, W>, ended: Ended<'_>)
    ensures { Prints W.contents page.old page.new
        (note_text (Done ended.entry.ticket (outcome_seen ended.entry.outcome))) }
{
    page.print(b"done ");
    page.print_number(ended.ticket);
    page.print(b" ");
    print_outcome(page, ended.outcome);
    page.print(b"\n");
}

#[tactic(auto, using(bac_print::proofs::Printed::printing))]
fn print_timeout<W: Write>(page: &mut Page<'_, W>, ticket: u64)
    ensures { Prints W.contents page.old page.new (note_text (TimedOut ticket)) }
{
    page.print(b"timeout ");
    page.print_number(ticket);
    page.print(b"\n");
}
