//! One request to one peer, its end, and the text of this end.
ghost use Rattle.std.specs.Option.{option_map, option_map_or};
ghost use Rattle.std.specs.Prelude.{[], codes, Err, false, if◌then◌else◌, IfErr, IfOk, is_err, is_some, MatchOption};
ghost use Rattle.std.specs.Prelude.{Ok, OnErr, OnOk, suc, ℕ, ◌<◌, ◌≡◌, ◌≢◌};
ghost use Rattle.{bac_pdu.specs.{ack_of, ReadAck}, bac_tsm.specs.{outcome_seen, sent}};
ghost use Rattle.bac_text.specs.declared.jobs.Call.{Call};
ghost use Rattle.bac_print.specs.{has_failed, Prints, Checked.TookOrFailed, Values.region_text};
ghost use Rattle.bac_links.specs.{Account, ending_line, ending_text, exit_of, Failure, Gains, GainsAll, is_link_fault};
ghost use Rattle.bac_links.specs.{is_write_fault, most_turns, move, Plays, service_of, Tells, Waited, Writing};
ghost use Rattle.bac_links.specs.{declared.call.Purpose.{Purpose, TheVariants.Reading}, Inner.ending_seen};
ghost use Rattle.bac_links.specs.Inner.{GainsLost, Hears, IsAlone, posts, Ticks, TicksLost, Underway, wait_of};

use crate::datagram::Datagram;
use crate::exit::Exit;
use crate::fault::ToolFault;
use crate::link::{Link, most_turns, turn_wait};
use bac_pdu::{READ_PROPERTY, WRITE_PROPERTY, read_ack};
use bac_print::{Checked, Page, print_outcome};
use bac_text::Call;
use bac_tsm::{Client, Config, DueEntry, Outcome};
use std::io::Write;

/// The purpose of a call.
#[derive(Clone, Copy)]
pub enum Purpose {
    /// To read a property.
    Reading,
    /// To write a property.
    Writing,
}

// The end of a request.
#[derive(Clone, Copy)]
enum Ending<'d> {
    Answered(Outcome<'d>),
    TimedOut,
}

/// Reads a property (clause 15.5): sends the request, waits for its end, and prints the end in a line, such as
/// `4290999a`, `error 2 32` or `timeout`. A value that was read is a good end. The object and the property in the
/// answer are not compared with the requested ones.
///
/// # Errors
///
/// `SendFailed` and `ReceiveFailed` if the link failed, and `TurnsSpent` if the request is open after 65,536 turns;
/// then nothing was printed. `WriteFailed` if the writer failed or took no octet; then the beginning of the line was
/// printed.
pub fn run_read<L: Link, W: Write>(
    call: &Call,
    link: &mut L,
    writer: &mut Checked<W>,
) -> Result<Exit, ToolFault>
    requires link { L.has_failed link.old ≡ false }
    requires writer { has_failed writer.old ≡ false }
    requires timeout { 0 < call.now.timeout }
    ensures link_fault { L.has_failed link.new ≡ is_link_fault result }
    ensures write_fault { has_failed writer.new ≡ is_write_fault result }
    ensures told { Tells Reading call.now W.contents writer.old writer.new (L.seen link.old) (L.seen link.new) result }
{
    run(Purpose::Reading, call, link, writer)
}

/// Writes a property (clause 15.9): sends the request, waits for its end, and prints the end in a line, such as `ok`,
/// `error 2 40` or `timeout`. `ok` is a good end: the property was written.
///
/// # Errors
///
/// The errors of `run_read`.
pub fn run_write<L: Link, W: Write>(
    call: &Call,
    link: &mut L,
    writer: &mut Checked<W>,
) -> Result<Exit, ToolFault>
    requires link { L.has_failed link.old ≡ false }
    requires writer { has_failed writer.old ≡ false }
    requires timeout { 0 < call.now.timeout }
    ensures link_fault { L.has_failed link.new ≡ is_link_fault result }
    ensures write_fault { has_failed writer.new ≡ is_write_fault result }
    ensures told { Tells Writing call.now W.contents writer.old writer.new (L.seen link.old) (L.seen link.new) result }
{
    run(Purpose::Writing, call, link, writer)
}

// Makes the call's request, waits for its end, and prints the end.
#[tactic(auto, using(crate::proofs::fails_so, crate::proofs::shown_so, crate::proofs::spent))]
fn run<L: Link, W: Write>(
    purpose: Purpose,
    call: &Call,
    link: &mut L,
    writer: &mut Checked<W>,
) -> Result<Exit, ToolFault>
    requires link { L.has_failed link.old ≡ false }
    requires writer { has_failed writer.old ≡ false }
    requires timeout { 0 < call.now.timeout }
    ensures link_fault { L.has_failed link.new ≡ is_link_fault result }
    ensures write_fault { has_failed writer.new ≡ is_write_fault result }
    ensures told { Tells purpose call.now W.contents writer.old writer.new (L.seen link.old) (L.seen link.new) result }
{
    let mut client = begin(purpose, call, link)?;
    let wait_ms = turn_wait(call.timeout);
    let mut datagram = Datagram::new();
    for _turn in 0..most_turns() {
        if let Some(ending) = turn(&mut client, link, wait_ms, &mut datagram)? {
            return show_ending(purpose, ending, writer);
        }
    }
    Err(ToolFault::TurnsSpent)
}

// Reads the time, and makes and sends the request of the call.
#[tactic(auto, using(crate::proofs::submitted_is, crate::proofs::unbegun))]
fn begin<L: Link>(purpose: Purpose, call: &Call, link: &mut L) -> Result<Client, ToolFault>
    requires sound { L.has_failed link.old ≡ false }
    requires timeout { 0 < call.now.timeout }
    ensures fault { L.has_failed link.new ≡ is_link_fault result }
    ensures ok { IfOk result
        (λ client. Underway purpose call.now (L.seen link.old) (L.seen link.new) client 0) }
    ensures err { IfErr result (λ fault. fault ≡ ToolFault.SendFailed) }
    ensures over { OnErr result
        (Plays (move purpose call.now) (L.seen link.old) (L.seen link.new) (Err ToolFault.SendFailed)) }
{
    let config = Config {
        timeout: call.timeout,
        retries: call.retries,
    };
    let mut client = Client::new(config, 0);
    let _ = client.tick(link.now());
    let ticket = client
        .submit(call.to, service_of(purpose), call.body.as_slice())
        .unwrap();
    send_request(&client, ticket, link)?;
    Ok(client)
}

// Returns the service of the request.
fn service_of(purpose: Purpose) -> u8
    ensures { result ≡ service_of purpose }
{
    match purpose {
        Purpose::Reading => READ_PROPERTY,
        Purpose::Writing => WRITE_PROPERTY,
    }
}

// Takes one turn of a call, and returns the end of the request if it has ended. After an answer the time is not read.
fn turn<'d, L: Link>(
    client: &mut Client,
    link: &mut L,
    wait_ms: u32,
    datagram: &'d mut Datagram,
) -> Result<Option<Ending<'d>>, ToolFault>
    requires { L.has_failed link.old ≡ false }
    ensures fault { L.has_failed link.new ≡ is_link_fault result }
    ensures ok { IfOk result
        (λ ending. (purpose : Purpose) (call : Call) (seen : Account L.Origin) (n : ℕ) → wait_ms ≡ wait_of call
        → n < most_turns → Underway purpose call seen (L.seen link.old) client.old n →
        MatchOption ending (Underway purpose call seen (L.seen link.new) client.new (suc n))
        (λ end. Plays (move purpose call) seen (L.seen link.new) (Ok (ending_seen end)))) }
    ensures err { IfErr result (λ fault. fault ≢ ToolFault.WriteFailed) }
    ensures over { IfErr result
        (λ fault. (purpose : Purpose) (call : Call) (seen : Account L.Origin) (n : ℕ) → wait_ms ≡ wait_of call
        → n < most_turns → Underway purpose call seen (L.seen link.old) client.old n →
        Plays (move purpose call) seen (L.seen link.new) (Err fault)) }
{
    match hear(client, link, wait_ms, datagram) {
        Ok(Some(outcome)) => Ok(Some(Ending::Answered(outcome))),
        Ok(None) => match pass_time(client, link) {
            Ok(true) => Ok(Some(Ending::TimedOut)),
            Ok(false) => Ok(None),
            Err(fault) => Err(fault),
        },
        Err(fault) => Err(fault),
    }
}

// Passes the client the datagram that the link receives. The outcome of an answer borrows octets of the datagram.
fn hear<'d, L: Link>(
    client: &mut Client,
    link: &mut L,
    wait_ms: u32,
    datagram: &'d mut Datagram,
) -> Result<Option<Outcome<'d>>, ToolFault>
    requires { L.has_failed link.old ≡ false }
    ensures fault { L.has_failed link.new ≡ is_link_fault result }
    ensures ok { IfOk result
        (λ outcome. Hears wait_ms client.old client.new (option_map outcome_seen outcome) (L.seen link.old)
        (L.seen link.new)) }
    ensures err { IfErr result (λ fault. fault ≡ ToolFault.ReceiveFailed) }
    ensures lost { OnErr result (Gains (Waited wait_ms Failure) (L.seen link.old) (L.seen link.new)) }
{
    match link.receive(wait_ms, datagram) {
        Ok(Some(from)) => match client.datagram(from, datagram.as_slice()) {
            Some(ended) => Ok(Some(ended.outcome)),
            None => Ok(None),
        },
        Ok(None) => Ok(None),
        Err(_) => Err(ToolFault::ReceiveFailed),
    }
}

// Passes the client the time, and sends the request again if it is due. Returns true if the request has ended instead.
fn pass_time<L: Link>(client: &mut Client, link: &mut L) -> Result<bool, ToolFault>
    requires { L.has_failed link.old ≡ false }
    ensures fault { L.has_failed link.new ≡ is_link_fault result }
    ensures ok { IfOk result (λ over. IsAlone client.old.state →
        Ticks client.old client.new over (L.seen link.old) (L.seen link.new)) }
    ensures err { IfErr result (λ fault. fault ≡ ToolFault.SendFailed) }
    ensures lost { OnErr result (IsAlone client.old.state →
        TicksLost client.old (L.seen link.old) (L.seen link.new)) }
{
    let due = client.tick(link.now());
    match due.as_slice().first() {
        Some(&DueEntry::Resend(ticket)) => {
            send_request(client, ticket, link)?;
            Ok(false)
        }
        Some(DueEntry::TimedOut(_)) => Ok(true),
        None => Ok(false),
    }
}

// Sends the datagram of an open request.
fn send_request<L: Link>(client: &Client, ticket: u64, link: &mut L) -> Result<(), ToolFault>
    requires { L.has_failed link.old ≡ false }
    ensures fault { L.has_failed link.new ≡ is_link_fault result }
    ensures ok { OnOk result (GainsAll (posts (sent client.now.state ticket)) (L.seen link.old) (L.seen link.new)) }
    ensures err { IfErr result (λ fault. fault ≡ ToolFault.SendFailed) }
    ensures lost { OnErr result (GainsLost (sent client.now.state ticket) [] (L.seen link.old) (L.seen link.new)) }
{
    if let Some((to, octets)) = client.to_send(ticket) {
        if link.send(to, octets).is_err() {
            return Err(ToolFault::SendFailed);
        }
    }
    Ok(())
}

// Prints the line of the end of a request.
fn show_ending<W: Write>(
    purpose: Purpose,
    ending: Ending<'_>,
    writer: &mut Checked<W>,
) -> Result<Exit, ToolFault>
    requires { has_failed writer.old ≡ false }
    ensures text { TookOrFailed W.contents writer.old writer.new
        (ending_line purpose (ending_seen ending.entry)) result }
    ensures failed { has_failed writer.new ≡ is_err result }
    ensures exit { IfOk result (λ exit. exit ≡ exit_of purpose (ending_seen ending.entry)) }
    ensures fault { IfErr result (λ fault. fault ≡ ToolFault.WriteFailed) }
{
    let mut page = Page::new(writer);
    let exit = print_ending(&mut page, purpose, ending);
    page.print(b"\n");
    page.finish()?;
    Ok(exit)
}

// Prints the end of a request, and returns whether it is good.
fn print_ending<W: Write>(page: &mut Page<'_, W>, purpose: Purpose, ending: Ending<'_>) -> Exit
    ensures text { Prints W.contents page.old page.new (ending_text purpose (ending_seen ending.entry)) }
    ensures exit { result ≡ exit_of purpose (ending_seen ending.entry) }
{
    match (purpose, ending) {
        (Purpose::Reading, Ending::Answered(Outcome::Complex(body))) => {
            return print_value(page, body);
        }
        (Purpose::Writing, Ending::Answered(Outcome::Simple)) => {
            page.print(b"ok");
            return Exit::Good;
        }
        (_, Ending::Answered(Outcome::Simple | Outcome::Complex(_))) => page.print(b"bad-ack"),
        (_, Ending::Answered(outcome)) => print_outcome(page, outcome),
        (_, Ending::TimedOut) => page.print(b"timeout"),
    }
    Exit::Bad
}

// Prints the value of an acknowledgement, or that it cannot be read.
fn print_value<W: Write>(page: &mut Page<'_, W>, body: &[u8]) -> Exit
    ensures text { Prints W.contents page.old page.new
        (option_map_or (λ (ack : ReadAck). region_text ack.value) (ack_of body.now) (codes "bad-ack")) }
    ensures exit { result ≡ (if is_some (ack_of body.now) then Exit.Good else Exit.Bad) }
{
    match read_ack(body, &mut bac_work::begin()) {
        Some(ack) => {
            page.print_region(ack.value);
            Exit::Good
        }
        None => {
            page.print(b"bad-ack");
            Exit::Bad
        }
    }
}
