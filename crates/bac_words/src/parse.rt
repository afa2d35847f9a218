//! From the words to the job.

ghost use Rattle.std.specs.Prelude.{codes, IfOk, IfSome, IsErrAnd, IsSomeAnd, length, option_map, ◌<◌, ◌≡◌, ◌≤◌, ◌⊎◌};
ghost use Rattle.{bac_pdu.specs.{IsPriority, read_octets, reference}, bac_text.specs.Parameters.priority_from};
ghost use Rattle.bac_wire.specs.{identifier, result_seen};
ghost use Rattle.clap.specs.{Walk.texts, Words.{found_of, rows_of, subcommand_rows_of}};
ghost use Rattle.clap_laws.specs.{Inner.{Commands.rules_of, Numbers.IsWithin}, Numbers.number_of, Passes.IsTaken};
ghost use Rattle.bac_words.specs.{Answers, bacdev, bacrp, bacrun, bacwi, bacwp, body_given, call_given, CanRun};
ghost use Rattle.bac_words.specs.{index_given, IsRefusal, limits, needed_number, object_given, order_of, peer_given};
ghost use Rattle.bac_words.specs.{peer_in, port_given, read_order, retries_given, run_order, search_order, serve_order};
ghost use Rattle.bac_words.specs.{timeout_given, write_order};
ghost use Rattle.bac_words.specs.Inner.{bounds, IsClient, IsGiven, IsNumberWord, IsRequest, IsSender, IsTool};

use crate::command::bactool;
use crate::faults::UsageFault;
use crate::job::{Batch, Job, Serve, Tool};
use crate::marks::{TypedWords, marked_words, typed_word};
use arrayvec::ArrayVec;
use bac_device::DeviceInfo;
use bac_pdu::{Peer, ReadRequest, WhoIs, write_read};
use bac_text::{
    BodyRoom, Call, LONGEST_BODY, PairFault, Search, plain_peer_in, priority_from, read_write_index,
};
use bac_wire::{Frame, ObjectId};
use clap::ArgMatches;
use std::alloc::Global;

/// Returns the job that the words ask for. The first word is the program's name.
///
/// # Errors
///
/// `Memory` if there is no memory; `Help` or `Words` if `clap` does not accept the words; otherwise the first of
/// `BadMac`, `BadIndex`, and `BadValue` or `BodyTooLong`.
pub fn parse_words(alloc: Global, words: &[&str]) -> Result<Job, UsageFault>
    ensures answer { IsErrAnd result (IsRefusal (texts words.now)) ⊎ Answers (texts words.now) result }
    ensures ready { IfOk result CanRun }
{
    let marked = marked_words(alloc, words)?;
    let command = bactool(alloc)?;
    let matches = command.try_get_matches_from(marked.as_slice())?;
    job(&matches)
}

// Returns the job of the tool that the words name.
fn job(matches: &ArgMatches<'_>) -> Result<Job, UsageFault>
    requires { IsSomeAnd (subcommand_rows_of matches.now) IsTool }
    ensures job { option_map order_of (subcommand_rows_of matches.now) ≡ Some result }
    ensures ready { IfOk result CanRun }
{
    let Some((name, tool)) = matches.subcommand() else {
        unreachable!();
    };
    match name {
        "bacrp" => read_job(tool),
        "bacwp" => write_job(tool),
        "bacwi" => search_job(tool),
        "bacdev" => serve_job(tool),
        "bacrun" => run_job(tool),
        _ => Ok(Job::Trace),
    }
}

#[tactic(auto, using(crate::proofs::of_tool, crate::proofs::given_to_tool))]
fn read_job(matches: &ArgMatches<'_>) -> Result<Job, UsageFault>
    requires { IsTaken (rules_of bacrp) (rows_of (found_of matches.now)) }
    ensures job { result ≡ read_order (rows_of (found_of matches.now)) }
    ensures ready { IfOk result CanRun }
{
    let request = ReadRequest {
        object: object(matches),
        property: needed(matches, "property"),
        index: number(matches, "index"),
    };
    let Some(to) = peer(matches) else {
        return Err(UsageFault::BadMac);
    };
    Ok(Job::Use(Tool::Read(call(matches, to, read_body(&request)))))
}

fn write_job(matches: &ArgMatches<'_>) -> Result<Job, UsageFault>
    requires { IsTaken (rules_of bacwp) (rows_of (found_of matches.now)) }
    ensures job { result ≡ write_order (rows_of (found_of matches.now)) }
    ensures ready { IfOk result CanRun }
{
    let Some(to) = peer(matches) else {
        return Err(UsageFault::BadMac);
    };
    let Some(index) = index(matches) else {
        return Err(UsageFault::BadIndex);
    };
    let body = write_body(matches, index)?;
    Ok(Job::Use(Tool::Write(call(matches, to, body))))
}

#[tactic(auto, using(crate::proofs::of_tool, crate::proofs::given_to_tool))]
fn search_job(matches: &ArgMatches<'_>) -> Result<Job, UsageFault>
    requires { IsTaken (rules_of bacwi) (rows_of (found_of matches.now)) }
    ensures job { result ≡ search_order (rows_of (found_of matches.now)) }
    ensures ready { IfOk result CanRun }
{
    let least = number(matches, "min");
    let most = number(matches, "max");
    let Some(to) = peer(matches) else {
        return Err(UsageFault::BadMac);
    };
    Ok(Job::Use(Tool::WhoIs(Search {
        to,
        timeout: timeout(matches),
        port: port(matches),
        who: limits(least, most),
    })))
}

#[tactic(auto, using(crate::proofs::of_tool, crate::proofs::given_to_tool))]
fn serve_job(matches: &ArgMatches<'_>) -> Result<Job, UsageFault>
    requires { IsTaken (rules_of bacdev) (rows_of (found_of matches.now)) }
    ensures job { result ≡ serve_order (rows_of (found_of matches.now)) }
    ensures ready { IfOk result CanRun }
{
    let instance = needed(matches, "device-instance");
    let port = number(matches, "port").unwrap_or(47_808) as u16;
    let count = number(matches, "count").unwrap_or(65_535);
    let info = DeviceInfo::new(instance, "Small device").unwrap();
    Ok(Job::Use(Tool::Device(Serve { info, port, count })))
}

#[tactic(auto, using(crate::proofs::of_tool, crate::proofs::given_to_tool))]
fn run_job(matches: &ArgMatches<'_>) -> Result<Job, UsageFault>
    requires { IsTaken (rules_of bacrun) (rows_of (found_of matches.now)) }
    ensures job { result ≡ run_order (rows_of (found_of matches.now)) }
    ensures ready { IfOk result CanRun }
{
    Ok(Job::Run(Batch {
        timeout: timeout(matches),
        retries: retries(matches),
        port: port(matches),
        window: number(matches, "window").unwrap_or(1),
    }))
}

// Returns the request to this peer with this body.
fn call(matches: &ArgMatches<'_>, to: Peer, body: ArrayVec<u8, LONGEST_BODY>) -> Call
    requires { IsRequest (rows_of (found_of matches.now)) }
    ensures request { result ≡ call_given to (rows_of (found_of matches.now)) body }
    ensures ready { 0 < result.timeout }
{
    Call {
        to,
        timeout: timeout(matches),
        retries: retries(matches),
        port: port(matches),
        body,
    }
}

// Returns the body of a read. There is always room for it.
fn read_body(request: &ReadRequest) -> ArrayVec<u8, LONGEST_BODY>
    ensures { result.items ≡ read_octets (reference request.now) }
{
    let mut body = Frame::new();
    let _ = write_read(&mut body, request);
    copy_of(body.as_slice())
}

// Returns the body of a write, whose values are the pairs as they were typed.
#[tactic(auto, using(crate::proofs::of_tool, crate::proofs::given_to_tool))]
fn write_body(
    matches: &ArgMatches<'_>,
    index: Option<u32>,
) -> Result<ArrayVec<u8, LONGEST_BODY>, PairFault>
    requires { IsTaken (rules_of bacwp) (rows_of (found_of matches.now)) }
    ensures { result_seen (λ body. body.items) result ≡ body_given (rows_of (found_of matches.now)) index }
{
    let pairs = matches.get_strs("tag value").unwrap_or(&[]);
    let mut words = TypedWords::new(pairs);
    let mut room = BodyRoom::new();
    let body = room.body_of_write(
        object(matches),
        needed(matches, "property"),
        index,
        priority(matches),
        &mut words,
    )?;
    Ok(copy_of(body))
}

// Returns a copy of the body.
fn copy_of(body: &[u8]) -> ArrayVec<u8, LONGEST_BODY>
    requires { length body.now ≤ LONGEST_BODY }
    ensures { result.items ≡ body.now }
{
    let mut room = ArrayVec::new();
    let _ = room.try_extend_from_slice(body);
    room
}

// Returns the limits of a search: one number sets both; without a number there is no limit.
fn limits(least: Option<u32>, most: Option<u32>) -> WhoIs
    ensures { result ≡ limits least most }
{
    match least {
        None => WhoIs::All,
        Some(low) => WhoIs::Range {
            low,
            high: most.unwrap_or(low),
        },
    }
}

// Returns the peer of `--mac`, which has no route. No peer begins with a mark, so none is removed.
#[tactic(auto, using(crate::proofs::first_words))]
fn peer(matches: &ArgMatches<'_>) -> Option<Peer>
    ensures { result ≡ peer_given (rows_of (found_of matches.now)) }
{
    peer_of(matches.get_str("mac")?)
}

// Returns the peer that a word names, without removing a mark.
#[tactic(auto, using(crate::proofs::peer_named))]
fn peer_of(word: &str) -> Option<Peer>
    ensures { result ≡ peer_in word.now }
{
    plain_peer_in(word.as_bytes())
}

// Returns the index of a write, as it was typed.
fn index(matches: &ArgMatches<'_>) -> Option<Option<u32>>
    ensures { result ≡ index_given (rows_of (found_of matches.now)) }
{
    read_write_index(typed_word(matches, "index")?.as_bytes())
}

// Returns the object of a request.
#[tactic(auto, using(crate::proofs::of_request, crate::proofs::given_to_request))]
fn object(matches: &ArgMatches<'_>) -> ObjectId
    requires { IsRequest (rows_of (found_of matches.now)) }
    ensures { identifier result ≡ object_given (rows_of (found_of matches.now)) }
{
    let kind = needed(matches, "object-type") as u16;
    let instance = needed(matches, "object-instance");
    ObjectId::new(kind, instance).unwrap()
}

// Returns the milliseconds of a timeout, 3 seconds if none is given.
#[tactic(auto, using(crate::proofs::of_client))]
fn timeout(matches: &ArgMatches<'_>) -> u32
    requires { IsClient (rows_of (found_of matches.now)) }
    ensures value { result ≡ timeout_given (rows_of (found_of matches.now)) }
    ensures some { 0 < result }
{
    number(matches, "apdu-timeout").unwrap_or(3_000)
}

// Returns how often a request is sent again: three times if no number is given.
#[tactic(auto, using(crate::proofs::of_sender))]
fn retries(matches: &ArgMatches<'_>) -> u8
    requires { IsSender (rows_of (found_of matches.now)) }
    ensures { result ≡ retries_given (rows_of (found_of matches.now)) }
{
    number(matches, "apdu-retries").unwrap_or(3) as u8
}

// Returns the port to send from, any port if none is given.
#[tactic(auto, using(crate::proofs::of_client))]
fn port(matches: &ArgMatches<'_>) -> u16
    requires { IsClient (rows_of (found_of matches.now)) }
    ensures { result ≡ port_given (rows_of (found_of matches.now)) }
{
    number(matches, "port").unwrap_or(0) as u16
}

// Returns the priority of a write.
#[tactic(auto, using(crate::proofs::of_tool, crate::proofs::given_to_tool))]
fn priority(matches: &ArgMatches<'_>) -> Option<u8>
    requires { IsTaken (rules_of bacwp) (rows_of (found_of matches.now)) }
    ensures value { result ≡ priority_from (needed_number (codes "priority") (rows_of (found_of matches.now))) }
    ensures sound { IfSome result IsPriority }
{
    priority_from(needed(matches, "priority") as u8)
}

// Returns the number of an argument that is required.
fn needed(matches: &ArgMatches<'_>, id: &str) -> u32
    requires number { IsNumberWord id.now (rows_of (found_of matches.now)) }
    requires given { IsGiven id.now (rows_of (found_of matches.now)) }
    ensures value { result ≡ needed_number id.now (rows_of (found_of matches.now)) }
    ensures within { IsWithin (bounds id.now) result }
{
    number(matches, id).unwrap()
}

// Returns the number of an argument, if it is given.
fn number(matches: &ArgMatches<'_>, id: &str) -> Option<u32>
    requires { IsNumberWord id.now (rows_of (found_of matches.now)) }
    ensures value { result ≡ number_of id.now (rows_of (found_of matches.now)) }
    ensures within { IfSome result (IsWithin (bounds id.now)) }
{
    matches.get_one(id)
}
