//! The program, from its words to its report, over the one socket that its job asks for.
ghost use Rattle.std.specs.{declared.io.ErrorKind.TheVariants.OutOfMemory, IoError.error_kind, String.string_bytes};
ghost use Rattle.std.specs.Prelude.{[], Err, false, IfErr, IfOk, IsSomeAnd, map, MatchResult, None, Ok, Result, Some};
ghost use Rattle.std.specs.Prelude.{true, ⊤, ◌↔◌, ◌≡◌, ◌≢◌};
ghost use Rattle.{clap.specs.Walk.texts, bac_print.specs.{fresh, has_failed}};
ghost use Rattle.bac_links.specs.{Binds, BindsAtMost, Fault.{is_link_fault, is_write_fault}, Socket.account_over};
ghost use Rattle.{bac_run.specs.Fault.{is_of_link, write_failed}, bac_words.specs.Job.{CanOpen, CanRun, IsReady}};
ghost use Rattle.bac_tools.specs.{asked_by, BatchRuns, binding_of, client_at, DevicePlays, IsCalled, IsRun, IsSetupOf};
ghost use Rattle.bac_tools.specs.{outside, texts_of, tolerant_at, ToolRuns, declared.program.Binding.Binding};
ghost use Rattle.bac_tools.specs.{Program.Program, Inner.{RunsJob, RunsLinked}};

use crate::report::{Fault, Report};
use bac_device::demo;
use bac_links::{
    Exit, Link, LinkFault, NoSocket, OnRefusal, Sockets, SystemSocket, ToolFault, UdpLink,
    run_read, run_whois, run_write, serve,
};
use bac_pdu::Peer;
use bac_print::Checked;
use bac_run::{RunFault, Setup, run_requests};
use bac_script::{TraceEnd, trace};
use bac_tsm::Config;
use bac_words::{Batch, Job, Serve, Tool, UsageFault, parse_words, words_of};
use std::alloc::Global;
use std::env;
use std::io::{self, Read, Write};
use std::net::Net;
use std::time::Clock;

/// The address of a socket, and how it treats a datagram that the system refuses to send.
#[derive(Clone, Copy, Debug)]
pub struct Binding {
    /// The address and the port; the port 0 is any.
    pub at: Peer,
    /// How a refused datagram is treated.
    pub refused: OnRefusal,
}

/// The source of a job's one socket.
pub trait Network {
    type Socket: Link + Drop;

    /// The reason why no socket is available, with the network.
    type NoSocket: Drop;

    // The possible results of a request for a socket.
    ghost gives: { Self → Binding → Result Self.Socket Self.NoSocket → Type 0 };

    /// Binds a socket at this address; it has not failed. This consumes the network, so no second socket is asked for.
    ///
    /// # Errors
    ///
    /// `NoSocket` if no socket is available.
    fn bind(self, binding: Binding) -> Result<Self::Socket, Self::NoSocket>
        ensures gives { gives self binding result }
        ensures sound { IfOk result (λ socket. Self.Socket.has_failed socket ≡ false) };
}

/// The result of words that were run over a network `N` with sockets `L`: the report, and the socket, or `F` if none
/// was available, or `None` if none was asked for.
#[derive(Drop)]
pub struct Ran<N: Drop, L: Drop, F: Drop> {
    pub report: Report,
    pub socket: Option<Result<L, F>>,
    /// The network, if no socket was asked for.
    pub unasked: Option<N>,
}

/// The end of the program, and its reader and writers afterwards.
#[derive(Drop)]
pub struct Finished<N: Drop, L: Drop, F: Drop, R: Drop, W: Drop, E: Drop> {
    pub ran: Ran<N, L, F>,
    pub reader: Checked<R>,
    pub writer: Checked<W>,
    pub errors: Checked<E>,
}

/// Runs the program with the words of its call, or with the error of reading them. At the end it writes help that was
/// asked for to the writer, or the message of a fault to `errors`.
///
/// The program uses only this network, this reader and these two writers.
pub fn run_program<N: Network + Drop, R: Read + Drop, W: Write + Drop, E: Write + Drop>(
    alloc: Global,
    typed: io::Result<env::Args>,
    network: N,
    reader: R,
    writer: W,
    errors: E,
) -> Finished<N, N::Socket, N::NoSocket, R, W, E>
    ensures { IsRun N.gives (outside N.Socket.Link R.Read W.Write) E.contents network (fresh reader) result.reader
        (fresh writer) result.writer (fresh errors) result.errors result.ran (texts_of typed) }
{
    let mut reader = Checked::new(reader);
    let mut writer = Checked::new(writer);
    let mut errors = Checked::new(errors);
    let ran = run_called(alloc, typed, network, &mut reader, &mut writer);
    let report = ran.report.told(&mut writer, &mut errors);
    Finished {
        ran: Ran {
            report,
            socket: ran.socket,
            unasked: ran.unasked,
        },
        reader,
        writer,
        errors,
    }
}

/// Runs the job that the words ask for. The first word is the program's name.
///
/// If the words give no job, the report says why: help was asked for, `clap` refuses the words, or they have a first
/// fault; then nothing is read, printed or sent. All other words ask for a job, which is run over the reader, the
/// writer, and one socket if it needs one.
pub fn run_words<N: Network + Drop, R: Read, W: Write>(
    alloc: Global,
    words: &[&str],
    network: N,
    reader: &mut Checked<R>,
    writer: &mut Checked<W>,
) -> Ran<N, N::Socket, N::NoSocket>
    requires reader { has_failed reader.old ≡ false }
    requires writer { has_failed writer.old ≡ false }
    ensures { Program N.gives (outside N.Socket.Link R.Read W.Write) network reader.old reader.new writer.old writer.new
        result (texts words.now) }
{
    match parse_words(alloc, words) {
        Ok(job) => run_job(job, network, reader, writer),
        Err(fault) => Ran::only(Report::from(Fault::Usage(fault)), network),
    }
}

/// Runs a tool over its link. The printed text, the sent datagrams and the answer are those of the tool's definition,
/// for what the link received.
pub fn run_tool<L: Link, W: Write>(
    tool: Tool,
    link: &mut L,
    writer: &mut Checked<W>,
) -> Result<Exit, ToolFault>
    requires ready { IsReady tool }
    requires link { L.has_failed link.old ≡ false }
    requires writer { has_failed writer.old ≡ false }
    ensures runs { ToolRuns W.contents writer.old writer.new (L.seen link.old) (L.seen link.new) result tool }
    ensures link_fault { L.has_failed link.new ≡ is_link_fault result }
    ensures write_fault { has_failed writer.new ≡ is_write_fault result }
{
    match tool {
        Tool::Read(call) => run_read(&call, link, writer),
        Tool::Write(call) => run_write(&call, link, writer),
        Tool::WhoIs(search) => run_whois(&search, link, writer),
        Tool::Device(device) => play(device, link),
    }
}

/// Makes the requests that the reader's lines ask for over the link, and prints their journal.
pub fn run_batch<L: Link, R: Read, W: Write>(
    batch: &Batch,
    link: &mut L,
    reader: &mut Checked<R>,
    writer: &mut Checked<W>,
) -> Result<TraceEnd, RunFault>
    requires ready { CanOpen batch.now }
    requires link { L.has_failed link.old ≡ false }
    requires reader { has_failed reader.old ≡ false }
    requires writer { has_failed writer.old ≡ false }
    ensures runs { BatchRuns R.remaining W.contents batch.now reader.old reader.new writer.old writer.new
        (L.seen link.old) (L.seen link.new) result }
    ensures link_fault { result ≢ Err write_failed → L.has_failed link.new ≡ is_of_link result }
    ensures write_fault { (has_failed writer.new ≡ true) ↔ (result ≡ Err write_failed) }
{
    run_requests(setup_of(batch), link, reader, writer)
}

/// Returns the socket that a tool needs.
pub fn binding_for(tool: &Tool) -> Binding
    ensures { result ≡ binding_of tool.now }
{
    match tool {
        Tool::Read(call) | Tool::Write(call) => client_at(call.port),
        Tool::WhoIs(search) => client_at(search.port),
        Tool::Device(device) => tolerant_at(device.port),
    }
}

// The sockets of the system as a network.
impl<R: Net + Clock + Clone + Drop> Network for Sockets<R> {
    type Socket = UdpLink<SystemSocket<R>>;

    type NoSocket = NoSocket<R>;

    ghost gives = { λ network binding socket.
        IfOk socket (λ link. Binds binding.at link.socket.log.items
        × (⟦<UdpLink<SystemSocket<R>> as Link>⟧.seen link
        ≡ account_over binding.refused link.socket.log.items []))
        × IfErr socket (λ none. (none.sockets ≡ network) × BindsAtMost binding.at none.log.items) };

    fn bind(self, binding: Binding) -> Result<UdpLink<SystemSocket<R>>, NoSocket<R>>
        ensures gives { ⟦<Sockets<R> as Network>⟧.gives self binding result }
        ensures sound { IfOk result (λ link. ⟦<UdpLink<SystemSocket<R>> as Link>⟧.has_failed link ≡ false) }
    {
        UdpLink::bind_with(self, binding.at, binding.refused)
    }
}

// Runs the words of the program's call, or reports why they could not be read.
fn run_called<N: Network + Drop, R: Read, W: Write>(
    alloc: Global,
    typed: io::Result<env::Args>,
    network: N,
    reader: &mut Checked<R>,
    writer: &mut Checked<W>,
) -> Ran<N, N::Socket, N::NoSocket>
    requires reader { has_failed reader.old ≡ false }
    requires writer { has_failed writer.old ≡ false }
    ensures { IsCalled N.gives (outside N.Socket.Link R.Read W.Write) network reader.old reader.new writer.old
        writer.new result (texts_of typed) }
{
    let typed = match words_typed(alloc, typed) {
        Ok(typed) => typed,
        Err(error) => return Ran::only(Report::from(error), network),
    };
    match words_of(alloc, &typed) {
        Ok(words) => run_words(alloc, &words, network, reader, writer),
        Err(error) => Ran::only(Report::from(Fault::Usage(UsageFault::from(error))), network),
    }
}

// Returns the words as they were typed, in their order.
fn words_typed(alloc: Global, typed: io::Result<env::Args>) -> io::Result<Vec<String>>
    ensures ok { IfOk result (λ words. texts_of typed ≡ Ok (map string_bytes words.items)) }
    ensures err { IfErr result (λ error. MatchResult typed (λ words. error_kind error ≡ OutOfMemory) (λ e. error ≡ e)) }
{
    let mut words = Vec::new(alloc);
    for word in typed? {
        words.push(word)?;
    }
    Ok(words)
}

// Runs a job over the socket that it needs, if it needs one, or reports that there is none.
fn run_job<N: Network + Drop, R: Read, W: Write>(
    job: Job,
    network: N,
    reader: &mut Checked<R>,
    writer: &mut Checked<W>,
) -> Ran<N, N::Socket, N::NoSocket>
    requires ready { CanRun job }
    requires reader { has_failed reader.old ≡ false }
    requires writer { has_failed writer.old ≡ false }
    ensures { RunsJob N.gives (outside N.Socket.Link R.Read W.Write) network reader.old reader.new
        writer.old writer.new result job }
{
    let Some(binding) = asked_by(&job) else {
        return Ran::only(Report::from(trace(reader, writer)), network);
    };
    match network.bind(binding) {
        Ok(mut link) => Ran {
            report: run_over(job, &mut link, reader, writer),
            socket: Some(Ok(link)),
            unasked: None,
        },
        Err(none) => Ran {
            report: Report::from(Fault::Link(LinkFault)),
            socket: Some(Err(none)),
            unasked: None,
        },
    }
}

// Runs a job that asks for a socket over the link that it got.
fn run_over<L: Link, R: Read, W: Write>(
    job: Job,
    link: &mut L,
    reader: &mut Checked<R>,
    writer: &mut Checked<W>,
) -> Report
    requires ready { CanRun job }
    requires asks { IsSomeAnd (asked_by job) (λ _. ⊤) }
    requires link { L.has_failed link.old ≡ false }
    requires reader { has_failed reader.old ≡ false }
    requires writer { has_failed writer.old ≡ false }
    ensures { RunsLinked (outside L.Link R.Read W.Write) reader.old reader.new writer.old writer.new result job link.old
        link.new }
{
    match job {
        Job::Trace => unreachable!(),
        Job::Run(batch) => Report::from(run_batch(&batch, link, reader, writer)),
        Job::Use(tool) => Report::from(run_tool(tool, link, writer)),
    }
}

// Returns the socket that a job needs, if it needs one.
fn asked_by(job: &Job) -> Option<Binding>
    ensures { result ≡ asked_by job.now }
{
    match job {
        Job::Trace => None,
        Job::Run(batch) => Some(tolerant_at(batch.port)),
        Job::Use(tool) => Some(binding_for(tool)),
    }
}

// Returns the socket of many requests or of a server: like a client's, but a datagram that the system refuses counts as
// lost.
fn tolerant_at(port: u16) -> Binding
    ensures { result ≡ tolerant_at port }
{
    Binding {
        refused: OnRefusal::IsLost,
        ..client_at(port)
    }
}

// Returns a client's socket: at every address of this machine; the port 0 is any free one.
fn client_at(port: u16) -> Binding
    ensures { result ≡ client_at port }
{
    Binding {
        at: Peer {
            ip: 0,
            port,
            route: None,
        },
        refused: OnRefusal::Fails,
    }
}

// Returns the settings of a batch.
fn setup_of(batch: &Batch) -> Setup
    requires { CanOpen batch.now }
    ensures { IsSetupOf batch.now result }
{
    Setup {
        config: Config {
            timeout: batch.timeout,
            retries: batch.retries,
        },
        window: batch.window as usize,
    }
}

// Plays the demonstration device.
fn play<L: Link>(device: Serve, link: &mut L) -> Result<Exit, ToolFault>
    requires { L.has_failed link.old ≡ false }
    ensures plays { DevicePlays device (L.seen link.old) (L.seen link.new) result }
    ensures link_fault { L.has_failed link.new ≡ is_link_fault result }
    ensures write_fault { is_write_fault result ≡ false }
{
    let mut played = demo(device.info);
    match serve(link, &mut played, device.count) {
        Ok(_) => Ok(Exit::Good),
        Err(fault) => Err(fault),
    }
}

impl<N: Drop, L: Drop, F: Drop> Ran<N, L, F> {
    // Returns a run in which nothing was done, with this report.
    fn only(report: Report, network: N) -> Self
        ensures { result ≡ record { report = report; socket = None; unasked = Some network } }
    {
        Ran {
            report,
            socket: None,
            unasked: Some(network),
        }
    }
}
