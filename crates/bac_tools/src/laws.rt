//! Laws of the definitions that the contracts cite, and of the public types. Each function has an empty body, and its
//! clauses are the laws.
ghost use Rattle.std.specs.{declared.io.ErrorKind.ErrorKind, Prelude.{Err, List, None, Ok, Result, Some, ◌≡◌, ◌⊎◌}};
ghost use Rattle.{clap.specs.Words.Text, bac_wire.specs.MakesCopies, bac_print.specs.{fresh, has_failed}};
ghost use Rattle.bac_tools.specs.{AreAlike, AreGivenAlike, AsksAtMostOnce, CalledRun, Checked, GivesSockets, IsRun};
ghost use Rattle.bac_tools.specs.{IsStatusOf, Memory, Only, outside, ProgramRun, Ran, report_of, RunsAsCalls};
ghost use Rattle.bac_tools.specs.{RunsUnasked, RunsWithout, Usage, Program.Program};
ghost use Rattle.{bac_links.specs.{Entry, SystemCall.SystemCall}, bac_words.specs.words_called};

use crate::program::{Binding, Network};
use std::io::{Read, Write};

/// The program is a function of its words, of the answers to its socket and of the octets that it reads. Take two runs
/// with the same words. If both asked for a socket, both had one or neither had. The readers gave the same octets, and
/// met their end as often; or one run was cut off, and its reader gave only the first octets of the other's and did not
/// meet its end (and if that run is one of many requests, its reader could be read on).
///
/// As long as the sockets were answered alike, the runs made the same calls and sends. Then their next calls are the
/// same; or both are over with the same report; or one was cut off, because there was no memory for its words or its
/// writer failed. If a run is over, both printed the same text, or the beginning of it if they were cut off. If `clap`
/// does not accept the words, each report has an error that `clap` may give for these words.
///
/// Two calls with the same `typed` run the same words, `words_called typed`, or lack memory for them (law
/// [`a_call_runs_its_words`]). The last report of the program that is called with words is a function of the report of
/// the words and of whether its writer has failed. That report determines the message on `errors`, except a text of
/// `clap`.
pub fn the_program_is_a_function<
    M: Network,
    N: Network,
    R: Read,
    S: Read,
    V: Write,
    W: Write,
    D: Write,
    E: Write,
>()
    ensures words { (words : List Text)
        (one : ProgramRun M.gives
        (outside M.Socket.Link R.Read V.Write)
        words)
        (other : ProgramRun N.gives
        (outside N.Socket.Link S.Read W.Write)
        words)
        (first rest other_first other_rest : List Entry)
        → AreGivenAlike one other first rest other_first other_rest
        → AreAlike one other first rest other_first other_rest }
    ensures called { (typed : Result (List Text) ErrorKind)
        (one : CalledRun M.gives
        (outside M.Socket.Link R.Read V.Write)
        D.contents typed)
        (other : CalledRun N.gives
        (outside N.Socket.Link S.Read W.Write)
        E.contents typed)
        → one.run.report ≡ other.run.report → has_failed one.writer' ≡ has_failed other.writer'
        → one.ran.report ≡ other.ran.report }
{}

/// A call with these words runs `words_called` of them, or lacks memory for them. So two calls with the same `typed`
/// run the same words, and the clause `words` of [`the_program_is_a_function`] is about these words, up to the point
/// where help is printed.
pub fn a_call_runs_its_words<N: Network, R: Read, W: Write, E: Write>()
    ensures { (network : N) (reader : R) (reader' : Checked R) (writer : W) (writer' : Checked W)
        (errors errors' : Checked E) (ran : Ran N N.Socket N.NoSocket) (typed : List Text)
        (run : IsRun N.gives
        (outside N.Socket.Link R.Read W.Write)
        E.contents network (fresh reader) reader' (fresh writer) writer' errors errors' ran (Ok typed))
        → ((words : ProgramRun N.gives
        (outside N.Socket.Link R.Read W.Write)
        (words_called typed))
        × (words.network ≡ network) × (words.reader ≡ reader) × (words.reader' ≡ reader') × (words.writer ≡ writer)
        × (words.writer' ≡ run.unhelped) × (words.ran ≡ record ran { report = run.report }))
        ⊎ Only N.gives
        (outside N.Socket.Link R.Read W.Write)
        network (fresh reader) reader' (fresh writer) run.unhelped (record ran { report = run.report })
        (report_of (Usage Memory)) }
{}

/// The status is that of the reported fault, or 0 or 1 without a fault, whatever the words are.
pub fn the_status_is_that_of_the_fault<N: Network, R: Read, W: Write, E: Write>()
    ensures run { (network : N) (reader reader' : Checked R) (writer writer' : Checked W) (errors errors' : Checked E)
        (ran : Ran N N.Socket N.NoSocket) (typed : Result (List Text) ErrorKind)
        → IsRun N.gives
        (outside N.Socket.Link R.Read W.Write)
        E.contents network reader reader' writer writer' errors errors' ran typed
        → IsStatusOf ran.report.fault ran.report.status }
    ensures words { (network : N) (reader reader' : Checked R) (writer writer' : Checked W)
        (ran : Ran N N.Socket N.NoSocket) (words : List Text)
        → Program N.gives
        (outside N.Socket.Link R.Read W.Write)
        network reader reader' writer writer' ran words → IsStatusOf ran.report.fault ran.report.status }
{}

/// From the words to the calls of the system, over any network that gives sockets.
///
/// If the program had a socket, its words asked for a tool or for many requests. It printed and reported what the job's
/// definition says, and wrote the message of a fault to `errors`; for a tool the reader was not read. The calls of the
/// system are: one for a socket, at the address that the job needs; then those for the calls of the link, one after
/// another; and no others.
///
/// If no socket was available, nothing was read or printed. The system was asked for at most one socket, and for
/// nothing else: the network was kept, and gave nobody a socket.
///
/// If no socket was asked for, the network is handed back unchanged: a script was run, or nothing was done except to
/// report why the words give no job.
pub fn a_run_is_its_calls<N: Network, R: Read, W: Write, E: Write>()
    ensures had { (log : N.Socket → List SystemCall) (network : N) (reader reader' : Checked R)
        (writer writer' : Checked W) (errors errors' : Checked E) (ran : Ran N N.Socket N.NoSocket)
        (typed : List Text) (link : N.Socket)
        → GivesSockets N.gives N.Socket.seen log
        → IsRun N.gives
        (outside N.Socket.Link R.Read W.Write)
        E.contents network reader reader' writer writer' errors errors' ran (Ok typed) → ran.socket ≡ Some (Ok link)
        → RunsAsCalls N.Socket.Origin R.remaining W.contents E.contents reader reader' writer writer' errors errors'
        ran.report (words_called typed) (log link) }
    ensures none { (kept : N.NoSocket → N) (log : N.NoSocket → List SystemCall) (network : N)
        (reader reader' : Checked R) (writer writer' : Checked W) (errors errors' : Checked E)
        (ran : Ran N N.Socket N.NoSocket) (typed : List Text) (none : N.NoSocket)
        → AsksAtMostOnce N.gives kept log
        → IsRun N.gives
        (outside N.Socket.Link R.Read W.Write)
        E.contents network reader reader' writer writer' errors errors' ran (Ok typed) → ran.socket ≡ Some (Err none)
        → RunsWithout E.contents network (kept none) reader reader' writer writer' errors errors' ran.report
        (words_called typed) (log none) }
    ensures unasked { (network : N) (reader reader' : Checked R) (writer writer' : Checked W)
        (errors errors' : Checked E) (ran : Ran N N.Socket N.NoSocket)
        (typed : Result (List Text) ErrorKind)
        → IsRun N.gives
        (outside N.Socket.Link R.Read W.Write)
        E.contents network reader reader' writer writer' errors errors' ran typed → ran.socket ≡ None
        → RunsUnasked R.remaining W.contents E.contents network reader reader' writer writer' errors errors' ran typed }
{}

/// A clone equals its original, and allocates no memory.
pub fn clones()
    ensures binding { MakesCopies ⟦<Binding as Clone>⟧.is_clone ⟦<Binding as Clone>⟧.is_infallible }
{}
