//! Laws of the program over the sockets of this machine. Each function has an empty body, and its clauses are the laws.
ghost use Rattle.std.specs.{declared.io.ErrorKind.ErrorKind, Prelude.{Err, List, None, Ok, Result, Some, ℕ, ◌≡◌}};
ghost use Rattle.bac_print.specs.declared.checked.Checked.{Checked};
ghost use Rattle.{bac_links.specs.Socket.OverSocket, bac_words.specs.words_called};
ghost use Rattle.bac_tools.specs.{Calls.{RunsAsCalls, RunsUnasked, RunsWithout}, Outside.outside, Program.IsRun};

use bac_tools::{Link, Network, NoSocket, Ran, Sockets, SystemSocket, UdpLink};
use std::io::{Read, Write};
use std::net::Net;
use std::time::Clock;

/// From the words to all that is written to the streams and asked of the system.
///
/// If the program had a socket, its words asked for a tool or for many requests. It printed and reported what the job's
/// definition says, and wrote the message of a fault to standard error; for a tool standard input was not read. The
/// calls of the system are: one for a socket, at the address that the job needs; then those for the calls of the link,
/// one after another; and no others.
///
/// If no socket was available, nothing was read or printed. The system was asked for at most one socket, and for
/// nothing else: the runtime was kept, and gave nobody a socket.
///
/// If no socket was asked for, the runtime is unchanged: a script was run, or nothing was done except to report why the
/// words give no job.
pub fn the_program_is_its_calls<H: Net + Clock + Clone + Drop, R: Read, W: Write, E: Write>(
    network: &Sockets<H>,
    ran: &Ran<Sockets<H>, UdpLink<SystemSocket<H>>, NoSocket<H>>,
    link: &UdpLink<SystemSocket<H>>,
    none: &NoSocket<H>,
)
    ensures had { (reader reader' : Checked R) (writer writer' : Checked W) (errors errors' : Checked E)
        (typed : List (List ℕ))
        → IsRun ⟦<Sockets<H> as Network>⟧.gives
        (outside ⟦<UdpLink<SystemSocket<H>> as Link>⟧ R.Read W.Write)
        E.contents network.now reader reader' writer writer' errors errors' ran.now (Ok typed)
        → ran.now.socket ≡ Some (Ok link.now)
        → RunsAsCalls OverSocket R.remaining W.contents E.contents reader reader' writer writer' errors errors'
        ran.now.report (words_called typed) link.now.socket.log.items }
    ensures none { (reader reader' : Checked R) (writer writer' : Checked W) (errors errors' : Checked E)
        (typed : List (List ℕ))
        → IsRun ⟦<Sockets<H> as Network>⟧.gives
        (outside ⟦<UdpLink<SystemSocket<H>> as Link>⟧ R.Read W.Write)
        E.contents network.now reader reader' writer writer' errors errors' ran.now (Ok typed)
        → ran.now.socket ≡ Some (Err none.now)
        → RunsWithout E.contents network.now none.now.sockets reader reader' writer writer' errors errors'
        ran.now.report (words_called typed) none.now.log.items }
    ensures unasked { (reader reader' : Checked R) (writer writer' : Checked W) (errors errors' : Checked E)
        (typed : Result (List (List ℕ)) ErrorKind)
        → IsRun ⟦<Sockets<H> as Network>⟧.gives
        (outside ⟦<UdpLink<SystemSocket<H>> as Link>⟧ R.Read W.Write)
        E.contents network.now reader reader' writer writer' errors errors' ran.now typed
        → ran.now.socket ≡ None
        → RunsUnasked R.remaining W.contents E.contents network.now reader reader' writer writer' errors errors' ran.now
        typed }
{}
