//! The program: its words, UDP sockets, standard input, output and error.
#![tactic(auto)]

ghost use Rattle.std.specs.{Prelude.◌≡◌, Process.exit_status};
ghost use Rattle.{bac_print.specs.fresh, bac_tools.specs.{Outside.outside, Program.{IsRun, texts_of}}};

mod laws;

use bac_tools::{Finished, Link, Network, NoSocket, Sockets, SystemSocket, UdpLink, run_program};
use std::alloc::Global;
use std::env;
use std::io::{self, Read, Write};
use std::net::Net;
use std::process::ExitCode;
use std::time::Clock;

fn main(rt: HostRuntime) -> ExitCode {
    let (alloc, typed) = (rt.alloc(), env::args(&rt));
    let (reader, writer, errors) = (rt.stdin(), rt.stdout(), rt.stderr());
    let sockets = Sockets::new(rt, alloc);
    exit_code(run(alloc, typed, sockets, reader, writer, errors))
}

// The program over any sockets, reader and writers. Its type gives it access to nothing else, and of the runtime only
// to one socket, through `Sockets`.
fn run<H: Net + Clock + Clone + Drop, R: Read + Drop, W: Write + Drop, E: Write + Drop>(
    alloc: Global,
    typed: io::Result<env::Args>,
    sockets: Sockets<H>,
    reader: R,
    writer: W,
    errors: E,
) -> Finished<Sockets<H>, UdpLink<SystemSocket<H>>, NoSocket<H>, R, W, E>
    ensures { IsRun ⟦<Sockets<H> as Network>⟧.gives
        (outside ⟦<UdpLink<SystemSocket<H>> as Link>⟧ R.Read W.Write)
        E.contents sockets (fresh reader) result.reader (fresh writer) result.writer (fresh errors) result.errors
        result.ran (texts_of typed) }
{
    run_program(alloc, typed, sockets, reader, writer, errors)
}

// Returns the status with which the program ends.
fn exit_code<N: Drop, L: Drop, F: Drop, R: Drop, W: Drop, E: Drop>(
    ended: Finished<N, L, F, R, W, E>,
) -> ExitCode
    ensures { exit_status result ≡ ended.ran.report.status }
{
    let ran = ended.ran;
    ExitCode::from(ran.report.status)
}
