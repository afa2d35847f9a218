//! The tools, from their words to the status of the program. This crate has every name that a program needs.
//!
//! [`run_program`] does everything: it takes the words that the program was called with ([`words_of`]), reads them
//! ([`parse_words`]), asks a [`Network`] for the one socket that the job needs, runs the job, and returns a [`Report`]
//! with the status and the reported fault. [`run_words`] does this for given words.
//!
//! [`run_tool`] runs a tool over a given link; [`binding_for`] says which socket a tool needs. [`run_batch`] makes many
//! requests over one link. `specs/Program.antt` defines the effect of the words. The other names are from the crates
//! below, which define and prove them.
//!
//! Tests of whole runs, from the words to the status, are in `tool_trials` (`src/tests/tools.rt`).
#![tactic(auto)]

mod examples;
pub mod laws;
mod program;
mod report;
mod telling;

pub use bac_links::{
    DATAGRAM_OCTETS, Datagram, Exit, Link, LinkFault, MemoryLink, NoSocket, OnRefusal, Socket,
    Sockets, Step, SystemSocket, ToolFault, UdpLink, run_read, run_whois, run_write, serve,
};
pub use bac_print::{Checked, FaultMessage, WriteFailed, show_outcome, show_value};
pub use bac_run::{RunFault, Setup, run_requests};
pub use bac_script::{TraceEnd, TraceFault, trace};
pub use bac_text::{Call, Search, read_peer};
pub use bac_words::{Batch, Job, Serve, Telling, Tool, UsageFault, parse_words, words_of};
pub use program::{
    Binding, Finished, Network, Ran, binding_for, run_batch, run_program, run_tool, run_words,
};
pub use report::{Fault, Report, run_status, status, tell, trace_status, usage_status};
