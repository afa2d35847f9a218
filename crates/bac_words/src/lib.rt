//! The command line of `bactool`, and the job that its words ask for.
//!
//! [`words_of`] puts the tool's name in front if the program was called by one. [`parse_words`] returns the [`Job`]
//! that the words ask for, or the [`UsageFault`] that is wrong with them. [`bactool`] is the command by which `clap`
//! reads the words. `specs/Command.antt` has its rules, and `specs/Job.antt` defines the job of given words.
//!
//! From `examples_of_requests` in `src/examples.rt`, which is proved: these words ask for a read of the present value
//! (85) of analog-input 5.
//!
//! ```text
//! ensures read { IsOrdered (codes "bactool bacrp 1234 0 5 85 --mac 192.0.2.7")
//!     (Ok (Use (Read (usual (0x0c ∷ 0x00 ∷ 0x00 ∷ 0x00 ∷ 0x05 ∷ 0x19 ∷ 0x55 ∷ []))))) }
//! ```
//!
//! No call has a precondition. `run_words` of `bac_tools` (`src/program.rt`) calls [`parse_words`] and runs the job
//! that it returns. It is proved there that words without a job are reported, and that nothing else is done then.
#![tactic(auto)]

mod command;
mod examples;
mod faults;
mod help;
mod job;
mod marks;
mod parse;
mod telling;
mod words;

pub use command::bactool;
pub use faults::UsageFault;
pub use job::{Batch, Job, Serve, Tool};
pub use parse::parse_words;
pub use telling::Telling;
pub use words::words_of;
