//! Many requests over one link: the lines of a reader ask for requests one after another, and the printed journal is a
//! script of `bactrace`.
//!
//! [`run_requests`] reads lines `read ..` and `write ..`, passes them to a client, and sends the client's datagrams
//! over the link. It prints a journal: a line for each event of the client, as `bactrace` reads it, and after it each
//! note of the client as a remark. Two lines are not for the client: `who ..` sends a Who-Is, and `wait ..` takes turns
//! for a time.
//!
//! `specs/Journal.antt` defines the printed text and the sends of all acts of a run, `specs/Course.antt` when each act
//! is due, and [`laws`] states what follows.
//!
//! A call, from `bac_uses` (`src/run.rt`). There it is proved that without a fault no line was bad, that the client's
//! notes are those of the look-ahead, that `bactrace` prints them from the journal, and that all sends are those of the
//! notes:
//!
//! ```rust
//! let setup = Setup::new(config, 8).unwrap();
//! run_requests(setup, link, reader, writer)
//! ```
#![tactic(auto)]

mod examples;
mod fault;
pub mod laws;
mod own;
mod running;
mod setup;
mod turns;

pub use fault::RunFault;
pub use running::run_requests;
pub use setup::Setup;
