//! The client's side of BACnet transactions, without sockets: which requests are open, when each is sent, and how it
//! ends. The caller hands in requests, datagrams and the time, and sends what the client returns to be sent.
//!
//! [`Config::new`] has the timeout and the retries, and [`Client::new`] makes a client with these settings.
//! [`Client::submit`] opens a request and returns its ticket; [`Client::to_send`] lends the datagram that the caller
//! sends. [`Client::datagram`] is called with each datagram that comes, and says which request it ends.
//! [`Client::tick`] is called with the time, and says which requests are to be sent again and which have ended.
//!
//! Each call of [`Client`] is one step of a machine that `specs/Machine.antt` defines. `specs/Lookahead.antt` defines
//! the result of a whole list of calls without a machine. [`run_is_lookahead`] states that these two agree.
//!
//! From `examples_of_a_request` in `src/examples.rt`, which is proved: the notes on a read with ticket 0 and invoke id
//! 1, each note with the position of its event.
//!
//! ```text
//! // No answer comes.
//! ensures retries { told usual 0 (read ∷ Tick 2999 ∷ Tick 3000 ∷ Tick 6000 ∷ Tick 9000 ∷ Tick 12000 ∷ []) ≡
//!     (0, sent 0 1) ∷ (2, sent 0 1) ∷ (3, sent 0 1) ∷ (4, sent 0 1) ∷ (5, TimedOut 0) ∷ [] }
//! ```
//!
//! The caller does two things. It sends what [`Client::to_send`] lends, once a request is opened and at each
//! [`DueEntry::Resend`]. It calls [`Client::tick`] again and again, since only a tick finds what is due. No call of
//! [`Client`] has a precondition.
//!
//! The calls of `two_reads` in `bac_uses` (`src/client.rt`). There it is proved that a read is sent again exactly if
//! the received datagram does not answer it:
//!
//! ```rust
//! let mut client = Client::new(config, 0);
//! let _value = client.submit(device, READ_PROPERTY, &VALUE);
//! let _name = client.submit(device, READ_PROPERTY, &NAME);
//! let _ended = client.datagram(from, heard);
//! client.tick(3000)
//! ```
#![tactic(auto)]

mod client;
mod comparing;
mod config;
mod due;
mod event;
mod examples;
mod limits;
mod outcome;
mod request;
mod running;
mod table;
mod theorems;

pub use bac_pdu::LONGEST_BODY;
pub use client::{Client, SubmitFault};
pub use comparing::{clones, constants_are_limits, equals};
pub use config::Config;
pub use due::{Due, DueEntry};
pub use event::{Event, Note};
pub use limits::PLACES;
pub use outcome::{Ended, Outcome};
pub use running::{Watcher, run};
pub use theorems::{
    answers_are_by_invoke_id, answers_in_words, client_is_lookahead, invoke_ids_come_back_late,
    no_request_waits_for_ever, output_looks_back, passed_invoke_ids_are_held, run_is_lookahead,
    stations_are_compared_whole, table_is_bounded,
};
