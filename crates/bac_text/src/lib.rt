//! Reading the words of a line of a script or of a command line: numbers, octets, peers, values, and service bodies
//! made from these. Printing is in `bac_print`.
//!
//! [`Words`] splits a line into words, and [`read_number`], [`read_datagram`] and [`peer_in`] read them. [`BodyRoom`]
//! makes service bodies from words. `specs/ValueWords.antt` defines the value of a word. [`Job`] is what the words of a
//! command line ask for.
//!
//! From `examples_of_values` in `src/examples.rt`, which is proved: a tag's number and a word, and their octets.
//!
//! ```text
//! ensures real { WritesPair "4" "4290999A" (0x44 ∷ 0x42 ∷ 0x90 ∷ 0x99 ∷ 0x9a ∷ []) }
//! ensures octet_string { WritesPair "6" "1234ff" (0x63 ∷ 0x12 ∷ 0x34 ∷ 0xff ∷ []) }
//! ```
//!
//! The caller must keep to one condition: the priority of a write is 1 to 16. Words and texts may be any.
#![tactic(auto)]

mod bodies;
mod examples;
mod hex_digits;
mod hex_lanes;
mod jobs;
pub mod laws;
mod numbers;
mod pairs;
mod parameters;
mod peers;
mod search;
mod value_words;
mod words;

pub use bac_pdu::LONGEST_BODY;
pub use bodies::BodyRoom;
pub use hex_digits::{LONGEST_DATAGRAM, LONGEST_LINE, read_datagram};
pub use jobs::{Call, Search};
pub use numbers::read_number;
pub use pairs::PairFault;
pub use parameters::{priority_from, read_write_index};
pub use peers::{Reach, peer_in, plain_peer_in, reach_in, read_peer};
pub use search::{Delimiter, position_of_end};
pub use words::{WordSource, Words};
