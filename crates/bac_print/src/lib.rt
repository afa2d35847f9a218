//! Text that is printed: numbers, octets, peers, values, and how a request ended. Reading is in `bac_text`.
//!
//! [`Checked`] is a reader or a writer that remembers whether it failed, and [`Page`] gathers text for a writer.
//! [`Page::folding`] makes a page whose long lines go on in lines that begin with `#+`. [`show_value`] prints values,
//! and [`show_outcome`] how a request ended, each on a new page; the methods of [`Page`] and [`print_outcome`] print on
//! a given page. `specs/Values.antt` defines the text of a value.
//!
//! From `examples_of_values` in `src/examples.rt`, which is proved: octets, and their texts.
//!
//! ```text
//! ensures real { PrintsAs (0x44 ∷ 0x42 ∷ 0x90 ∷ 0x99 ∷ 0x9a ∷ []) "4290999a" }
//! ensures octet_string { PrintsAs (0x63 ∷ 0x12 ∷ 0x34 ∷ 0xff ∷ []) "X'1234ff'" }
//! ```
//!
//! The caller must keep to two conditions: the writer that it passes to [`show_value`] or [`show_outcome`] has not
//! failed yet, and each [`Page`] is finished ([`Page::finish`]), which says whether its writer failed. The octets may
//! be any.
#![tactic(auto)]

mod checked;
mod examples;
mod ghost_list;
pub mod laws;
mod message;
mod noted;
mod outcomes;
mod page;
mod peer_texts;
mod values;

pub use checked::{Checked, WriteFailed};
pub use ghost_list::{GhostList, NoteOf};
pub use message::FaultMessage;
pub use outcomes::{print_outcome, show_outcome};
pub use page::Page;
pub use values::show_value;
