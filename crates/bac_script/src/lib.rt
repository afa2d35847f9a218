//! The script of `bactrace`: its lines, a client and a device that run them, and the text that is printed.
//!
//! [`trace`] runs a script from a reader to a writer, and returns a [`TraceEnd`] or the [`TraceFault`] that stopped it.
//! `specs/Line.antt` defines the meaning of a line, and `specs/Script.antt` the text of a whole script. One of the
//! [`laws`] is that a script is a function of its octets.
//!
//! From `examples_of_a_client` in `src/examples.rt`, which is proved: two lines of a script, the two lines that are
//! printed, and its end after two lines.
//!
//! ```text
//! ensures answered { IsTraced (read ∷ answer ∷ []) (sent ∷ "done 0 value 4290999a" ∷ []) (ended 2) }
//! ```
//!
//! The caller must keep to one condition: the reader and the writer have not failed yet. `run_words` of `bac_tools`
//! (`src/program.rt`) keeps to it, and there it is proved which status and which fault follow from the result of
//! [`trace`].
#![tactic(auto)]

mod examples;
mod input;
pub mod laws;
mod line;
mod long_write;
mod notes;
mod running;
mod tracing;

pub use input::{Chunk, Next, Reading};
pub use line::{Line, LineFault, LineRoom, Received, line_text, read_line};
pub use long_write::LongWrite;
pub use notes::{print_datagram, print_note};
pub use tracing::{TraceEnd, TraceFault, trace};
