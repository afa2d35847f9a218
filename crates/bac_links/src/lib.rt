//! The tools over a link: their sends, text and answer are a function of the answers of the link.
//!
//! A [`Link`] sends and receives datagrams and knows the time: [`UdpLink`] over a socket, [`MemoryLink`] in memory.
//! [`run_read`] and [`run_write`] make one request and print its end, [`run_whois`] prints the devices that it finds,
//! and [`serve`] runs a device. `specs/Call.antt`, `specs/Search.antt` and `specs/Serve.antt` define the moves of each
//! (`specs/Asking.antt`): what it asks of its link.
//!
//! Tests of whole runs over links in memory, with their sends and their text, are in `tool_trials` (`src/tests/links`).
//!
//! A call, from `bac_uses` (`src/links.rt`). There it is proved that only the read was made, and that if it met no
//! fault, the writer took the line of its end, and the exit is that of this end:
//!
//! ```rust
//! let mut link = UdpLink::bind_with(sockets, anywhere, OnRefusal::Fails)?;
//! Ok((run_read(call, &mut link, writer), link))
//! ```
#![tactic(auto)]

mod call;
mod datagram;
mod examples;
mod exit;
mod fault;
mod history;
pub mod laws;
mod link;
mod memory;
mod search;
mod serving;
mod socket;
mod sockets;
mod udp;

pub use call::{Purpose, run_read, run_write};
pub use datagram::{DATAGRAM_OCTETS, Datagram};
pub use exit::Exit;
pub use fault::ToolFault;
pub use history::{CallNote, Log, SystemCallMade};
pub use link::{Link, LinkFault, most_turns, turn_wait};
pub use memory::{MemoryLink, Step};
pub use search::run_whois;
pub use serving::serve;
pub use socket::{Socket, SystemSocket};
pub use sockets::{NoSocket, Sockets};
pub use udp::{OnRefusal, UdpLink};
