//! Tags, values and regions of BACnet as octets (ANSI/ASHRAE 135, clause 20.2). Reading copies nothing, and no memory
//! is allocated.
//!
//! Begin with [`Value`], and with [`Frame`], the buffer for writing. [`write_value`] appends the shortest spelling of a
//! value to a frame; [`read_value`] reads a value from the front of octets, in any of its spellings. [`region`] skips
//! whole items up to a closing tag. For everything else there are [`read_tag`] and [`write_tag`]. `specs/Datum.antt`
//! defines the spellings of a value, and [`laws`] has laws of all spellings.
//!
//! From `examples_of_octets` in `src/examples.rt`, which is proved: a Real is the octets of its number, and a tag
//! before them.
//!
//! ```text
//! // 72.3, by the four octets of its single precision.
//! ensures real { WritesValue (real (0x42 ∷ 0x90 ∷ 0x99 ∷ 0x9a ∷ [])) (0x44 ∷ 0x42 ∷ 0x90 ∷ 0x99 ∷ 0x9a ∷ []) }
//! ```
//!
//! The caller must keep to these conditions: a written value is sound ([`Value::sound`]), the number of a tag is at
//! most 254, and [`Frame::truncate`] keeps no more octets than there are. Octets that are read may be any.
//!
//! A call, from `written_alone` of `bac_uses` (`src/wire.rt`), which proves that the written value can be read back:
//!
//! ```rust
//! frame.clear();
//! write_value(frame, value)?;
//! let (_again, count) = read_value(frame.as_slice()).unwrap();
//! ```
#![tactic(auto)]

mod examples;
mod frame;
mod items;
pub mod laws;
mod object_id;
mod tag;
mod value;
mod work;

pub use frame::{FRAME_OCTETS, Frame, Full};
pub use items::{NESTING, is_region, region};
pub use object_id::ObjectId;
pub use tag::{Shape, Tag, read_tag, tag_and_rest, write_tag};
pub use value::{Value, octet_count, read_value, value_and_rest, write_value};
pub use work::Work;
