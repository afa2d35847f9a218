//! Headers, APDUs and service bodies of BACnet/IP (ANSI/ASHRAE 135, Annex J and clauses 6, 20.1 and 21).
//!
//! For reading, [`open_datagram`] returns the sender of a datagram and the APDU that it carries, [`read_apdu`] the
//! APDU's parts, and a reader of each service, like [`read_read`] or [`read_ack`], the contents of its body;
//! [`read_found`] reads the I-Am that a datagram carries. For writing, a writer of each service, like [`write_read`],
//! writes the body into a frame, [`write_apdu`] the APDU, and [`wrap`] the datagram around it. `specs/Datagram.antt`
//! and `specs/Apdu.antt` define the meaning of the octets.
//!
//! From `examples_of_datagrams` in `src/examples.rt`, which is proved: a whole request, ReadProperty (0C) with invoke
//! id 1.
//!
//! ```text
//! // Seventeen octets (11), for one device (0A), which is to reply (04).
//! ensures datagram { wrapped None true (0x00 ∷ 0x05 ∷ 0x01 ∷ 0x0c ∷ read_octets present_value) ≡
//!     0x81 ∷ 0x0a ∷ 0x00 ∷ 0x11 ∷ 0x01 ∷ 0x04 ∷ 0x00 ∷ 0x05 ∷ 0x01 ∷ 0x0c ∷ read_octets present_value }
//! ```
//!
//! The caller must keep to these conditions: a written APDU is not a SegmentACK, and its code is at most 15; a value is
//! whole items (`is_region` of `bac_wire`), a priority 1 to 16, and the object of an I-Am a device. Octets that are
//! read may be any.
//!
//! The calls of `asking` in `bac_uses` (`src/pdu.rt`), which proves that there is room, and which datagram they make:
//!
//! ```rust
//! write_read(&mut body, &request).unwrap();
//! let apdu = Apdu::Confirmed {
//!     part: None,
//!     code: 5,
//!     id: 1,
//!     service: READ_PROPERTY,
//!     body: body.as_slice(),
//! };
//! write_apdu(&mut octets, &apdu).unwrap();
//! wrap(to, true, octets.as_slice(), &mut frame).unwrap();
//! ```
#![tactic(auto)]

mod apdu;
mod bits;
mod datagram;
mod discovery;
mod examples;
mod failure;
mod found;
pub mod laws;
mod peer;
mod property;
mod reject;
mod route;
mod service;
mod value;
mod writing;

pub use apdu::{Apdu, LONGEST_BODY, Part, announced, read_apdu, write_apdu};
pub use datagram::{Carried, open_datagram, wrap, wrap_across, wrap_within};
pub use discovery::{DEVICE, IAm, WhoIs, read_iam, read_whois, write_iam, write_whois};
pub use failure::{read_error, write_error};
pub use found::{Found, read_found};
pub use peer::Peer;
pub use property::{Ack, ReadRequest, WriteRequest, read_ack, read_read, read_write};
pub use reject::RejectReason;
pub use route::{ADDRESS_OCTETS, Route};
pub use service::{I_AM, READ_PROPERTY, WHO_IS, WRITE_PROPERTY};
pub use writing::{begin_ack, end_ack, write_ack, write_read, write_write};
