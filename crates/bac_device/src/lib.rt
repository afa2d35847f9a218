//! A small BACnet device: commandable points, priority arrays and exact replies (ANSI/ASHRAE 135, clauses 12, 15 and
//! 19.2).
//!
//! [`DeviceInfo::new`] makes the identity of a device, [`Device::new`] makes the device, and [`Device::add`] adds
//! points, each a [`Point`]; [`demo`] has eleven of them. [`Device::answer`] writes the reply to a datagram, if there
//! is one, and makes the write that it accepts. [`Device::present`] and [`Device::place`] return values of a point.
//! `specs/Reply.antt` defines each reply as a function of the writes that were accepted before.
//!
//! From `examples_of_writes` in `src/examples.rt`, which is proved: a value is written to the demonstration device, and
//! read back.
//!
//! ```text
//! ensures places { Exchanges
//!     (makes (write valve twenty) ∷ has (of 85 valve) twenty
//!     ∷ makes (write_at 8 valve thirty) ∷ has (of 85 valve) thirty
//!     ∷ makes (write_at 8 valve null) ∷ has (of 85 valve) twenty
//!     ∷ makes (write_at 16 valve null) ∷ has (of 85 valve) zero_real ∷ []) }
//! ```
//!
//! The caller must do one thing: send the datagram that [`Device::answer`] leaves in the frame to the peer that it
//! returns. No call has a precondition.
//!
//! The calls of `one_valve` in `bac_uses` (`src/device.rt`), which proves that none of them can fail:
//!
//! ```rust
//! let mut device = Device::new(DeviceInfo::new(1234, "Heating").unwrap());
//! let valve = Point {
//!     id: ObjectId::new(1, 1).unwrap(),
//!     name: "Valve",
//!     start: 0,
//!     extra: 98,
//! };
//! device.add(&valve).unwrap();
//! ```
#![tactic(auto)]

mod accepting;
mod demonstration;
mod device;
mod examples;
mod failure;
mod info;
mod kind;
pub mod laws;
mod numbers;
mod point;
mod property;
mod reply;
mod write;

pub use demonstration::demo;
pub use device::{AddFault, Device, POINTS};
pub use info::DeviceInfo;
pub use point::{NAME_OCTETS, Point};
