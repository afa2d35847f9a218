//! A write that a device has accepted.

ghost use Rattle.std.specs.Prelude.{◌≤◌};

use bac_wire::ObjectId;

/// A write of a present value that a device has accepted.
#[derive(Clone, Copy)]
pub(crate) struct PlaceWrite {
    pub(crate) object: ObjectId,
    /// The priority, 1 to 16; 1 is the most urgent.
    pub(crate) priority: u8,
    /// The value; None is NULL.
    pub(crate) value: Option<u32>,
    ghost least: { 1 ≤ priority },
    ghost most: { priority ≤ 16 },
}
