//! The device: its points, its own properties, and its state after writes.

ghost use Rattle.std.specs.{List.list_any, Option.{option_and_then, option_copied}};
ghost use Rattle.std.specs.Prelude.{[], Err, IfErr, IfOk, IfSome, length, List, map, None, Ok, OnErr, OnOk, option_map};
ghost use Rattle.std.specs.{Prelude.{Some, ◌++◌, ◌<◌, ◌∷◌, ◌≡◌}, Str.bytes_eq};
ghost use Rattle.bac_wire.specs.{char_string, datum, identifier, IsSound, result_seen};
ghost use Rattle.bac_device.specs.{add_point, commanded_point, device_after, device_property, device_room, fixed_value};
ghost use Rattle.bac_device.specs.{given, Holds, NoneTo, place_after, place_at, points_of, present, present_after};
ghost use Rattle.bac_device.specs.{property_of, put, single, standing_at, value_of, with_write, Write};
ghost use Rattle.bac_device.specs.Inner.{IsSoundProperty, property_seen, write_seen};

use crate::failure::Failure;
use crate::info::DeviceInfo;
use crate::numbers::{
    APDU_TIMEOUT, APPLICATION_SOFTWARE_VERSION, DATABASE_REVISION, DESCRIPTION,
    DEVICE_ADDRESS_BINDING, FIRMWARE_REVISION, MAX_APDU, MAX_APDU_LENGTH_ACCEPTED, MODEL_NAME,
    NO_SEGMENTATION, NUMBER_OF_APDU_RETRIES, OBJECT_IDENTIFIER, OBJECT_LIST, OBJECT_NAME,
    OBJECT_TYPE, OPERATIONAL, PRESENT_VALUE, PROTOCOL_REVISION, PROTOCOL_VERSION,
    SEGMENTATION_SUPPORTED, SYSTEM_STATUS, UTF_8, VENDOR, VENDOR_IDENTIFIER, VENDOR_NAME,
};
use crate::point::{Point, StandingPoint};
use crate::property::Property;
use crate::write::PlaceWrite;
use arrayvec::ArrayVec;
use bac_pdu::DEVICE;
use bac_wire::{ObjectId, Value};
use std::marker::Model;

/// The number of points that a device has room for.
pub const POINTS: usize = 32;

/// Why a point was not added: because of the point itself, or of earlier points. This is the caller's fault.
#[derive(Clone, Copy, Debug, PartialEq, Eq)]
pub enum AddFault {
    /// The device has [`POINTS`] points already.
    TooMany,
    /// A point of the device has this object identifier.
    Twice,
    /// A point of the device, or the device itself, has this name.
    NameTwice,
    /// No device can have a point with this object type, instance, name, `start` or `extra`.
    BadPoint,
}

/// A small BACnet device with points that can be commanded.
///
/// A device has a fixed size, allocates no memory, and sends nothing itself.
#[derive(Drop)]
pub struct Device {
    info: DeviceInfo,
    points: ArrayVec<StandingPoint, POINTS>,
}

impl Model for Device {
    ghost use Rattle.bac_device.specs.Device.{DeviceState};

    ghost Value = { DeviceState };

    ghost view = { λ d. record { info = d.info; standings = d.points.items } };
}

impl Device {
    /// Returns a device without points.
    pub fn new(info: DeviceInfo) -> Self
        ensures { result ≡ device_after info [] [] }
    {
        Device {
            info,
            points: ArrayVec::new(),
        }
    }

    /// Adds a point, with every place of its priority array NULL. The places of the other points stay.
    ///
    /// # Errors
    ///
    /// The first fault in the order of [`AddFault`]; the device is then as it was.
    #[tactic(auto, using(crate::proofs::added_held), unfolding(crate::specs::add_point))]
    pub fn add(&mut self, point: &Point<'_>) -> Result<(), AddFault>
        ensures ok { OnOk result (add_point self.old (given point.now) ≡ Ok self.new) }
        ensures held { OnOk result ((writes : List Write) → Holds self.old writes
            → NoneTo (identifier point.now.id) writes → Holds self.new writes) }
        ensures fault { IfErr result (λ fault. add_point self.old (given point.now) ≡ Err fault) }
        ensures err { OnErr result (self.new ≡ self.old) }
    {
        if self.points.is_full() {
            return Err(AddFault::TooMany);
        }
        if self.point(point.id).is_some() {
            return Err(AddFault::Twice);
        }
        if self.info.name() == point.name || has_name(&self.points, point.name) {
            return Err(AddFault::NameTwice);
        }
        let Some(point) = StandingPoint::new(point) else {
            return Err(AddFault::BadPoint);
        };
        self.append(point);
        Ok(())
    }

    /// Returns the number of the present value of a point (clause 19.2), as in [`Point::start`]: that of the most
    /// urgent place that is not NULL, or `start`. `None` if the object is not a point.
    #[tactic(auto, using(crate::proofs::present_held))]
    pub fn present(&self, object: ObjectId) -> Option<u32>
        ensures standing { result ≡ option_map present (standing_at self.now (identifier object)) }
        ensures after { (writes : List Write) → Holds self.now writes
            → result ≡ present_after (points_of self.now) writes (identifier object) }
    {
        let point = self.point(object)?;
        Some(point.present())
    }

    /// Returns the number in a commandable point's place of this priority; `Some(None)` is NULL. `None` if the object
    /// is not a commandable point, or the priority is not 1 to 16.
    #[tactic(auto, using(crate::proofs::place_held))]
    pub fn place(&self, object: ObjectId, priority: u8) -> Option<Option<u32>>
        ensures standing { result ≡ option_and_then (λ standing. place_at standing priority)
            (standing_at self.now (identifier object)) }
        ensures after { (writes : List Write) → Holds self.now writes
            → result ≡ place_after (points_of self.now) writes (identifier object) priority }
    {
        self.point(object)?.place(priority)
    }

    /// Adds this point; there must be room for it.
    pub(crate) fn append(&mut self, point: StandingPoint)
        requires { length self.old.standings < device_room }
        ensures { self.new ≡ record { info = self.old.info; standings = self.old.standings ++ point ∷ [] } }
    {
        self.points.push(point);
    }

    /// Returns the instance and name of the device.
    pub(crate) fn info(&self) -> &DeviceInfo
        ensures { result.now ≡ self.now.info }
    {
        &self.info
    }

    /// Returns the property of this number of the object.
    #[tactic(auto, unfolding(crate::specs::property_of))]
    pub(crate) fn property(&self, object: ObjectId, number: u32) -> Result<Property<'_>, Failure>
        ensures value { result_seen property_seen result ≡ property_of self.now (identifier object) number }
        ensures sound { IfOk result IsSoundProperty }
    {
        if self.info.is_object(object) {
            return self.own_property(number).ok_or(Failure::UnknownProperty);
        }
        let point = self.point(object).ok_or(Failure::UnknownObject)?;
        point.property(number).ok_or(Failure::UnknownProperty)
    }

    /// Returns the point whose present value this property is, if it can be written.
    #[tactic(auto, unfolding(crate::specs::property_of, crate::specs::point_property))]
    pub(crate) fn commanded_point(&self, object: ObjectId, number: u32) -> Option<&StandingPoint>
        ensures point { option_copied result
            ≡ commanded_point self.now (record { object = identifier object; property = number; index = None }) }
        ensures property { IfSome result
            (λ point. property_of self.now (identifier object) number
            ≡ Ok (single (value_of point.now.point.kind.family (present point.now)))) }
    {
        if number != PRESENT_VALUE || self.info.is_object(object) {
            return None;
        }
        match self.point(object) {
            Some(point) if point.is_commandable() => Some(point),
            _ => None,
        }
    }

    /// Makes a write to the point that is its object.
    pub(crate) fn put(&mut self, write: &PlaceWrite)
        ensures { self.new ≡ with_write self.old (Some (write_seen write.now)) }
    {
        put_in(&mut self.points, write);
    }

    // Returns the device's own property of this number.
    #[tactic(auto, unfolding(crate::specs::device_property))]
    fn own_property(&self, number: u32) -> Option<Property<'_>>
        ensures value { option_map property_seen result ≡ device_property self.now number }
        ensures sound { IfSome result IsSoundProperty }
    {
        match number {
            OBJECT_IDENTIFIER => Some(Property::Single(Value::Object(self.info.object()))),
            OBJECT_LIST => Some(Property::ObjectList(self.info.object(), self.points.as_slice())),
            OBJECT_NAME => Some(Property::Single(Value::Chars(UTF_8, self.info.name().as_bytes()))),
            DEVICE_ADDRESS_BINDING => Some(Property::EmptyList),
            _ => Some(Property::Single(fixed_value(number)?)),
        }
    }

    // Returns the point that is this object.
    fn point(&self, object: ObjectId) -> Option<&StandingPoint>
        ensures { option_copied result ≡ standing_at self.now (identifier object) }
    {
        self.points.iter().find(|point| point.is_object(object))
    }
}

// Returns whether one of the points has this name.
fn has_name(points: &[StandingPoint], name: &str) -> bool
    ensures { result ≡ list_any (λ standing. bytes_eq standing.point.name name.now) points.now }
{
    points.iter().any(|point| point.has_name(name))
}

// Makes the write to the point that is its object.
fn put_in(points: &mut [StandingPoint], write: &PlaceWrite)
    ensures { points.new ≡ map (put (write_seen write.now)) points.old }
{
    for point in points.iter_mut() {
        point.put(write);
    }
}

// Returns the value of a property of every device of this kind.
#[tactic(auto, unfolding(crate::specs::fixed_value))]
fn fixed_value(number: u32) -> Option<Value<'static>>
    ensures value { option_map datum result ≡ fixed_value number }
    ensures sound { IfSome result (λ value. IsSound (datum value)) }
{
    match number {
        OBJECT_TYPE => Some(Value::Enumerated(u32::from(DEVICE))),
        SYSTEM_STATUS => Some(Value::Enumerated(OPERATIONAL)),
        VENDOR_NAME => Some(text("Property tools")),
        VENDOR_IDENTIFIER => Some(Value::Unsigned(VENDOR)),
        MODEL_NAME => Some(text("bacdev")),
        FIRMWARE_REVISION => Some(text("1")),
        APPLICATION_SOFTWARE_VERSION => Some(text("1")),
        DESCRIPTION => Some(text("Small BACnet/IP device")),
        PROTOCOL_VERSION => Some(Value::Unsigned(1)),
        PROTOCOL_REVISION => Some(Value::Unsigned(4)),
        MAX_APDU_LENGTH_ACCEPTED => Some(Value::Unsigned(MAX_APDU)),
        SEGMENTATION_SUPPORTED => Some(Value::Enumerated(NO_SEGMENTATION)),
        APDU_TIMEOUT => Some(Value::Unsigned(3000)),
        NUMBER_OF_APDU_RETRIES => Some(Value::Unsigned(3)),
        DATABASE_REVISION => Some(Value::Unsigned(1)),
        _ => None,
    }
}

// Returns a text as a value.
fn text(octets: &'static str) -> Value<'static>
    ensures value { datum result ≡ char_string 0 octets.now }
    ensures sound { IsSound (datum result) }
{
    Value::Chars(UTF_8, octets.as_bytes())
}
