//! A point: as it is added, and with the sixteen places of its priority array.

ghost use Rattle.std.specs.{Option.option_copied, Prelude.{[], find, IfSome, is_some, option_map, ◌≡◌}, Str.bytes_eq};
ghost use Rattle.{bac_wire.specs.identifier, bac_device.specs.{description_of, given, is_commandable, kind_property}};
ghost use Rattle.bac_device.specs.{place_at, point_property, present, put, same_object, standing_after, written_value};
ghost use Rattle.bac_device.specs.Inner.{IsSoundProperty, property_seen, write_seen};

use crate::failure::Failure;
use crate::kind::{Family, Kind, Role, one_value};
use crate::numbers::{
    EVENT_STATE, NO_INSTANCE, NORMAL, NUMBER_OF_STATES, OBJECT_IDENTIFIER, OBJECT_NAME,
    OBJECT_TYPE, OUT_OF_SERVICE, POLARITY, PRESENT_VALUE, PRIORITY_ARRAY, RELINQUISH_DEFAULT,
    STATUS_FLAGS, UNITS, UTF_8,
};
use crate::property::Property;
use crate::write::PlaceWrite;
use arrayvec::ArrayString;
use bac_wire::{ObjectId, Value};
use std::marker::Model;

/// The octets of the longest name.
pub const NAME_OCTETS: usize = 64;

// The number of places of a priority array (clause 19.2).
const PRIORITIES: usize = 16;

/// A point to add to a device: an object of type 0 to 5, 13, 14 or 19 (clause 12).
#[derive(Clone, Copy)]
pub struct Point<'a> {
    /// The object type and the instance, which is less than 4194303.
    pub id: ObjectId,
    /// The name, of one to 64 octets.
    pub name: &'a str,
    /// The present value of an input, and the relinquish default of an output or a value. For an analog point the four
    /// octets of a Real as a number; for a binary one 0 or 1; for a multi-state one a state, from 1.
    pub start: u32,
    /// The units of an analog point, the polarity of a binary input or output (0 or 1, and 0 for a binary value), or
    /// the number of states, at least 1.
    pub extra: u32,
}

/// A point of a device, with the places of its priority array.
#[derive(Drop)]
pub(crate) struct StandingPoint {
    kind: Kind,
    id: ObjectId,
    name: ArrayString<NAME_OCTETS>,
    start: u32,
    extra: u32,
    places: [Option<u32>; PRIORITIES],
}

impl Model for StandingPoint {
    ghost use Rattle.{bac_wire.specs.Identifier.identifier, bac_device.specs.Places.Standing};

    ghost Value = { Standing };

    ghost view = { λ p. record {
      point = record { kind = p.kind; object = identifier p.id; name = p.name.bytes; start = p.start; extra = p.extra };
      places = p.places;
    } };
}

// A blank for the places of a list that hold no point.
impl Default for StandingPoint {
    ghost is_default = { λ _. Unit {0} };

    fn default() -> Self {
        StandingPoint {
            kind: Kind {
                family: Family::Analog,
                role: Role::Input,
            },
            id: ObjectId::new(0, 0).unwrap(),
            name: ArrayString::new(),
            start: 0,
            extra: 0,
            places: [None; PRIORITIES],
        }
    }
}

impl StandingPoint {
    /// Returns the described point, with every place NULL. `None` if no device can have it.
    #[tactic(auto, unfolding(crate::specs::description_of, crate::specs::standing_after, crate::specs::place))]
    pub(crate) fn new(point: &Point<'_>) -> Option<Self>
        ensures { result ≡ option_map (standing_after []) (description_of (given point.now)) }
    {
        let kind = Kind::from_number(point.id.kind())?;
        let name = ArrayString::from(point.name).ok()?;
        if point.name.is_empty()
            || point.id.instance() >= NO_INSTANCE
            || !kind.allows_extra(point.extra)
            || !kind.family.allows(point.extra, u64::from(point.start))
        {
            return None;
        }
        Some(StandingPoint {
            kind,
            id: point.id,
            name,
            start: point.start,
            extra: point.extra,
            places: [None; PRIORITIES],
        })
    }

    pub(crate) fn id(&self) -> ObjectId
        ensures { identifier result ≡ self.now.point.object }
    {
        self.id
    }

    /// Returns whether the object is this point.
    pub(crate) fn is_object(&self, object: ObjectId) -> bool
        ensures { result ≡ same_object self.now.point.object (identifier object) }
    {
        self.id == object
    }

    /// Returns whether the point has this name.
    pub(crate) fn has_name(&self, name: &str) -> bool
        ensures { result ≡ bytes_eq self.now.point.name name.now }
    {
        self.name.as_str() == name
    }

    /// Returns whether the point can be written.
    pub(crate) fn is_commandable(&self) -> bool
        ensures { result ≡ is_commandable self.now.point.kind.role }
    {
        self.kind.role.is_commandable()
    }

    /// Returns the value in the place of this priority. `None` if the point has no such place.
    #[tactic(auto, unfolding(crate::specs::place_at))]
    pub(crate) fn place(&self, priority: u8) -> Option<Option<u32>>
        ensures { result ≡ place_at self.now priority }
    {
        if !self.is_commandable() || priority == 0 {
            return None;
        }
        self.places.get(usize::from(priority) - 1).copied()
    }

    /// Returns the number that the octets put in a place of the point, or NULL. The octets must be one value, which is
    /// NULL or of the point's type and in its range.
    #[tactic(auto, unfolding(crate::specs::written_value))]
    pub(crate) fn value_in(&self, octets: &[u8]) -> Result<Option<u32>, Failure>
        ensures { result ≡ written_value self.now.point octets.now }
    {
        let family = self.kind.family;
        let value = one_value(octets).ok_or(Failure::WrongType)?;
        match family.place_in(&value).ok_or(Failure::WrongType)? {
            None => Ok(None),
            Some(number) if family.allows(self.extra, number) => Ok(Some(number as u32)),
            Some(_) => Err(Failure::OutOfRange),
        }
    }

    /// Makes the write, if it is to this point.
    pub(crate) fn put(&mut self, write: &PlaceWrite)
        ensures { self.new ≡ put (write_seen write.now) self.old }
    {
        if self.is_object(write.object) {
            self.places[usize::from(write.priority) - 1] = write.value;
        }
    }

    /// Returns the number of the present value.
    pub(crate) fn present(&self) -> u32
        ensures { result ≡ present self.now }
    {
        match first_set(&self.places) {
            Some(Some(number)) => *number,
            _ => self.start,
        }
    }

    /// Returns the property of this number.
    #[tactic(auto, unfolding(crate::specs::point_property))]
    pub(crate) fn property(&self, number: u32) -> Option<Property<'_>>
        ensures value { option_map property_seen result ≡ point_property self.now number }
        ensures sound { IfSome result IsSoundProperty }
    {
        let family = self.kind.family;
        match number {
            OBJECT_IDENTIFIER => Some(Property::Single(Value::Object(self.id))),
            OBJECT_NAME => Some(Property::Single(Value::Chars(
                UTF_8,
                self.name.as_str().as_bytes(),
            ))),
            OBJECT_TYPE => Some(Property::Single(Value::Enumerated(u32::from(self.id.kind())))),
            PRESENT_VALUE => Some(Property::Single(family.value(self.present()))),
            EVENT_STATE => Some(Property::Single(Value::Enumerated(NORMAL))),
            OUT_OF_SERVICE => Some(Property::Single(Value::Bool(false))),
            STATUS_FLAGS => Some(Property::Single(Value::Bits(4, &[0]))),
            _ => self.property_by_kind(number),
        }
    }

    // Returns the property of this number, if it is one that only points of some types have.
    #[tactic(auto, unfolding(crate::specs::kind_property))]
    fn property_by_kind(&self, number: u32) -> Option<Property<'_>>
        ensures value { option_map property_seen result ≡ kind_property self.now number }
        ensures sound { IfSome result IsSoundProperty }
    {
        let Kind { family, role } = self.kind;
        match (number, family) {
            (UNITS, Family::Analog) => Some(Property::Single(Value::Enumerated(self.extra))),
            (POLARITY, Family::Binary) if !matches!(role, Role::Value) => Some(Property::Single(
                Value::Enumerated(self.extra),
            )),
            (NUMBER_OF_STATES, Family::MultiState) => Some(Property::Single(Value::Unsigned(
                u64::from(self.extra),
            ))),
            (PRIORITY_ARRAY, _) if role.is_commandable() => Some(Property::PriorityArray(
                family,
                &self.places,
            )),
            (RELINQUISH_DEFAULT, _) if role.is_commandable() => Some(Property::Single(family.value(
                self.start,
            ))),
            _ => None,
        }
    }
}

// Returns the first of the places that is not NULL.
fn first_set(places: &[Option<u32>]) -> Option<&Option<u32>>
    ensures { option_copied result ≡ find is_some places.now }
{
    places.iter().find(|place| place.is_some())
}
