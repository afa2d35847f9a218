//! The values of a property, their choice by an index, and their octets.

ghost use Rattle.std.specs.Prelude.{IfOk, IfSome, length, map, OnErr, OnOk, option_map, slice_get, ◌++◌, ◌+◌, ◌<◌, ◌∷◌};
ghost use Rattle.std.specs.Prelude.{◌≡◌};
ghost use Rattle.bac_wire.specs.{datum, frame_room, identifier, IsSound, object, result_seen};
ghost use Rattle.bac_device.specs.{element, place_value, point_objects, region_octets};
ghost use Rattle.bac_device.specs.Inner.{IsSoundProperty, property_seen};

use crate::failure::Failure;
use crate::kind::Family;
use crate::point::StandingPoint;
use bac_wire::{Frame, Full, ObjectId, Value, write_value};

/// The values of a property (clause 12).
#[derive(Clone, Copy)]
pub(crate) enum Property<'a> {
    /// One value.
    Single(Value<'a>),
    /// A list without elements, which is not an array.
    EmptyList,
    /// The array of the objects of the device: the device, then these points.
    ObjectList(ObjectId, &'a [StandingPoint]),
    /// The array of the places of a point of this family.
    PriorityArray(Family, &'a [Option<u32>]),
}

impl<'a> Property<'a> {
    /// Returns the part of a property that an index selects: without an index all values, at 0 the number of elements,
    /// otherwise the element, counted from 1.
    #[tactic(auto, unfolding(crate::specs::element))]
    pub(crate) fn element(self, index: Option<u32>) -> Result<Property<'a>, Failure>
        requires { IsSoundProperty self }
        ensures value { result_seen property_seen result ≡ element (property_seen self.entry) index }
        ensures sound { IfOk result IsSoundProperty }
    {
        let Some(index) = index else {
            return Ok(self);
        };
        if !self.is_array() {
            return Err(Failure::NotAnArray);
        }
        if index == 0 {
            return Ok(Property::Single(Value::Unsigned(self.count() as u64)));
        }
        let value = self
            .value_at(index as usize - 1)
            .ok_or(Failure::InvalidIndex)?;
        Ok(Property::Single(value))
    }

    /// Returns whether an index can choose an element.
    pub(crate) fn is_array(&self) -> bool
        ensures { result ≡ (property_seen self.now).is_array }
    {
        matches!(self, Property::ObjectList(..) | Property::PriorityArray(..))
    }

    /// Returns how many values there are.
    pub(crate) fn count(&self) -> usize
        ensures { result ≡ length (property_seen self.now).values }
    {
        match self {
            Property::Single(_) => 1,
            Property::EmptyList => 0,
            Property::ObjectList(_, points) => 1 + points.len(),
            Property::PriorityArray(_, places) => places.len(),
        }
    }

    /// Returns the value at this position, counted from 0.
    pub(crate) fn value_at(&self, position: usize) -> Option<Value<'a>>
        requires { IsSoundProperty self.now }
        ensures value { option_map datum result ≡ slice_get (property_seen self.now).values position }
        ensures sound { IfSome result (λ value. IsSound (datum value)) }
    {
        match self {
            Property::Single(value) => (position == 0).then_some(*value),
            Property::EmptyList => None,
            Property::ObjectList(device, points) => object_at(*device, points, position),
            Property::PriorityArray(family, places) => place_at(*family, places, position),
        }
    }
}

/// Appends the octets of the values, one after the other. Returns `Full` only if there is no room for them; some of
/// them may then have been appended.
pub(crate) fn append_region(frame: &mut Frame, property: &Property<'_>) -> Result<(), Full>
    requires { IsSoundProperty property.now }
    ensures ok { OnOk result (frame.new ≡ frame.old ++ region_octets (property_seen property.now)) }
    ensures full { OnErr result (frame_room < length frame.old + length (region_octets (property_seen property.now))) }
{
    for position in 0..property.count() {
        match property.value_at(position) {
            Some(value) => write_value(frame, &value)?,
            // Each position below the count has a value.
            None => unreachable!(),
        }
    }
    Ok(())
}

// Returns the object at this position of the object list.
fn object_at(device: ObjectId, points: &[StandingPoint], position: usize) -> Option<Value<'static>>
    ensures value { option_map datum result
        ≡ slice_get (object (identifier device) ∷ point_objects points.now) position }
    ensures sound { IfSome result (λ value. IsSound (datum value)) }
{
    if position == 0 {
        return Some(Value::Object(device));
    }
    let point = points.get(position - 1)?;
    Some(Value::Object(point.id()))
}

// Returns the value of the place at this position of a priority array.
fn place_at(family: Family, places: &[Option<u32>], position: usize) -> Option<Value<'static>>
    ensures value { option_map datum result ≡ slice_get (map (place_value family) places.now) position }
    ensures sound { IfSome result (λ value. IsSound (datum value)) }
{
    let held = places.get(position)?;
    Some(family.place_value(*held))
}
