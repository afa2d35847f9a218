//! The types of points, and the values that each accepts.

ghost use Rattle.std.specs.Prelude.{IsTrue, option_map, ◌<◌, ◌^◌, ◌≡◌};
ghost use Rattle.bac_wire.specs.{datum, IsSound};
ghost use Rattle.bac_device.specs.Kind as spec;

use bac_wire::{Value, value_and_rest};

/// The type of a point (clause 12).
#[derive(Clone, Copy)]
pub(crate) struct Kind {
    pub(crate) family: Family,
    pub(crate) role: Role,
}

/// The present value of a point: a Real, one of two states, or one of several.
#[derive(Clone, Copy)]
pub(crate) enum Family {
    Analog,
    Binary,
    MultiState,
}

/// The purpose of a point: something measured, something driven, or a value that the device keeps.
#[derive(Clone, Copy)]
pub(crate) enum Role {
    Input,
    Output,
    Value,
}

impl Kind {
    /// Returns the kind of this object type, if points can have it (clause 21, BACnetObjectType).
    #[tactic(auto, unfolding(crate::specs::kind_of))]
    pub(crate) fn from_number(number: u16) -> Option<Self>
        ensures { result ≡ spec.kind_of number }
    {
        let (family, role) = match number {
            0 => (Family::Analog, Role::Input),
            1 => (Family::Analog, Role::Output),
            2 => (Family::Analog, Role::Value),
            3 => (Family::Binary, Role::Input),
            4 => (Family::Binary, Role::Output),
            5 => (Family::Binary, Role::Value),
            13 => (Family::MultiState, Role::Input),
            14 => (Family::MultiState, Role::Output),
            19 => (Family::MultiState, Role::Value),
            _ => return None,
        };
        Some(Kind { family, role })
    }

    /// Returns whether a point of this kind can have this `extra`.
    pub(crate) fn allows_extra(self, extra: u32) -> bool
        ensures { result ≡ spec.allows_extra self.family self.role extra }
    {
        match (self.family, self.role) {
            (Family::Analog, _) => true,
            (Family::Binary, Role::Value) => extra == 0,
            (Family::Binary, _) => extra < 2,
            (Family::MultiState, _) => 0 < extra,
        }
    }
}

impl Family {
    /// Returns the value of a place of a priority array: NULL, or the value with this number.
    pub(crate) fn place_value(self, place: Option<u32>) -> Value<'static>
        ensures value { datum result ≡ spec.place_value self place }
        ensures sound { IsSound (datum result) }
    {
        match place {
            Some(number) => self.value(number),
            None => Value::Null,
        }
    }

    /// Returns the value with this number.
    pub(crate) fn value(self, number: u32) -> Value<'static>
        ensures value { datum result ≡ spec.value_of self number }
        ensures sound { IsSound (datum result) }
    {
        match self {
            Family::Analog => Value::Real(number.to_be_bytes()),
            Family::Binary => Value::Enumerated(number),
            Family::MultiState => Value::Unsigned(u64::from(number)),
        }
    }

    /// Returns the number that a value puts in a place, or NULL. `None` if the value is of another type.
    pub(crate) fn place_in(self, value: &Value<'_>) -> Option<Option<u64>>
        ensures { result ≡ spec.place_in self (datum value.now) }
    {
        match value {
            Value::Null => Some(None),
            _ => self.number_in(value).map(Some),
        }
    }

    /// Returns the number of a value. `None` if it is of another type.
    pub(crate) fn number_in(self, value: &Value<'_>) -> Option<u64>
        ensures { result ≡ spec.number_in self (datum value.now) }
    {
        match (self, value) {
            (Family::Analog, Value::Real(octets)) => Some(u64::from(u32::from_be_bytes(*octets))),
            (Family::Binary, Value::Enumerated(number)) => Some(u64::from(*number)),
            (Family::MultiState, Value::Unsigned(number)) => Some(*number),
            _ => None,
        }
    }

    /// Returns whether a present value can have this number. `extra` is the number of states.
    pub(crate) fn allows(self, extra: u32, number: u64) -> bool
        ensures value { result ≡ spec.allows self extra number }
        ensures fits { IsTrue result → number < 2 ^ 32 }
    {
        match self {
            Family::Analog => number <= u64::from(u32::MAX),
            Family::Binary => number < 2,
            Family::MultiState => 0 < number && number <= u64::from(extra),
        }
    }
}

impl Role {
    /// Returns whether points of this role have a priority array (clause 19.2).
    pub(crate) fn is_commandable(self) -> bool
        ensures { result ≡ spec.is_commandable self }
    {
        !matches!(self, Role::Input)
    }
}

/// Returns the value in the octets, if they are exactly one value.
#[tactic(auto, unfolding(crate::specs::one_value))]
pub(crate) fn one_value(octets: &[u8]) -> Option<Value<'_>>
    ensures { option_map datum result ≡ spec.one_value octets.now }
{
    let (value, rest) = value_and_rest(octets)?;
    if !rest.is_empty() {
        return None;
    }
    Some(value)
}
