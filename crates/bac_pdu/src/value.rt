//! The kinds of values that are in service bodies.

ghost use Rattle.std.specs.Prelude.{option_map, ◌≡◌};
ghost use Rattle.bac_wire.specs.{identifier, kind_at, ParameterReading.{enumerated_in, object_in, unsigned_in}};

use bac_wire::{ObjectId, Value, value_and_rest};

/// Returns the Enumerated at the front, and the octets after it.
#[tactic(auto, unfolding(bac_wire::specs::ParameterReading::kind_at))]
pub(crate) fn enumerated_and_rest(octets: &[u8]) -> Option<(u32, &[u8])>
    ensures { option_map (λ x. (x.0, x.1.now)) result ≡ kind_at enumerated_in octets.now }
{
    match value_and_rest(octets)? {
        (Value::Enumerated(n), rest) => Some((n, rest)),
        _ => None,
    }
}

/// Returns the Unsigned at the front, and the octets after it.
#[tactic(auto, unfolding(bac_wire::specs::ParameterReading::kind_at))]
pub(crate) fn unsigned_and_rest(octets: &[u8]) -> Option<(u64, &[u8])>
    ensures { option_map (λ x. (x.0, x.1.now)) result ≡ kind_at unsigned_in octets.now }
{
    match value_and_rest(octets)? {
        (Value::Unsigned(n), rest) => Some((n, rest)),
        _ => None,
    }
}

/// Returns the ObjectIdentifier at the front, and the octets after it.
#[tactic(auto, unfolding(bac_wire::specs::ParameterReading::kind_at))]
pub(crate) fn identifier_and_rest(octets: &[u8]) -> Option<(ObjectId, &[u8])>
    ensures { option_map (λ x. (identifier x.0, x.1.now)) result ≡ kind_at object_in octets.now }
{
    match value_and_rest(octets)? {
        (Value::Object(id), rest) => Some((id, rest)),
        _ => None,
    }
}
