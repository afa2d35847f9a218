//! A value, written and read back.

ghost use Rattle.std.specs.Prelude.{[], IfErr, IfOk, length, ◌<◌, ◌≡◌};
ghost use Rattle.bac_wire.specs.{datum, frame_room, IsSound, plain};

use bac_wire::{Frame, Full, Value, read_value, write_value};

/// Writes a value into an empty frame, and reads it back. Returns how many octets spell it, or `Full` only if the value
/// is too long. No check is needed that there is a value to read back.
pub fn written_alone(frame: &mut Frame, value: &Value<'_>) -> Result<usize, Full>
    requires { IsSound (datum value.now) }
    ensures written { IfOk result (λ _. frame.new ≡ plain (datum value.now)) }
    ensures count { IfOk result (λ count. count ≡ length frame.new) }
    ensures full { IfErr result (λ _. (frame.new ≡ []) × (frame_room < length (plain (datum value.now)))) }
{
    frame.clear();
    write_value(frame, value)?;
    let (_again, count) = read_value(frame.as_slice()).unwrap();
    Ok(count)
}
