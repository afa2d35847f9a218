//! The body of an Error, read and written.

ghost use Rattle.std.specs.Prelude.{List, OnOk, ℕ, ◌++◌, ◌≡◌};
ghost use Rattle.{bac_wire.specs.{Appends, IsShortest}, bac_pdu.specs.{error_octets, error_of, IsErrorBody}};

use crate::value::enumerated_and_rest;
use crate::writing::whole_or_nothing;
use bac_wire::{Frame, Full, Value, write_value};

/// Returns the class and the code at the beginning of the body of an Error (clause 18). `None` if the body does not
/// begin with two Enumerateds. The octets after them are ignored.
#[tactic(auto, unfolding(crate::specs::error_of))]
pub fn read_error(body: &[u8]) -> Option<(u32, u32)>
    ensures value { result ≡ error_of body.now }
{
    let (class, rest) = enumerated_and_rest(body)?;
    let (code, _) = enumerated_and_rest(rest)?;
    Some((class, code))
}

/// Appends the body of an Error, both numbers in their fewest octets. Returns `Full`, with the frame unchanged, only if
/// there is no room for it.
#[tactic(auto, using(bac_wire::proofs::TagLaws::in_parts, crate::proofs::error_shortest))]
pub fn write_error(frame: &mut Frame, class: u32, code: u32) -> Result<(), Full>
    ensures appended { Appends frame.old (error_octets class code) frame.new result }
    ensures shortest { OnOk result (IsShortest IsErrorBody (error_octets class code) (class, code)) }
    ensures read_back { OnOk result ((rest : List ℕ)
        → error_of (error_octets class code ++ rest) ≡ Some (class, code)) }
{
    let start = frame.len();
    write_value(frame, &Value::Enumerated(class))?;
    let appended = write_value(frame, &Value::Enumerated(code));
    whole_or_nothing(frame, start, appended)
}
