//! The bodies of ReadProperty, its answer and WriteProperty, written whole or not at all.

ghost use Rattle.std.specs.{List.AllByRecursion, Prelude.{IfSome, length, List, OnOk, ℕ, ◌<◌, ◌^◌, ◌≡◌, ◌≤◌}};
ghost use Rattle.bac_wire.specs.{Appends, identifier, IsIdentifier, IsRegion, IsShortest, number_octets, object_octets};
ghost use Rattle.bac_wire.specs.{plain_tag, Inner.Writing.AppendsFront, Limits.deepest};
ghost use Rattle.bac_wire.specs.{Parameter.{context_octets, enclosed_octets}, Region.{closing_tag, opening_tag}};
ghost use Rattle.bac_pdu.specs.{ack_end, ack_front, ack_octets, ack_of, ack_seen, IsAckBody, IsParameter, IsPriority};
ghost use Rattle.bac_pdu.specs.{IsReadBody, IsWriteBody, named, order, read_octets, read_of, reference};
ghost use Rattle.bac_pdu.specs.{reference_parameters, write_octets, write_of, Inner.optional_octets};

use crate::property::{Ack, INDEX, OBJECT, PRIORITY, PROPERTY, ReadRequest, VALUE, WriteRequest};
use arrayvec::ArrayVec;
use bac_wire::{Frame, Full, ObjectId, octet_count};
use byteorder::{BigEndian, ByteOrder};

/// Appends the body of a ReadProperty, each number in its fewest octets. Returns `Full`, with the frame unchanged, only
/// if there is no room for it.
pub fn write_read(frame: &mut Frame, request: &ReadRequest) -> Result<(), Full>
    ensures appended { Appends frame.old (read_octets (reference request.now)) frame.new result }
    ensures shortest { OnOk result
        (IsShortest IsReadBody (read_octets (reference request.now)) (reference request.now)) }
    ensures read_back { OnOk result (read_of (read_octets (reference request.now)) ≡ Ok (reference request.now)) }
{
    let start = frame.len();
    let appended = append_reference(frame, request.object, request.property, request.index);
    whole_or_nothing(frame, start, appended)
}

/// Appends the body of a WriteProperty, each number in its fewest octets. The value must be whole items, with at most
/// 32 opening tags open at once, and a priority 1 to 16. Returns `Full`, with the frame unchanged, only if there is no
/// room for it.
pub fn write_write(frame: &mut Frame, request: &WriteRequest<'_>) -> Result<(), Full>
    requires region { IsRegion deepest request.now.value.now }
    requires priority { IfSome request.now.priority IsPriority }
    ensures appended { Appends frame.old (write_octets (order request.now)) frame.new result }
    ensures shortest { OnOk result (IsShortest IsWriteBody (write_octets (order request.now)) (order request.now)) }
    ensures read_back { OnOk result (write_of (write_octets (order request.now)) ≡ Ok (order request.now)) }
{
    let start = frame.len();
    let appended = append_order(frame, request);
    whole_or_nothing(frame, start, appended)
}

/// Appends the body of a ReadProperty-ACK, each number in its fewest octets. The value must be whole items, with at
/// most 32 opening tags open at once. Returns `Full`, with the frame unchanged, only if there is no room for it.
pub fn write_ack(frame: &mut Frame, ack: &Ack<'_>) -> Result<(), Full>
    requires { IsRegion deepest ack.now.value.now }
    ensures appended { Appends frame.old (ack_octets (ack_seen ack.now)) frame.new result }
    ensures shortest { OnOk result (IsShortest IsAckBody (ack_octets (ack_seen ack.now)) (ack_seen ack.now)) }
    ensures read_back { OnOk result (ack_of (ack_octets (ack_seen ack.now)) ≡ Some (ack_seen ack.now)) }
{
    let start = frame.len();
    let appended = append_ack(frame, ack);
    whole_or_nothing(frame, start, appended)
}

/// Appends the octets before the value in the body of a ReadProperty-ACK, each number in its fewest octets. Returns
/// `Full`, with the frame unchanged, only if there is no room for it.
pub fn begin_ack(frame: &mut Frame, request: &ReadRequest) -> Result<(), Full>
    ensures { Appends frame.old (ack_front (reference request.now)) frame.new result }
{
    let start = frame.len();
    let appended = append_ack_front(frame, request);
    whole_or_nothing(frame, start, appended)
}

/// Appends the octets after the value in the body of a ReadProperty-ACK. Returns `Full`, with the frame unchanged, only
/// if there is no room for it.
pub fn end_ack(frame: &mut Frame) -> Result<(), Full>
    ensures { Appends frame.old ack_end frame.new result }
{
    append_closing(frame)
}

/// Appends a number in its fewest octets. If there is no room, nothing is appended.
pub(crate) fn append_number(body: &mut Frame, number: u8, n: u32) -> Result<(), Full>
    requires { number < 15 }
    ensures appended { Appends body.old (number_octets number n) body.new result }
    ensures known { n < 2 ^ 32 }
{
    if n < 256 {
        return append_octet(body, number, n as u8);
    }
    let mut contents = [0; 8];
    let n = u64::from(n);
    let count = octet_count(n);
    BigEndian::write_uint(&mut contents, n, count);
    append_context(body, number, &contents[..count])
}

/// Keeps the octets after the first `start` if all were appended. Otherwise removes them.
pub(crate) fn whole_or_nothing(
    frame: &mut Frame,
    start: usize,
    appended: Result<(), Full>,
) -> Result<(), Full>
    requires { start ≤ length frame.old }
    ensures same { result ≡ appended }
    ensures whole { (old octets : List ℕ) → start ≡ length old
        → AppendsFront old octets frame.old appended → Appends old octets frame.new result }
{
    if appended.is_err() {
        frame.truncate(start);
    }
    appended
}

// Appends the body of a WriteProperty. If there is no room, the beginning of it may stay.
fn append_order(frame: &mut Frame, request: &WriteRequest<'_>) -> Result<(), Full>
    ensures appended { AppendsFront frame.old (write_octets (order request.now)) frame.new result }
    ensures known { OnOk result (AllByRecursion IsParameter (reference_parameters (order request.now).reference)) }
{
    append_reference(frame, request.object, request.property, request.index)?;
    append_enclosed(frame, request.value)?;
    append_optional(frame, PRIORITY, request.priority.map(u32::from))
}

// Appends the body of a ReadProperty-ACK. If there is no room, the beginning of it may stay.
fn append_ack(frame: &mut Frame, ack: &Ack<'_>) -> Result<(), Full>
    ensures appended { AppendsFront frame.old (ack_octets (ack_seen ack.now)) frame.new result }
    ensures known { OnOk result (AllByRecursion IsParameter (reference_parameters (ack_seen ack.now).reference)) }
{
    append_reference(frame, ack.object, ack.property, ack.index)?;
    append_enclosed(frame, ack.value)
}

// Appends the octets before the value in the body of a ReadProperty-ACK. If there is no room, the beginning of them may
// stay.
fn append_ack_front(frame: &mut Frame, request: &ReadRequest) -> Result<(), Full>
    ensures { AppendsFront frame.old (ack_front (reference request.now)) frame.new result }
{
    append_reference(frame, request.object, request.property, request.index)?;
    append_opening(frame)
}

// Appends the parameters that name a property. If there is no room, the beginning of them may stay.
#[tactic(auto, using(bac_wire::proofs::TagLaws::in_parts, crate::proofs::optional_plain), unfolding(crate::specs::plain_parameter))]
#[inline(always)]
fn append_reference(
    body: &mut Frame,
    object: ObjectId,
    property: u32,
    index: Option<u32>,
) -> Result<(), Full>
    ensures appended { AppendsFront body.old (read_octets (named object property index)) body.new result }
    ensures known { OnOk result (AllByRecursion IsParameter (reference_parameters (named object property index))) }
{
    append_object(body, OBJECT, object)?;
    append_number(body, PROPERTY, property)?;
    append_optional(body, INDEX, index)
}

// Appends a number in its fewest octets, if there is one. If there is no room, nothing is appended.
fn append_optional(body: &mut Frame, number: u8, n: Option<u32>) -> Result<(), Full>
    requires { number < 15 }
    ensures appended { Appends body.old (optional_octets number n) body.new result }
    ensures known { IfSome n (λ n. n < 2 ^ 32) }
{
    match n {
        Some(n) => append_number(body, number, n),
        None => body.append(&[]),
    }
}

// Appends whole items between an opening and a closing tag 3. If there is no room, the beginning of these may stay.
#[tactic(auto, using(bac_wire::proofs::TagLaws::in_parts))]
fn append_enclosed(body: &mut Frame, items: &[u8]) -> Result<(), Full>
    ensures { AppendsFront body.old (enclosed_octets 3 items.now) body.new result }
{
    append_opening(body)?;
    body.append(items)?;
    append_closing(body)
}

// Appends an opening tag 3. If there is no room, nothing is appended.
#[tactic(auto, using(crate::proofs::opening_octet))]
fn append_opening(body: &mut Frame) -> Result<(), Full>
    ensures { Appends body.old (plain_tag (opening_tag 3)) body.new result }
{
    body.append(&[16 * VALUE + 14])
}

// Appends a closing tag 3. If there is no room, nothing is appended.
#[tactic(auto, using(crate::proofs::closing_octet))]
fn append_closing(body: &mut Frame) -> Result<(), Full>
    ensures { Appends body.old (plain_tag (closing_tag 3)) body.new result }
{
    body.append(&[16 * VALUE + 15])
}

// Appends an object's identifier. If there is no room, nothing is appended.
fn append_object(body: &mut Frame, number: u8, id: ObjectId) -> Result<(), Full>
    requires { number < 15 }
    ensures appended { Appends body.old (object_octets number (identifier id)) body.new result }
    ensures known { IsIdentifier (identifier id) }
{
    let mut contents = [0; 4];
    BigEndian::write_u32(&mut contents, id.number());
    append_four(body, number, &contents)
}

// Appends a tag of one octet, and four octets of contents. If there is no room, nothing is appended.
#[tactic(auto, using(crate::proofs::four_context))]
fn append_four(body: &mut Frame, number: u8, contents: &[u8; 4]) -> Result<(), Full>
    requires { number < 15 }
    ensures { Appends body.old (context_octets number contents.now) body.new result }
{
    let [a, b, c, d] = *contents;
    body.append(&[16 * number + 12, a, b, c, d])
}

// Appends a number in one octet after a tag of one octet. If there is no room, nothing is appended.
#[tactic(auto, using(crate::proofs::one_number))]
fn append_octet(body: &mut Frame, number: u8, n: u8) -> Result<(), Full>
    requires { number < 15 }
    ensures { Appends body.old (number_octets number n) body.new result }
{
    body.append(&[16 * number + 9, n])
}

// Appends a tag of one octet, and at most four octets of contents. If there is no room, nothing is appended.
#[tactic(auto, using(crate::proofs::short_context))]
fn append_context(body: &mut Frame, number: u8, contents: &[u8]) -> Result<(), Full>
    requires number { number < 15 }
    requires short { length contents.now ≤ 4 }
    ensures { Appends body.old (context_octets number contents.now) body.new result }
{
    let mut octets = ArrayVec::<u8, 5>::new();
    octets.push(16 * number + 8 + contents.len() as u8);
    octets.try_extend_from_slice(contents).unwrap();
    body.append(octets.as_slice())
}
