//! The bodies of ReadProperty, its answer and WriteProperty, read.

ghost use Rattle.std.specs.Prelude.{IfSome, length, option_map, ◌*◌, ◌+◌, ◌<◌, ◌≡◌, ◌≤◌};
ghost use Rattle.bac_wire.specs.{behind_closing, behind_opening, context_at, enclosed_at, identifier, number_at};
ghost use Rattle.bac_wire.specs.{object_at, result_seen, DatumReading.number_within};
ghost use Rattle.bac_pdu.specs.{ack_of, ack_seen, named, optional_at, order, read_of, reference, reference_at};
ghost use Rattle.bac_pdu.specs.{write_of};

use crate::reject::RejectReason;
use bac_wire::{ObjectId, Shape, Work, region, tag_and_rest};
use byteorder::{BigEndian, ByteOrder};

/// The property, or the element of it, that a ReadProperty asks for (clause 15.5).
#[derive(Clone, Copy, Debug, PartialEq, Eq)]
pub struct ReadRequest {
    pub object: ObjectId,
    /// The number of the property (clause 21, BACnetPropertyIdentifier).
    pub property: u32,
    /// The element of an array, from 1; 0 is the number of its elements.
    pub index: Option<u32>,
}

/// A property, or an element of it, and its new value (clause 15.9).
#[derive(Clone, Copy, Debug, PartialEq, Eq)]
pub struct WriteRequest<'a> {
    pub object: ObjectId,
    /// As in [`ReadRequest`].
    pub property: u32,
    /// As in [`ReadRequest`].
    pub index: Option<u32>,
    /// Whole items, as they are on the wire.
    pub value: &'a [u8],
    /// The priority, 1 to 16; 1 is the most urgent.
    pub priority: Option<u8>,
}

/// The answer to a ReadProperty: a property, or an element of it, and its value (clause 15.5).
#[derive(Clone, Copy, Debug, PartialEq, Eq)]
pub struct Ack<'a> {
    pub object: ObjectId,
    /// As in [`ReadRequest`].
    pub property: u32,
    /// As in [`ReadRequest`].
    pub index: Option<u32>,
    /// Whole items, as they are on the wire.
    pub value: &'a [u8],
}

/// The numbers of the parameters of ReadProperty and WriteProperty.
pub(crate) const OBJECT: u8 = 0;

pub(crate) const PROPERTY: u8 = 1;

pub(crate) const INDEX: u8 = 2;

pub(crate) const VALUE: u8 = 3;

pub(crate) const PRIORITY: u8 = 4;

/// Reads the body of a ReadProperty: returns the requested property, or the first reason to reject the body.
///
/// # Errors
///
/// `TooMany` if more follows a whole body, `MissingParameter` if it is empty or only an object, otherwise `InvalidTag`.
#[tactic(auto, unfolding(crate::specs::read_of))]
pub fn read_read(body: &[u8]) -> Result<ReadRequest, RejectReason>
    ensures value { result_seen reference result ≡ read_of body.now }
{
    match reference_and_rest(body)? {
        (object, property, index, []) => Ok(ReadRequest {
            object,
            property,
            index,
        }),
        _ => Err(RejectReason::TooMany),
    }
}

/// Reads the body of a WriteProperty: returns the ordered write, or the first reason to reject the body. At most two
/// tags of the value are read for each octet of the body.
///
/// # Errors
///
/// `OutOfRange` if it is whole except for a priority that is not 1 to 16, `TooMany` if more follows a whole body,
/// `MissingParameter` if it ends before the property or the value, otherwise `InvalidTag`.
#[tactic(auto, using(crate::proofs::reference_no_longer), unfolding(crate::specs::write_of))]
pub fn read_write<'a>(body: &'a [u8], work: &mut Work) -> Result<WriteRequest<'a>, RejectReason>
    ensures value { result_seen order result ≡ write_of body.now }
    ensures walked_once { work.new.tags ≤ work.old.tags + 2 * length body.now }
{
    let (object, property, index, rest) = reference_and_rest(body)?;
    if rest.is_empty() {
        return Err(RejectReason::MissingParameter);
    }
    let Some((value, rest)) = enclosed_and_rest(rest, work) else {
        return Err(RejectReason::InvalidTag);
    };
    let (priority, rest) = optional_and_rest(PRIORITY, rest);
    if !rest.is_empty() {
        return Err(RejectReason::TooMany);
    }
    let priority = match priority {
        None => None,
        Some(n @ 1..=16) => Some(n as u8),
        Some(_) => return Err(RejectReason::OutOfRange),
    };
    Ok(WriteRequest {
        object,
        property,
        index,
        value,
        priority,
    })
}

/// Returns the property and the value in the body of a ReadProperty-ACK. `None` if the body is not whole, or if more
/// follows. At most two tags of the value are read for each octet of the body.
#[tactic(auto, using(crate::proofs::value_there, crate::proofs::reference_no_longer), unfolding(crate::specs::ack_of))]
pub fn read_ack<'a>(body: &'a [u8], work: &mut Work) -> Option<Ack<'a>>
    ensures value { option_map ack_seen result ≡ ack_of body.now }
    ensures walked_once { work.new.tags ≤ work.old.tags + 2 * length body.now }
{
    let Ok((object, property, index, rest)) = reference_and_rest(body) else {
        return None;
    };
    let (value, []) = enclosed_and_rest(rest, work)? else {
        return None;
    };
    Some(Ack {
        object,
        property,
        index,
        value,
    })
}

/// Returns the number in one to four octets under a context tag with this number.
#[tactic(auto, unfolding(bac_wire::specs::ParameterReading::number_at))]
pub(crate) fn number_and_rest(number: u8, octets: &[u8]) -> Option<(u32, &[u8])>
    ensures { option_map (λ x. (x.0, x.1.now)) result ≡ number_at number octets.now }
{
    let (contents, rest) = context_and_rest(number, octets)?;
    Some((number_in(contents)?, rest))
}

// Returns the object, the property and the index at the front of a body, and the octets after them.
#[tactic(auto, unfolding(crate::specs::reference_at))]
fn reference_and_rest(body: &[u8]) -> Result<(ObjectId, u32, Option<u32>, &[u8]), RejectReason>
    ensures { result_seen (λ x. (named x.0 x.1 x.2, x.3.now)) result ≡ reference_at body.now }
{
    if body.is_empty() {
        return Err(RejectReason::MissingParameter);
    }
    let Some((object, rest)) = object_and_rest(OBJECT, body) else {
        return Err(RejectReason::InvalidTag);
    };
    if rest.is_empty() {
        return Err(RejectReason::MissingParameter);
    }
    let Some((property, rest)) = number_and_rest(PROPERTY, rest) else {
        return Err(RejectReason::InvalidTag);
    };
    let (index, rest) = optional_and_rest(INDEX, rest);
    Ok((object, property, index, rest))
}

// Returns the number under a context tag with this number, if there is one, and the octets after it.
fn optional_and_rest(number: u8, octets: &[u8]) -> (Option<u32>, &[u8])
    ensures { let found = optional_at number octets.now in (result.0 ≡ found.0) × (result.1.now ≡ found.1) }
{
    match number_and_rest(number, octets) {
        Some((n, rest)) => (Some(n), rest),
        None => (None, octets),
    }
}

// Returns the whole items between an opening and a closing tag 3.
#[tactic(auto, unfolding(bac_wire::specs::ParameterReading::enclosed_at))]
fn enclosed_and_rest<'a>(octets: &'a [u8], work: &mut Work) -> Option<(&'a [u8], &'a [u8])>
    ensures found { option_map (λ x. (x.0.now, x.1.now)) result ≡ enclosed_at 3 octets.now }
    ensures walked_once { work.new.tags ≤ work.old.tags + 2 * length octets.now }
{
    let inside = rest_behind_opening(octets)?;
    let (items, rest) = inside.split_at(region(inside, work)?);
    let rest = rest_behind_closing(rest)?;
    Some((items, rest))
}

// Returns the object's identifier under a context tag with this number.
#[tactic(auto, unfolding(bac_wire::specs::ParameterReading::object_at))]
fn object_and_rest(number: u8, octets: &[u8]) -> Option<(ObjectId, &[u8])>
    ensures { option_map (λ x. (identifier x.0, x.1.now)) result ≡ object_at number octets.now }
{
    let (contents, rest) = context_and_rest(number, octets)?;
    if contents.len() != 4 {
        return None;
    }
    let object = ObjectId::of_number(BigEndian::read_u32(contents));
    Some((object, rest))
}

// Returns the contents under a context tag with this number.
#[tactic(auto, unfolding(bac_wire::specs::ParameterReading::context_at))]
#[inline(always)]
fn context_and_rest(number: u8, octets: &[u8]) -> Option<(&[u8], &[u8])>
    ensures { option_map (λ x. (x.0.now, x.1.now)) result ≡ context_at number octets.now }
{
    let (tag, rest) = tag_and_rest(octets)?;
    match tag.shape {
        Shape::Context(count) if tag.number == number => rest.split_at_checked(count as usize),
        _ => None,
    }
}

fn number_in(contents: &[u8]) -> Option<u32>
    ensures { result ≡ number_within 4 contents.now }
{
    match contents {
        [] => None,
        [n] => Some(u32::from(*n)),
        _ if 4 < contents.len() => None,
        _ => Some(BigEndian::read_uint(contents, contents.len()) as u32),
    }
}

#[tactic(auto, using(bac_wire::proofs::ItemLaws::after_shorter), unfolding(bac_wire::specs::ParameterReading::behind_opening))]
fn rest_behind_opening(octets: &[u8]) -> Option<&[u8]>
    ensures found { option_map (λ x. x.now) result ≡ behind_opening 3 octets.now }
    ensures shorter { IfSome result (λ x. length x.now < length octets.now) }
{
    let (tag, rest) = tag_and_rest(octets)?;
    match tag.shape {
        Shape::Opening if tag.number == VALUE => Some(rest),
        _ => None,
    }
}

#[tactic(auto, unfolding(bac_wire::specs::ItemReading::behind_closing))]
fn rest_behind_closing(octets: &[u8]) -> Option<&[u8]>
    ensures { option_map (λ x. x.now) result ≡ behind_closing 3 octets.now }
{
    let (tag, rest) = tag_and_rest(octets)?;
    match tag.shape {
        Shape::Closing if tag.number == VALUE => Some(rest),
        _ => None,
    }
}
