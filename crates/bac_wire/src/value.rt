//! Values under an application tag, read and written.

ghost use Rattle.std.specs.{Int.w64, Prelude.{◌++◌, ◌<◌, ◌^◌, ◌↔◌, ◌≡◌, ◌≤◌, IfSome, IsTrue, length, OnOk, option_map}};
ghost use Rattle.byteorder.specs.Endian.{big_bytes, low_bytes, twos_complement};
ghost use Rattle.bac_wire.specs.{Appends, bits_of, boolean, contents_of, datum, exactly, FindsFront, identifier};
ghost use Rattle.bac_wire.specs.{InRange, IsReadBack, IsShortest, IsSound, null, number_of, number_within, octet_count};
ghost use Rattle.bac_wire.specs.{plain, signed_count, Spells, value_at, Inner.tagged};

use crate::frame::{FRAME_OCTETS, Frame, Full};
use crate::object_id::ObjectId;
use crate::tag::{Shape, Tag, shortest, tag_and_rest};
use byteorder::{BigEndian, ByteOrder};

/// A value after an application tag (ANSI/ASHRAE 135, 20.2.2 to 20.2.14). Borrowed parts are slices of the octets that
/// were read.
#[derive(Clone, Copy, Debug, PartialEq, Eq)]
pub enum Value<'a> {
    Null,
    /// Boolean: its value is in the tag.
    Bool(bool),
    Unsigned(u64),
    Signed(i64),
    /// The octets of a number of single precision (IEEE 754), the high octet first.
    Real([u8; 4]),
    /// The octets of a number of double precision, the high octet first.
    Double([u8; 8]),
    /// OctetString.
    Octets(&'a [u8]),
    /// CharacterString: the number of its character set, and its octets.
    Chars(u8, &'a [u8]),
    /// BitString: how many bits of the last octet are unused, 0 to 7, and its octets.
    Bits(u8, &'a [u8]),
    Enumerated(u32),
    /// Four octets: the year minus 1900, the month, the day, and the day of the week.
    Date([u8; 4]),
    /// Four octets: the hour, the minute, the second, and the hundredths.
    Time([u8; 4]),
    /// ObjectIdentifier.
    Object(ObjectId),
}

impl Value<'_> {
    /// Returns whether the value can be written: not a BitString with more than 7 unused bits, or with unused bits and
    /// no octets.
    pub fn sound(&self) -> bool
        ensures { IsTrue result ↔ IsSound (datum self.now) }
    {
        match self {
            Value::Bits(unused, octets) => *unused <= 7 && (*unused == 0 || !octets.is_empty()),
            _ => true,
        }
    }
}

/// Returns the value at the front, and how many octets spell it; `None` only if no value is spelled at the front: there
/// is no tag, its number or class is another one, too few octets follow it, or its contents are not a value of their
/// kind. Nothing is copied.
pub fn read_value(octets: &[u8]) -> Option<(Value<'_>, usize)>
    ensures { FindsFront Spells octets.now (option_map (λ x. (datum x.0, x.1)) result) }
{
    let (value, rest) = value_and_rest(octets)?;
    Some((value, octets.len() - rest.len()))
}

/// Returns the value at the front, and the octets after it; `None` if `read_value` returns `None`.
#[tactic(auto, unfolding(crate::specs::value_at))]
pub fn value_and_rest(octets: &[u8]) -> Option<(Value<'_>, &[u8])>
    ensures { option_map (λ x. (datum x.0, x.1.now)) result ≡ value_at octets.now }
{
    let (tag, rest) = tag_and_rest(octets)?;
    let Shape::App(count) = tag.shape else {
        return None;
    };
    if tag.number == 1 {
        return match count {
            0 => Some((Value::Bool(false), rest)),
            1 => Some((Value::Bool(true), rest)),
            _ => None,
        };
    }
    let (contents, rest) = rest.split_at_checked(count as usize)?;
    Some((value_of(tag.number, contents)?, rest))
}

/// Appends the shortest spelling of the value, which must be sound. If there is no room, returns `Full` and leaves the
/// frame unchanged.
#[inline(always)]
pub fn write_value(frame: &mut Frame, value: &Value<'_>) -> Result<(), Full>
    requires { IsSound (datum value.now) }
    ensures appended { Appends frame.old (plain (datum value.now)) frame.new result }
    ensures shortest { OnOk result (IsShortest Spells (plain (datum value.now)) (datum value.now)) }
    ensures read_back { OnOk result (IsReadBack Spells (plain (datum value.now)) (datum value.now)) }
{
    append_value(frame, value)
}

/// Returns how many octets the number needs, at least one (ANSI/ASHRAE 135, 20.2.4).
pub fn octet_count(n: u64) -> usize
    ensures value { result ≡ octet_count n }
    ensures low { 1 ≤ result }
    ensures high { result ≤ 8 }
    ensures fits { n < 256 ^ result }
{
    match n {
        0..0x100 => 1,
        0x100..0x1_0000 => 2,
        0x1_0000..0x100_0000 => 3,
        0x100_0000..0x1_0000_0000 => 4,
        0x1_0000_0000..0x100_0000_0000 => 5,
        0x100_0000_0000..0x1_0000_0000_0000 => 6,
        0x1_0000_0000_0000..0x100_0000_0000_0000 => 7,
        _ => 8,
    }
}

// Returns the value in the contents, from the number of the tag before them.
#[tactic(auto, unfolding(crate::specs::contents_of))]
fn value_of(number: u8, contents: &[u8]) -> Option<Value<'_>>
    ensures { option_map datum result ≡ contents_of number contents.now }
{
    match number {
        0 if contents.is_empty() => Some(Value::Null),
        2 => Some(Value::Unsigned(unsigned_of(contents, 8)?)),
        3 => Some(Value::Signed(signed_of(contents)?)),
        4 => Some(Value::Real(four(contents)?)),
        5 => Some(Value::Double(eight(contents)?)),
        6 => Some(Value::Octets(contents)),
        7 => {
            let [set, text @ ..] = contents else {
                return None;
            };
            Some(Value::Chars(*set, text))
        }
        8 => bits_of(contents),
        9 => Some(Value::Enumerated(unsigned_of(contents, 4)? as u32)),
        10 => Some(Value::Date(four(contents)?)),
        11 => Some(Value::Time(four(contents)?)),
        12 => Some(Value::Object(ObjectId::of_number(BigEndian::read_u32(&four(contents)?)))),
        _ => None,
    }
}

// Returns the number in the contents, if they have one to `most` octets.
fn unsigned_of(contents: &[u8], most: usize) -> Option<u64>
    requires { most ≤ 8 }
    ensures value { result ≡ number_within most contents.now }
    ensures fits { IfSome result (λ n. n < 256 ^ most) }
{
    if contents.is_empty() || most < contents.len() {
        return None;
    }
    Some(BigEndian::read_uint(contents, contents.len()))
}

// Returns the number in the contents, in two's complement, if they have one to eight octets.
fn signed_of(contents: &[u8]) -> Option<i64>
    ensures { result ≡ option_map (twos_complement (length contents.now)) (number_within 8 contents.now) }
{
    if contents.is_empty() || 8 < contents.len() {
        return None;
    }
    Some(BigEndian::read_int(contents, contents.len()))
}

// Returns the contents, if they are four octets.
fn four(contents: &[u8]) -> Option<[u8; 4]>
    ensures { result ≡ exactly 4 contents.now }
{
    contents.try_into().ok()
}

// Returns the contents, if they are eight octets.
fn eight(contents: &[u8]) -> Option<[u8; 8]>
    ensures { result ≡ exactly 8 contents.now }
{
    contents.try_into().ok()
}

// Returns a BitString: how many bits are unused, and the octets. `None` if it is not sound.
fn bits_of(contents: &[u8]) -> Option<Value<'_>>
    ensures { option_map datum result ≡ bits_of contents.now }
{
    let [unused, octets @ ..] = contents else {
        return None;
    };
    let value = Value::Bits(*unused, octets);
    value.sound().then_some(value)
}

#[tactic(auto, unfolding(crate::specs::plain, crate::specs::Inner::tagged))]
#[inline(always)]
fn append_value(frame: &mut Frame, value: &Value<'_>) -> Result<(), Full>
    requires { IsSound (datum value.now) }
    // This follows from the types of the fields. It is stated for the caller's proof.
    ensures range { InRange (datum value.now) }
    ensures appended { Appends frame.old (plain (datum value.now)) frame.new result }
{
    match value {
        Value::Null => append_null(frame),
        Value::Bool(value) => append_boolean(frame, *value),
        Value::Unsigned(number) => append_number(frame, 2, *number),
        Value::Signed(number) => append_signed(frame, *number),
        Value::Real(octets) => append_four(frame, 4, octets),
        Value::Double(octets) => append_tagged(frame, 5, &[], octets),
        Value::Octets(octets) => append_tagged(frame, 6, &[], octets),
        Value::Chars(set, text) => append_tagged(frame, 7, &[*set], text),
        Value::Bits(unused, octets) => append_tagged(frame, 8, &[*unused], octets),
        Value::Enumerated(number) => append_number(frame, 9, u64::from(*number)),
        Value::Date(octets) => append_four(frame, 10, octets),
        Value::Time(octets) => append_four(frame, 11, octets),
        Value::Object(id) => append_object(frame, *id),
    }
}

#[tactic(auto, unfolding(crate::specs::plain, crate::specs::plain_tag))]
fn append_null(frame: &mut Frame) -> Result<(), Full>
    ensures { Appends frame.old (plain null) frame.new result }
{
    frame.append(&[0])
}

#[tactic(auto, unfolding(crate::specs::plain, crate::specs::plain_tag))]
fn append_boolean(frame: &mut Frame, value: bool) -> Result<(), Full>
    ensures { Appends frame.old (plain (boolean value)) frame.new result }
{
    frame.append(&[0x10 + u8::from(value)])
}

fn append_number(frame: &mut Frame, number: u8, n: u64) -> Result<(), Full>
    requires { number < 15 }
    ensures { Appends frame.old (tagged number (big_bytes (octet_count n) n)) frame.new result }
{
    if n < 256 {
        return append_octet(frame, number, n as u8);
    }
    let mut contents = [0; 8];
    let count = octet_count(n);
    BigEndian::write_uint(&mut contents, n, count);
    append_tagged(frame, number, &contents[..count], &[])
}

// Appends a tag of one octet, and a number of one octet.
#[tactic(auto, using(crate::proofs::one_tagged))]
fn append_octet(frame: &mut Frame, number: u8, n: u8) -> Result<(), Full>
    requires { number < 15 }
    ensures { Appends frame.old (tagged number (big_bytes (octet_count n) n)) frame.new result }
{
    frame.append(&[16 * number + 1, n])
}

#[tactic(auto, using(crate::proofs::bytes_taken))]
fn append_signed(frame: &mut Frame, n: i64) -> Result<(), Full>
    ensures { Appends frame.old (tagged 3 (big_bytes (signed_count n) (low_bytes w64 (signed_count n) n)))
        frame.new result }
{
    let mut contents = [0; 8];
    let count = signed_octet_count(n);
    BigEndian::write_int(&mut contents, n, count);
    append_tagged(frame, 3, &contents[..count], &[])
}

// Returns how many octets the number needs in two's complement.
fn signed_octet_count(n: i64) -> usize
    ensures value { result ≡ signed_count n }
    ensures low { 1 ≤ result }
    ensures high { result ≤ 8 }
{
    let size = n.unsigned_abs();
    octet_count(2 * (if n < 0 { size - 1 } else { size }))
}

fn append_object(frame: &mut Frame, id: ObjectId) -> Result<(), Full>
    ensures { Appends frame.old (tagged 12 (big_bytes 4 (number_of (identifier id)))) frame.new result }
{
    let mut contents = [0; 4];
    BigEndian::write_u32(&mut contents, id.number());
    append_four(frame, 12, &contents)
}

// Appends a tag of one octet, and four octets of contents.
#[tactic(auto, using(crate::proofs::four_tagged))]
#[inline(always)]
fn append_four(frame: &mut Frame, number: u8, contents: &[u8; 4]) -> Result<(), Full>
    requires { number < 15 }
    // This follows from the type of the contents. It is stated for the caller's proof.
    ensures four { length contents.now ≡ 4 }
    ensures appended { Appends frame.old (tagged number contents.now) frame.new result }
{
    let [a, b, c, d] = *contents;
    frame.append(&[16 * number + 4, a, b, c, d])
}

// Appends the tag of the contents, which are in two parts, and the contents.
#[tactic(auto, unfolding(crate::specs::Inner::tagged))]
fn append_tagged(frame: &mut Frame, number: u8, first: &[u8], rest: &[u8]) -> Result<(), Full>
    requires number { number < 255 }
    requires first { length first.now ≤ 8 }
    ensures { Appends frame.old (tagged number (first.now ++ rest.now)) frame.new result }
{
    if FRAME_OCTETS < rest.len() {
        return Err(Full);
    }
    let shape = Shape::App((first.len() + rest.len()) as u32);
    let mut head = shortest(Tag { number, shape });
    let _ = head.try_extend_from_slice(first);
    if FRAME_OCTETS < frame.len() + head.len() + rest.len() {
        return Err(Full);
    }
    frame.append(head.as_slice())?;
    frame.append(rest)
}
