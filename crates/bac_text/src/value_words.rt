//! A value as two words: the number of its application tag, and a word that is read as this type.
ghost use Rattle.std.specs.{List.list_all, Prelude.{IfSome, if◌then◌else◌, MatchResult, OnErr, option_map}};
ghost use Rattle.std.specs.{Prelude.{slice_index, ◌==◌, ◌||◌, ◌≡◌, ◌≢◌, ◌≤◌}, Result.result_ok};
ghost use Rattle.bac_wire.specs.{datum, identifier, IsSound, octet_string};
ghost use Rattle.{hex.specs.Hex.{decode_of, decode_sized}, bac_text.specs.bits_in};
ghost use Rattle.bac_text.specs.{bits_octet, boolean_in, object_in, signed_in, value_in, value_under, Inner.appended};

use crate::hex_digits::is_hex;
use crate::numbers::read_number;
use crate::peers::cut;
use bac_wire::{FRAME_OCTETS, Frame, ObjectId, Value, write_value};

/// Why the value of a tag and a word cannot be written.
#[derive(Clone, Copy)]
pub(crate) enum ValueFault {
    /// The first word is not a tag, or the second is not a value of that type.
    Bad,
    /// There is no room for the octets of the value.
    TooLong,
}

/// Appends the shortest spelling of the value of a tag and a word. If this fails, the region is unchanged.
///
/// # Errors
///
/// `Bad` if the tag is not a number up to 12 or the word is not a value of that type; otherwise `TooLong` if the frame
/// has no room.
#[tactic(auto, unfolding(crate::specs::value_under))]
pub(crate) fn append_pair(region: &mut Frame, tag: &[u8], word: &[u8]) -> Result<(), ValueFault>
    ensures value { MatchResult result
        (λ _. appended region.old (value_in tag.now word.now) ≡ Ok region.new)
        (λ fault. appended region.old (value_in tag.now word.now) ≡ Err fault) }
    ensures err { OnErr result (region.new ≡ region.old) }
{
    match read_number(tag, 12).ok_or(ValueFault::Bad)? {
        6 => append_octets(region, word),
        8 => append_bits(region, word),
        number => {
            let value = read_value_word(number, word).ok_or(ValueFault::Bad)?;
            append_value(region, &value)
        }
    }
}

// Returns the value of a word with any tag except those of octet strings and bit strings, whose octets need room.
#[tactic(auto, unfolding(crate::specs::value_under))]
fn read_value_word(number: u64, word: &[u8]) -> Option<Value<'_>>
    requires not_octets { number ≢ 6 }
    requires not_bits { number ≢ 8 }
    ensures value { option_map datum result ≡ value_under number word.now }
    ensures sound { IfSome result (λ value. IsSound (datum value)) }
{
    match number {
        0 => Some(Value::Null),
        1 => Some(Value::Bool(read_boolean(word)?)),
        2 => Some(Value::Unsigned(read_number(word, u64::MAX)?)),
        3 => Some(Value::Signed(read_signed(word)?)),
        4 => Some(Value::Real(read_octets(word)?)),
        5 => Some(Value::Double(read_octets(word)?)),
        7 => Some(Value::Chars(0, word)),
        9 => Some(Value::Enumerated(read_number(word, u32::MAX.into())? as u32)),
        10 => Some(Value::Date(read_octets(word)?)),
        11 => Some(Value::Time(read_octets(word)?)),
        12 => Some(Value::Object(read_object(word)?)),
        _ => None,
    }
}

fn read_boolean(word: &[u8]) -> Option<bool>
    ensures { result ≡ boolean_in word.now }
{
    if word == b"true".as_slice() || word == b"1".as_slice() {
        return Some(true);
    }
    if word == b"false".as_slice() || word == b"0".as_slice() {
        return Some(false);
    }
    None
}

fn read_signed(word: &[u8]) -> Option<i64>
    ensures { result ≡ signed_in word.now }
{
    match word {
        [b'-', digits @ ..] => 0_i64.checked_sub_unsigned(read_number(digits, 1 << 63)?),
        _ => Some(read_number(word, i64::MAX as u64)? as i64),
    }
}

fn read_octets<const N: usize>(word: &[u8]) -> Option<[u8; N]>
    ensures { result ≡ result_ok (decode_sized word.now N) }
{
    let mut octets = [0; N];
    hex::decode_to_slice(word, &mut octets).ok()?;
    Some(octets)
}

fn read_object(word: &[u8]) -> Option<ObjectId>
    ensures { option_map identifier result ≡ object_in word.now }
{
    let (kind, instance) = cut(word, b':')?;
    let kind = read_number(kind, 1_023)?;
    let instance = read_number(instance, 4_194_303)?;
    ObjectId::new(kind as u16, instance as u32)
}

// Appends an octet string, from hexadecimal digits.
fn append_octets(region: &mut Frame, digits: &[u8]) -> Result<(), ValueFault>
    ensures value { MatchResult result
        (λ _. appended region.old (option_map octet_string (result_ok (decode_of digits.now))) ≡ Ok region.new)
        (λ fault. appended region.old (option_map octet_string (result_ok (decode_of digits.now))) ≡ Err fault) }
    ensures err { OnErr result (region.new ≡ region.old) }
{
    if digits.len() % 2 == 1 || !is_hex(digits) {
        return Err(ValueFault::Bad);
    }
    let count = digits.len() / 2;
    if count > FRAME_OCTETS {
        return Err(ValueFault::TooLong);
    }
    let mut room = [0; FRAME_OCTETS];
    let octets = &mut room[..count];
    let _ = hex::decode_to_slice(digits, octets);
    append_value(region, &Value::Octets(octets))
}

// Appends a bit string, from digits 0 and 1, the first bit first.
fn append_bits(region: &mut Frame, digits: &[u8]) -> Result<(), ValueFault>
    ensures value { MatchResult result
        (λ _. appended region.old (bits_in digits.now) ≡ Ok region.new)
        (λ fault. appended region.old (bits_in digits.now) ≡ Err fault) }
    ensures err { OnErr result (region.new ≡ region.old) }
{
    if !are_bits(digits) {
        return Err(ValueFault::Bad);
    }
    let count = digits.len().div_ceil(8);
    if count > FRAME_OCTETS {
        return Err(ValueFault::TooLong);
    }
    let mut room = [0; FRAME_OCTETS];
    for i in 0..count {
        room[i] = bits_octet(&digits[8 * i..]);
    }
    let unused = 8 * count - digits.len();
    append_value(region, &Value::Bits(unused as u8, &room[..count]))
}

fn are_bits(digits: &[u8]) -> bool
    ensures { result ≡ list_all (λ digit. digit == 48 || digit == 49) digits.now }
{
    digits.iter().all(|digit| *digit == b'0' || *digit == b'1')
}

// Returns the octet of the first eight bits, the first of them the highest.
fn bits_octet(digits: &[u8]) -> u8
    ensures { result ≡ bits_octet digits.now }
{
    let high = 128 * bit_at(digits, 0) + 64 * bit_at(digits, 1) + 32 * bit_at(digits, 2);
    let middle = 16 * bit_at(digits, 3) + 8 * bit_at(digits, 4) + 4 * bit_at(digits, 5);
    high + middle + 2 * bit_at(digits, 6) + bit_at(digits, 7)
}

// Returns the bit of the digit at this position, or 0 if there is no digit.
fn bit_at(digits: &[u8], position: usize) -> u8
    ensures value { result ≡ (if slice_index digits.now position == 49 then 1 else 0) }
    ensures bit { result ≤ 1 }
{
    match digits.get(position) {
        Some(b'1') => 1,
        _ => 0,
    }
}

// Appends the shortest spelling of a value.
fn append_value(region: &mut Frame, value: &Value<'_>) -> Result<(), ValueFault>
    requires { IsSound (datum value.now) }
    ensures value { MatchResult result
        (λ _. appended region.old (Some (datum value.now)) ≡ Ok region.new)
        (λ fault. appended region.old (Some (datum value.now)) ≡ Err fault) }
    ensures err { OnErr result (region.new ≡ region.old) }
{
    write_value(region, value).map_err(|_| ValueFault::TooLong)
}
