//! Tags, read and written.

ghost use Rattle.std.specs.Prelude.{◌++◌, ◌+◌, ◌<◌, ◌≡◌, ◌≤◌, length, OnOk, option_map};
ghost use Rattle.bac_wire.specs.{Appends, FindsFront, IsReadBack, IsShortest, IsTag, length_at, long_length_at};
ghost use Rattle.bac_wire.specs.{plain_length, plain_tag, shape_at, SpellsTag, tag_at, tag_number_at};

use crate::frame::{Frame, Full};
use arrayvec::ArrayVec;
use byteorder::{BigEndian, ByteOrder};

/// The class of a tag, and its length or bracket (ANSI/ASHRAE 135, 20.2.1).
#[derive(Clone, Copy, Debug, PartialEq, Eq)]
pub enum Shape {
    /// Application class: the length of the contents, or, for a Boolean (number 1), its value.
    App(u32),
    /// Context class: the length of the contents.
    Context(u32),
    /// An opening tag; the closing tag with its number ends the contents.
    Opening,
    /// A closing tag; the opening tag with its number began the contents.
    Closing,
}

/// A tag, which comes before the contents of each part of an APDU's body (ANSI/ASHRAE 135, 20.2.1).
#[derive(Clone, Copy, Debug, PartialEq, Eq)]
pub struct Tag {
    /// The number, 0 to 254. In the application class it is the kind of the value, otherwise the number of the
    /// parameter.
    pub number: u8,
    /// The class, and the length or the bracket.
    pub shape: Shape,
}

/// Returns the tag at the front, and how many octets spell it; `None` only if no tag is spelled at the front. Numbers
/// and lengths in a longer form than needed are read too.
pub fn read_tag(octets: &[u8]) -> Option<(Tag, usize)>
    ensures { FindsFront SpellsTag octets.now result }
{
    let (tag, rest) = tag_and_rest(octets)?;
    Some((tag, octets.len() - rest.len()))
}

/// Returns the tag at the front, and the octets after it; `None` if `read_tag` returns `None`.
#[tactic(auto, unfolding(crate::specs::tag_at))]
#[inline(always)]
pub fn tag_and_rest(octets: &[u8]) -> Option<(Tag, &[u8])>
    ensures { option_map (λ x. (x.0, x.1.now)) result ≡ tag_at octets.now }
{
    let [initial, rest @ ..] = octets else {
        return None;
    };
    let (number, rest) = number_and_rest(*initial >> 4, rest)?;
    let (shape, rest) = shape_and_rest(*initial & 15, rest)?;
    Some((Tag { number, shape }, rest))
}

/// Appends the shortest spelling of the tag, whose number is at most 254. If there is no room, returns `Full` and
/// leaves the frame unchanged.
pub fn write_tag(frame: &mut Frame, tag: Tag) -> Result<(), Full>
    requires { tag.number < 255 }
    ensures appended { Appends frame.old (plain_tag tag) frame.new result }
    ensures shortest { OnOk result (IsShortest SpellsTag (plain_tag tag) tag) }
    ensures read_back { OnOk result (IsReadBack SpellsTag (plain_tag tag) tag) }
{
    frame.append(shortest(tag).as_slice())
}

/// Room for a tag, which has at most seven octets, and for eight octets after it.
pub(crate) type Head = ArrayVec<u8, 15>;

/// Returns the shortest spelling of the tag.
#[tactic(auto, unfolding(crate::specs::plain_tag))]
pub(crate) fn shortest(tag: Tag) -> Head
    requires { tag.number < 255 }
    ensures octets { result.items ≡ plain_tag tag }
    ensures short { length result.items ≤ 7 }
    // This follows from the types of the fields. It is stated for the caller's proof.
    ensures range { IsTag tag }
{
    let mut octets = ArrayVec::new();
    let low = match tag.shape {
        Shape::App(length) => length.min(5) as u8,
        Shape::Context(length) => 8 + length.min(5) as u8,
        Shape::Opening => 14,
        Shape::Closing => 15,
    };
    octets.push(16 * tag.number.min(15) + low);
    if tag.number >= 15 {
        octets.push(tag.number);
    }
    match tag.shape {
        Shape::App(length) | Shape::Context(length) => push_length(&mut octets, length),
        Shape::Opening | Shape::Closing => {}
    }
    octets
}

// Returns the tag's number from the high half of the initial octet. If the half is 15, the next octet has the number.
#[tactic(auto, unfolding(crate::specs::tag_number_at))]
fn number_and_rest(high: u8, octets: &[u8]) -> Option<(u8, &[u8])>
    requires { high < 16 }
    ensures { option_map (λ x. (x.0, x.1.now)) result ≡ tag_number_at high octets.now }
{
    if high < 15 {
        return Some((high, octets));
    }
    match octets {
        [number, rest @ ..] if *number < 255 => Some((*number, rest)),
        _ => None,
    }
}

// Returns the tag's shape from the low half of the initial octet: 8 is the class bit, and the rest is the length or a
// bracket.
#[tactic(auto, unfolding(crate::specs::shape_at))]
fn shape_and_rest(low: u8, octets: &[u8]) -> Option<(Shape, &[u8])>
    requires { low < 16 }
    ensures { option_map (λ x. (x.0, x.1.now)) result ≡ shape_at low octets.now }
{
    match low {
        0..8 => {
            let (length, rest) = length_and_rest(low, octets)?;
            Some((Shape::App(length), rest))
        }
        14 => Some((Shape::Opening, octets)),
        15 => Some((Shape::Closing, octets)),
        _ => {
            let (length, rest) = length_and_rest(low - 8, octets)?;
            Some((Shape::Context(length), rest))
        }
    }
}

// Returns the length from the three low bits. If they are 5, the length follows.
#[tactic(auto, unfolding(crate::specs::length_at))]
fn length_and_rest(low: u8, octets: &[u8]) -> Option<(u32, &[u8])>
    ensures { option_map (λ x. (x.0, x.1.now)) result ≡ length_at low octets.now }
{
    match low {
        0..5 => Some((u32::from(low), octets)),
        5 => long_length_and_rest(octets),
        _ => None,
    }
}

// Returns a length that follows: one octet, or two after 254, or four after 255.
#[tactic(auto, unfolding(crate::specs::long_length_at))]
#[cold]
#[inline(never)]
fn long_length_and_rest(octets: &[u8]) -> Option<(u32, &[u8])>
    ensures { option_map (λ x. (x.0, x.1.now)) result ≡ long_length_at octets.now }
{
    match octets {
        [length @ 0..254, rest @ ..] => Some((u32::from(*length), rest)),
        [254, b, c, rest @ ..] => Some((u32::from(BigEndian::read_u16(&[*b, *c])), rest)),
        [255, b, c, d, e, rest @ ..] => Some((BigEndian::read_u32(&[*b, *c, *d, *e]), rest)),
        _ => None,
    }
}

// Appends the octets of a length to those of the tag.
fn push_length(octets: &mut Head, count: u32)
    requires { length octets.old.items ≤ 2 }
    ensures items { octets.new.items ≡ octets.old.items ++ plain_length count }
    ensures short { length octets.new.items ≤ length octets.old.items + 5 }
{
    match count {
        0..5 => {}
        5..254 => octets.push(count as u8),
        254..0x1_0000 => {
            let mut two = [0; 2];
            BigEndian::write_u16(&mut two, count as u16);
            octets.push(254);
            let _ = octets.try_extend_from_slice(&two);
        }
        _ => {
            let mut four = [0; 4];
            BigEndian::write_u32(&mut four, count);
            octets.push(255);
            let _ = octets.try_extend_from_slice(&four);
        }
    }
}
