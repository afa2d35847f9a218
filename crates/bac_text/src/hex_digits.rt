//! Octets in hexadecimal digits.
ghost use Rattle.std.specs.{Char.is_ascii_hexdigit, List.list_all};
ghost use Rattle.std.specs.Prelude.{◌≡◌, ◌≤◌, is_ok, IsTrue, length, option_map};
ghost use Rattle.{hex.specs.Hex.decode_of, bac_text.specs.{Words.octets_of, Inner.Words.octets_in}};

use crate::hex_lanes::octets_from;

/// The octets of the longest line of a script, without its line feed.
pub const LONGEST_LINE: usize = 4096;

/// Room for the octets of any datagram in a line: each octet has two digits.
pub const LONGEST_DATAGRAM: usize = LONGEST_LINE / 2;

/// Octets, as a positive even number of hexadecimal digits.
#[derive(Clone, Copy)]
pub(crate) struct HexDigits<'a> {
    /// The digits.
    pub(crate) digits: &'a [u8],
    ghost fits: { length digits.now ≤ 4096 },
    ghost read: { IsTrue (is_ok (decode_of digits.now)) },
}

/// Reads a word as a datagram: a positive even number of hexadecimal digits. Puts its octets into the room, and returns
/// them; `None` if the word is not a datagram.
pub fn read_datagram<'r>(word: &[u8], room: &'r mut [u8; LONGEST_DATAGRAM]) -> Option<&'r [u8]>
    ensures { option_map (λ octets. octets.now) result ≡ octets_of word.now }
{
    if word.is_empty() || word.len() > LONGEST_LINE {
        return None;
    }
    if word.len() % 2 == 1 {
        return None;
    }
    let octets = &mut room[..word.len() / 2];
    octets_from(word, octets)?;
    Some(octets)
}

/// Returns the digits of a word, if it is only digits.
#[tactic(auto, using(crate::proofs::digits_of_words))]
pub(crate) fn read_hex(word: &[u8]) -> Option<HexDigits<'_>>
    ensures { option_map (λ hex. octets_in hex.digits.now) result ≡ octets_of word.now }
{
    if word.is_empty() || word.len() > LONGEST_LINE || word.len() % 2 == 1 {
        return None;
    }
    if !is_hex(word) {
        return None;
    }
    Some(HexDigits { digits: word })
}

pub(crate) fn is_hex(word: &[u8]) -> bool
    ensures { result ≡ list_all is_ascii_hexdigit word.now }
{
    word.iter().all(|digit| digit.is_ascii_hexdigit())
}
