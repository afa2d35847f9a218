//! Hexadecimal digits as octets, several at a time.
ghost use Rattle.std.specs.{Prelude.{◌*◌, ◌+◌, ◌≡◌, ◌≤◌, length, MatchOption, not}, Result.result_ok, Simd.Lanes.chunk};
ghost use Rattle.{hex.specs.Hex.{decode_of, is_hex_digit}, bac_text.specs.Inner.{IsRunIn, octets_by_lanes}};

use crate::search::first_set;
use std::simd::prelude::*;

// How many octets are read at a time.
const OCTETS: usize = 8;

// The digits of this many octets.
const DIGITS: usize = 16;

/// Writes the octets of these digits into the room, which fits them exactly, if they are digits.
pub(crate) fn octets_from(digits: &[u8], octets: &mut [u8]) -> Option<()>
    requires { length digits.now ≡ 2 * length octets.old }
    ensures { MatchOption result (result_ok (decode_of digits.now) ≡ None)
        (λ _. result_ok (decode_of digits.now) ≡ Some octets.new) }
{
    if octets.len() < OCTETS {
        return hex::decode_to_slice(digits, octets).ok();
    }
    let mut start = 0;
    while start < octets.len() {
        // The last load repeats some octets that were read.
        let at = start.min(octets.len() - OCTETS);
        if run_of_digits(digits, 2 * at) < DIGITS {
            return None;
        }
        eight_octets(digits, 2 * at).copy_to_slice(&mut octets[at..]);
        start = at + OCTETS;
    }
    Some(())
}

// Returns how many octets of one load come before the first that is not a digit.
#[inline(always)]
fn run_of_digits(digits: &[u8], at: usize) -> usize
    requires { at + DIGITS ≤ length digits.now }
    ensures { IsRunIn (λ digit. not (is_hex_digit digit)) digits.now at DIGITS result }
{
    let loaded = u8x16::from_slice(&digits[at..]);
    let numbers = loaded - u8x16::splat(b'0');
    let letters = (loaded | u8x16::splat(0x20)) - u8x16::splat(b'a');
    let others = numbers.simd_gt(u8x16::splat(9)) & letters.simd_gt(u8x16::splat(5));
    first_set(others.to_bitmask(), DIGITS)
}

// Returns the octets in the digits of one load.
#[inline(always)]
fn eight_octets(digits: &[u8], at: usize) -> u8x8
    requires { at + DIGITS ≤ length digits.now }
    ensures { result ≡ octets_by_lanes (chunk at DIGITS digits.now) }
{
    let loaded = u8x16::from_slice(&digits[at..]);
    let is_letter = loaded.simd_gt(u8x16::splat(63));
    let numbers = (loaded & u8x16::splat(15)) + is_letter.select(u8x16::splat(9), u8x16::splat(0));
    let high = numbers.swizzle([0, 2, 4, 6, 8, 10, 12, 14]);
    let low = numbers.swizzle([1, 3, 5, 7, 9, 11, 13, 15]);
    (high << 4) + low
}
