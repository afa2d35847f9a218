//! The first octet that ends a piece of text, searched for several octets at a time.
ghost use Rattle.std.specs.Prelude.{◌+◌, ◌<◌, ◌≡◌, ◌≤◌, length, position};
ghost use Rattle.bac_text.specs.{ends_at, Inner.{first_set, IsRunIn}};

use crate::words::is_blank;
use std::simd::prelude::*;

// The octets that are compared at a time; fewer are compared in a short text.
const LANES: usize = 16;

const FEW_LANES: usize = 8;

/// The ends of a piece of text.
#[derive(Clone, Copy)]
pub enum Delimiter {
    /// A space or a tab.
    Blank,
    /// This octet.
    At(u8),
    /// An octet above 127, which is not ASCII.
    PastAscii,
}

/// Returns the position of the first octet that ends a piece of text, if one does.
pub fn position_of_end(octets: &[u8], end: Delimiter) -> Option<usize>
    ensures { result ≡ position (ends_at end) octets.now }
{
    if octets.len() < FEW_LANES {
        octets.iter().position(|octet| ends_at(*octet, end))
    } else if octets.len() < LANES {
        position_by::<FEW_LANES>(octets, end)
    } else {
        position_by::<LANES>(octets, end)
    }
}

/// Returns the position of the lowest bit that is set, or the number of lanes if no bit is set.
#[inline(always)]
pub(crate) fn first_set(mask: u64, lanes: usize) -> usize
    ensures { result ≡ first_set mask lanes }
{
    if mask == 0 {
        lanes
    } else {
        mask.trailing_zeros() as usize
    }
}

// Returns the position of the first octet that ends the piece, loading `N` octets at a time.
#[inline(always)]
fn position_by<const N: usize>(octets: &[u8], end: Delimiter) -> Option<usize>
    requires some { 0 < N }
    requires most { N ≤ 64 }
    requires room { N ≤ length octets.now }
    ensures { result ≡ position (ends_at end) octets.now }
{
    let last = octets.len() - N;
    let mut at = 0;
    while at < last {
        let run = run_before::<N>(octets, at, end);
        if run != N {
            return Some(at + run);
        }
        at += N;
    }
    // The last load repeats some octets that were seen.
    let run = run_before::<N>(octets, last, end);
    if run != N { Some(last + run) } else { None }
}

fn ends_at(octet: u8, end: Delimiter) -> bool
    ensures { result ≡ ends_at end octet }
{
    match end {
        Delimiter::Blank => is_blank(octet),
        Delimiter::At(other) => octet == other,
        Delimiter::PastAscii => octet > 127,
    }
}

// Returns how many octets of one load come before the first that ends a piece.
#[inline(always)]
fn run_before<const N: usize>(octets: &[u8], at: usize, end: Delimiter) -> usize
    requires most { N ≤ 64 }
    requires within { at + N ≤ length octets.now }
    ensures { IsRunIn (ends_at end) octets.now at N result }
{
    let loaded = Simd::<u8, N>::from_slice(&octets[at..]);
    let ends = match end {
        Delimiter::Blank => {
            (loaded.simd_eq(Simd::splat(b' ')) | loaded.simd_eq(Simd::splat(b'\t'))).to_bitmask()
        }
        Delimiter::At(other) => loaded.simd_eq(Simd::splat(other)).to_bitmask(),
        Delimiter::PastAscii => loaded.simd_gt(Simd::splat(127)).to_bitmask(),
    };
    first_set(ends, N)
}
