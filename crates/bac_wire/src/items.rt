//! The end of the items of a service body. Contents are skipped by their lengths.

ghost use Rattle.std.specs.Prelude.{◌*◌, ◌+◌, ◌<◌, ◌↔◌, ◌≡◌, ◌≤◌, IfSome, IsTrue, length, List, option_map, ℕ};
ghost use Rattle.bac_wire.specs.{behind_closing, deepest, FindsRegion, IsRegion, LeavesRest, tag_at};
ghost use Rattle.bac_wire.specs.Inner.{CountsBehind, Finds, LeavesBehind, ReadsTwice};

use crate::tag::{Shape, Tag, tag_and_rest};
use crate::work::Work;

/// The most opening tags that may be open at once in a region.
pub const NESTING: u8 = 32;

// The number of the tags around a parameter's value, which do not count for that limit.
const REGION_END: u8 = 3;

/// Returns how many octets at the front are whole items, up to a closing tag 3; `None` if no such tag follows them, or
/// if more than 32 opening tags are open at once in them. Contents are skipped by their length, so no octet in them is
/// read as a tag (ANSI/ASHRAE 135, 20.2.1.3). At most two tags are read for each octet, and two more.
pub fn region(octets: &[u8], work: &mut Work) -> Option<usize>
    ensures found { FindsRegion deepest 3 octets.now result }
    ensures walked_once { work.new.tags ≤ work.old.tags + 2 * length octets.now + 2 }
{
    let rest = behind_items(octets, NESTING, work)?;
    behind_closing(rest, REGION_END, work)?;
    Some(octets.len() - rest.len())
}

/// Returns whether the octets are only whole items, with at most 32 opening tags open at once. No octets at all count
/// as whole items. At most two tags are read for each octet, and one more.
pub fn is_region(octets: &[u8], work: &mut Work) -> bool
    ensures found { IsTrue result ↔ IsRegion deepest octets.now }
    ensures walked_once { work.new.tags ≤ work.old.tags + 2 * length octets.now + 1 }
{
    match behind_items(octets, NESTING, work) {
        Some(rest) => rest.is_empty(),
        None => false,
    }
}

// Returns the octets after the items at the front: none, or those from a closing tag on.
#[cycle(nesting)]
fn behind_items<'a>(octets: &'a [u8], depth: u8, work: &mut Work) -> Option<&'a [u8]>
    ensures found { Finds (LeavesRest depth octets.now) (option_map (λ r. r.now) result) }
    ensures walked_once { ReadsTwice 1 work.old.tags work.new.tags octets.now (option_map (λ r. r.now) result) }
{
    let mut rest = octets;
    while let Some((tag, behind)) = next_tag(rest, work) {
        if let Shape::Closing = tag.shape {
            return Some(rest);
        }
        rest = behind_item(tag, behind, depth, work)?;
    }
    if rest.is_empty() { Some(rest) } else { None }
}

// Returns the octets after the item that begins with this tag; `behind` are the octets after the tag.
#[cycle(nesting)]
fn behind_item<'a>(tag: Tag, behind: &'a [u8], depth: u8, work: &mut Work) -> Option<&'a [u8]>
    ensures walked_once { ReadsTwice 2 work.old.tags work.new.tags behind.now (option_map (λ r. r.now) result) }
    ensures found { (octets : List ℕ) → Some (tag, behind.now) ≡ tag_at octets
        → Finds (LeavesBehind depth octets) (option_map (λ r. r.now) result) }
{
    match tag.shape {
        // An application Boolean has no octets after it.
        Shape::App(_) if tag.number == 1 => Some(behind),
        Shape::App(count) => behind_octets(behind, count),
        Shape::Context(count) => behind_octets(behind, count),
        Shape::Opening => {
            let rest = behind_items(behind, depth.checked_sub(1)?, work)?;
            behind_closing(rest, tag.number, work)
        }
        Shape::Closing => None,
    }
}

// Returns the octets after the first `count`.
fn behind_octets(octets: &[u8], count: u32) -> Option<&[u8]>
    ensures { Finds (CountsBehind count octets.now) (option_map (λ r. r.now) result) }
{
    let (_, rest) = octets.split_at_checked(count as usize)?;
    Some(rest)
}

// Returns the octets after a closing tag with this number.
#[tactic(auto, unfolding(crate::specs::behind_closing))]
fn behind_closing<'a>(octets: &'a [u8], number: u8, work: &mut Work) -> Option<&'a [u8]>
    ensures found { option_map (λ r. r.now) result ≡ behind_closing number octets.now }
    ensures shorter { IfSome result (λ r. length r.now < length octets.now) }
    ensures counted { work.new.tags ≡ work.old.tags + 1 }
{
    let (tag, rest) = next_tag(octets, work)?;
    match tag.shape {
        Shape::Closing if tag.number == number => Some(rest),
        _ => None,
    }
}

// Returns the tag at the front, and the octets after it. Counts the tag.
#[tactic(auto, using(crate::proofs::after_shorter))]
#[inline(always)]
fn next_tag<'a>(octets: &'a [u8], work: &mut Work) -> Option<(Tag, &'a [u8])>
    ensures tag { option_map (λ x. (x.0, x.1.now)) result ≡ tag_at octets.now }
    ensures shorter { IfSome result (λ x. length x.1.now < length octets.now) }
    ensures counted { work.new.tags ≡ work.old.tags + 1 }
{
    work.count_one();
    tag_and_rest(octets)
}
