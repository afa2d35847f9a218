//! The octets of a datagram as it is written, in fixed room.

ghost use Rattle.std.specs.Prelude.{[], ◌++◌, ◌+◌, ◌<◌, ◌↔◌, ◌≡◌, ◌≤◌, IsTrue, length, OnErr, OnOk, take};
ghost use Rattle.bac_wire.specs.{Appends, frame_room};

use arrayvec::ArrayVec;
use std::marker::Model;

/// The octets that a frame has room for: 1,476 of the longest APDU that a device can announce (ANSI/ASHRAE 135,
/// 20.1.2.5), at most 17 of the headers before it, and four more.
pub const FRAME_OCTETS: usize = 1497;

/// The caller's octets do not all fit into the frame, which is unchanged. The caller clears it first, or writes less.
#[derive(Clone, Copy, Debug, PartialEq, Eq)]
pub struct Full;

/// The octets of a datagram, or of a part of one, in fixed room: a list of at most `FRAME_OCTETS` octets.
#[derive(Drop)]
pub struct Frame {
    octets: ArrayVec<u8, FRAME_OCTETS>,
}

impl Model for Frame {
    ghost use Rattle.std.specs.Prelude.{List, ℕ};

    ghost Value = { List ℕ };

    ghost view = { λ frame. frame.octets.items };
}

impl Frame {
    /// Returns a frame with no octets.
    pub fn new() -> Self
        ensures { result ≡ [] }
    {
        Frame {
            octets: ArrayVec::new(),
        }
    }

    /// Returns the octets.
    pub fn as_slice(&self) -> &[u8]
        ensures value { result.now ≡ self.now }
        ensures fits { length self.now ≤ frame_room }
    {
        self.octets.as_slice()
    }

    /// Returns how many octets there are.
    pub fn len(&self) -> usize
        ensures value { result ≡ length self.now }
        ensures fits { length self.now ≤ frame_room }
    {
        self.as_slice().len()
    }

    /// Returns whether there are no octets.
    pub fn is_empty(&self) -> bool
        ensures { IsTrue result ↔ (self.now ≡ []) }
    {
        self.as_slice().is_empty()
    }

    /// Removes all octets.
    pub fn clear(&mut self)
        ensures { self.new ≡ [] }
    {
        self.octets.clear();
    }

    /// Appends the octets. If they do not all fit, returns `Full` and appends none.
    pub fn append(&mut self, octets: &[u8]) -> Result<(), Full>
        ensures { Appends self.old octets.now self.new result }
    {
        self.octets.try_extend_from_slice(octets).map_err(|_| Full)
    }

    /// Puts the octets before the others. If they do not all fit, returns `Full` and leaves the frame unchanged.
    pub fn prepend(&mut self, octets: &[u8]) -> Result<(), Full>
        ensures ok { OnOk result (self.new ≡ octets.now ++ self.old) }
        ensures fits { OnOk result (length octets.now + length self.old ≤ frame_room) }
        ensures full { OnErr result (frame_room < length octets.now + length self.old) }
        ensures err { OnErr result (self.new ≡ self.old) }
    {
        let count = self.len();
        self.append(octets)?;
        put_before(self.octets.as_mut_slice(), count, octets);
        Ok(())
    }

    /// Keeps the first `n` octets and removes the others. The frame must have at least `n`.
    pub fn truncate(&mut self, n: usize)
        requires { n ≤ length self.old }
        ensures { self.new ≡ take n self.old }
    {
        self.octets.truncate(n);
    }
}

// Moves the first `count` octets to the end, and puts `front` before them. The slice has room for exactly both.
fn put_before(octets: &mut [u8], count: usize, front: &[u8])
    requires { length octets.old ≡ count + length front.now }
    ensures { octets.new ≡ front.now ++ take count octets.old }
{
    octets.copy_within(..count, front.len());
    octets[..front.len()].copy_from_slice(front);
}
