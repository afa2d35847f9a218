//! A datagram that a link received.
ghost use Rattle.std.specs.Prelude.{[], false, IsTrue, length, true, ◌↔◌, ◌≡◌, ◌≤◌};
ghost use Rattle.bac_links.specs.{longest_datagram};

use arrayvec::ArrayVec;
use std::marker::Model;

/// The octets of the longest datagram that a link receives.
pub const DATAGRAM_OCTETS: usize = 2_047;

/// The octets of one received datagram.
#[derive(Drop)]
pub struct Datagram {
    octets: ArrayVec<u8, DATAGRAM_OCTETS>,
}

impl Model for Datagram {
    ghost use Rattle.std.specs.Prelude.{List, ℕ};

    ghost Value = { List ℕ };

    ghost view = { λ datagram. datagram.octets.items };
}

impl Datagram {
    /// Returns a datagram without octets.
    pub fn new() -> Self
        ensures { result ≡ [] }
    {
        Datagram {
            octets: ArrayVec::new(),
        }
    }

    /// Returns the octets.
    pub fn as_slice(&self) -> &[u8]
        ensures value { result.now ≡ self.now }
        ensures few { length self.now ≤ longest_datagram }
    {
        self.octets.as_slice()
    }

    /// Replaces the octets. Returns false, with nothing changed, only if there are more than 2,047.
    pub fn set(&mut self, octets: &[u8]) -> bool
        ensures fits { IsTrue result ↔ (length octets.now ≤ longest_datagram) }
        ensures held { result ≡ true → self.new ≡ octets.now }
        ensures kept { result ≡ false → self.new ≡ self.old }
    {
        if octets.len() > DATAGRAM_OCTETS {
            return false;
        }
        self.octets.clear();
        let _ = self.octets.try_extend_from_slice(octets);
        true
    }
}
