//! A count of the tags that are read, which exists only in proofs.
ghost use Rattle.std.specs.{Borrow.ftrue, Prelude.{◌+◌, ◌≡◌, ℕ}};

use std::marker::Model;

/// The number of tags read so far in walks over items. It needs no memory, and its methods do nothing. It never
/// decreases. `begin` of `bac_work` makes a new count. No crate up to `bac_device` uses that crate, so these crates can
/// count only in a `Work` that they are given.
#[derive(Drop)]
pub struct Work {
    pub ghost tags: { ℕ },
}

impl Model for Work {
    ghost also_owns = { λ _. ftrue };
}

impl Work {
    /// Counts one more tag.
    pub(crate) fn count_one(&mut self)
        ensures { self.new.tags ≡ self.old.tags + 1 }
    {
        *self = self.and_one(self);
    }

    // Returns a new count that is one greater. A walk over ghost data takes two references.
    fn and_one(&self, _again: &Work) -> Work
        ensures { result.tags ≡ self.now.tags + 1 }
    {
        Work {}
    }
}
