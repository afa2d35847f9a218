//! Begins a count of the tags that are read.
//!
//! No crate up to `bac_device` uses this one. So a call there that walks over items counts in the `Work` that it is
//! given, and its clause `work` bounds all its walks.
#![tactic(auto)]

ghost use Rattle.std.specs.Prelude.{◌≡◌};

use bac_wire::Work;

/// Returns a new count: no tag was read yet.
pub fn begin() -> Work
    ensures { result.tags ≡ 0 }
{
    Work {}
}
