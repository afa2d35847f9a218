//! Laws of the clones and the `==` of `WriteFailed`. Each function has an empty body, and its clause is the law.
ghost use Rattle.bac_wire.specs.{EqualsBy, MakesCopies};

use crate::checked::WriteFailed;

/// A clone equals its original, and allocates no memory.
pub fn clones()
    ensures write { MakesCopies ⟦<WriteFailed as Clone>⟧.is_clone ⟦<WriteFailed as Clone>⟧.is_infallible }
{}

/// All faults of writing are equal.
pub fn equals()
    ensures write { EqualsBy (λ write. write) ⟦<WriteFailed as PartialEq>⟧.eq }
{}
