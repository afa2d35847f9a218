//! Laws of the definitions that the contracts cite. Each function has an empty body, and its clauses are
//! the laws.
ghost use Rattle.std.specs.Prelude.{IfSome, List, Option, ℕ, ◌*◌, ◌<◌, ◌^◌, ◌≡◌};
ghost use Rattle.{bac_pdu.specs.IsPriority, bac_wire.specs.{EqualsBy, IsIdentifier, MakesCopies}};
ghost use Rattle.{bac_wire.specs.Identifier.Identifier, bac_text.specs.{body_of, IsWritten, longest_line}};

use crate::hex_digits::{LONGEST_DATAGRAM, LONGEST_LINE};
use crate::pairs::PairFault;
use crate::peers::Reach;
use crate::search::Delimiter;

/// The body of a WriteProperty request gives the property the values that the words write, spelled one after another,
/// and is read as these values.
#[tactic(auto, using(crate::proofs::bodies_written))]
pub fn bodies_in_words()
    ensures { (object : Identifier) (property : ℕ) (index priority : Option ℕ) (words : List (List ℕ)) (body : List ℕ) →
        IsIdentifier object → property < 2 ^ 32 → IfSome index (λ n. n < 2 ^ 32) → IfSome priority IsPriority →
        body_of object property index priority words ≡ Ok body → IsWritten object property index priority words body }
{}

/// The limits in the code are the limits in the definitions: a datagram has two digits for each octet.
pub fn limits()
    ensures line { LONGEST_LINE ≡ longest_line }
    ensures datagram { 2 * LONGEST_DATAGRAM ≡ longest_line }
{}

/// A clone equals its original, and allocates no memory.
pub fn clones()
    ensures end { MakesCopies ⟦<Delimiter as Clone>⟧.is_clone ⟦<Delimiter as Clone>⟧.is_infallible }
    ensures pair { MakesCopies ⟦<PairFault as Clone>⟧.is_clone ⟦<PairFault as Clone>⟧.is_infallible }
    ensures reach { MakesCopies ⟦<Reach as Clone>⟧.is_clone ⟦<Reach as Clone>⟧.is_infallible }
{}

/// `==` compares the faults of a pair.
pub fn equals()
    ensures pair { EqualsBy (λ pair. pair) ⟦<PairFault as PartialEq>⟧.eq }
{}
