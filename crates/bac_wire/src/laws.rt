//! Laws of the definitions that the contracts cite, and of the clones and the `==` of the public types. Each
//! function has an empty body, and its clauses are the laws.

ghost use Rattle.std.specs.Prelude.{[], ◌++◌, ◌+◌, ◌<◌, ◌^◌, ◌↔◌, ◌≡◌, ◌≤◌, length, List, ℕ};
ghost use Rattle.bac_wire.specs.{behind_items, closing_tag, context_at, datum, deepest, enclosed_at, enclosed_octets};
ghost use Rattle.bac_wire.specs.{enumerated, EqualsBy, frame_room, identifier, IsClosedRegion, IsDatum, IsIdentifier};
ghost use Rattle.bac_wire.specs.{IsItem, IsPrefixFree, IsReadBack, IsReader, IsRegion, IsShortest, IsSound, IsTag};
ghost use Rattle.bac_wire.specs.{LeavesRest, MakesCopies, number_at, number_octets, object, object_at, object_octets};
ghost use Rattle.bac_wire.specs.{Opens, plain, plain_tag, region_at, Spells, SpellsAll, SpellsClosed, SpellsContext};
ghost use Rattle.bac_wire.specs.{SpellsEnclosed, SpellsIn, SpellsTag, tag_at, value_at, values_of, Datum.Datum};
ghost use Rattle.bac_wire.specs.{declared.tag.Tag.Tag, Identifier.Identifier};

use crate::frame::{FRAME_OCTETS, Full};
use crate::items::NESTING;
use crate::object_id::ObjectId;
use crate::tag::{Shape, Tag};
use crate::value::Value;

/// Laws of tags. No spelling begins another. `write_tag` appends the shortest one, which is read back whatever follows.
/// `tag_at` reads from left to right exactly the spellings of a tag.
pub fn tags()
    ensures one { IsPrefixFree SpellsTag }
    ensures shortest { (tag : Tag) → IsTag tag → IsShortest SpellsTag (plain_tag tag) tag }
    ensures read_back { (tag : Tag) → IsTag tag → IsReadBack SpellsTag (plain_tag tag) tag }
    ensures reading { IsReader SpellsTag tag_at }
{}

/// Laws of values: those of tags, for `write_value` and `value_at`. A value that has a spelling is sound, so a value
/// that was read can be written.
pub fn values()
    ensures one { IsPrefixFree Spells }
    ensures shortest { (value : Datum) → IsDatum value → IsShortest Spells (plain value) value }
    ensures read_back { (value : Datum) → IsDatum value → IsReadBack Spells (plain value) value }
    ensures reading { IsReader Spells value_at }
    ensures sound { (octets : List ℕ) (value : Datum) → Spells octets value → IsSound value }
{}

/// A region is read as the values that it spells, one after another, if it is only values (clause 20.2.1).
#[tactic(auto, using(crate::proofs::are_spelled))]
pub fn values_in_words()
    ensures { (region : List ℕ) (values : List Datum) →
        (values_of region ≡ Some values) ↔ SpellsAll Spells region values }
{}

/// Laws of items. None begins another, whatever depth is allowed to either, and none begins with a closing tag. At no
/// place in a region are more opening tags open at once than its depth allows.
#[tactic(auto, using(crate::proofs::one_item, crate::proofs::item_opens, crate::proofs::nesting))]
pub fn items()
    ensures one { (depth other : ℕ) (a b u v : List ℕ) → IsItem depth a → IsItem other b → a ++ u ≡ b ++ v → a ≡ b }
    ensures opens { (depth number : ℕ) (item closing u v : List ℕ) → IsItem depth item
        → SpellsTag closing (closing_tag number) → item ++ u ≡ closing ++ v → ⊥ }
    ensures nesting { (depth count : ℕ) (octets front rest : List ℕ) → IsRegion depth octets → Opens count front
        → octets ≡ front ++ rest → count ≤ depth }
{}

/// Laws of regions. A body has only one end of its region, whatever depth is allowed and whatever the closing tag's
/// number. `behind_items` finds the octets that whole items leave, and none if the whole list is a region; `region_at`
/// reads the region up to a closing tag with its number.
pub fn regions()
    ensures one { (depth other number another : ℕ) (octets a b : List ℕ) → IsClosedRegion depth number octets a
        → IsClosedRegion other another octets b → (a ≡ b) × (number ≡ another) }
    ensures rest { (depth : ℕ) (octets rest : List ℕ)
        → (behind_items (length octets + 1) depth octets ≡ Some rest) ↔ LeavesRest depth octets rest }
    ensures whole { (depth : ℕ) (octets : List ℕ)
        → (behind_items (length octets + 1) depth octets ≡ Some []) ↔ IsRegion depth octets }
    ensures reading { (number : ℕ) → IsReader (SpellsClosed number) (region_at number) }
{}

/// Laws of parameters. Each function reads the contents of a context tag with its number, or those between an opening
/// and a closing tag, and the written forms spell them.
pub fn parameters()
    ensures context { (number : ℕ) → IsReader (SpellsContext number) (context_at number) }
    ensures number { (number : ℕ) → IsReader (SpellsIn enumerated number) (number_at number) }
    ensures object { (number : ℕ) → IsReader (SpellsIn object number) (object_at number) }
    ensures enclosed { (number : ℕ) → IsReader (SpellsEnclosed number) (enclosed_at number) }
    ensures of_number { (number n : ℕ) → number < 255 → n < 2 ^ 32
        → SpellsIn enumerated number (number_octets number n) n }
    ensures of_object { (number : ℕ) (id : Identifier) → number < 255 → IsIdentifier id
        → SpellsIn object number (object_octets number id) id }
    ensures of_region { (number : ℕ) (region : List ℕ) → number < 255 → IsRegion deepest region
        → SpellsEnclosed number (enclosed_octets number region) region }
{}

/// The limits in the code are the limits in the definitions.
pub fn limits()
    ensures frame { FRAME_OCTETS ≡ frame_room }
    ensures nesting { NESTING ≡ deepest }
{}

/// A clone equals its original, and allocates no memory.
pub fn clones()
    ensures full { MakesCopies ⟦<Full as Clone>⟧.is_clone ⟦<Full as Clone>⟧.is_infallible }
    ensures shape { MakesCopies ⟦<Shape as Clone>⟧.is_clone ⟦<Shape as Clone>⟧.is_infallible }
    ensures tag { MakesCopies ⟦<Tag as Clone>⟧.is_clone ⟦<Tag as Clone>⟧.is_infallible }
    ensures object { MakesCopies ⟦<ObjectId as Clone>⟧.is_clone ⟦<ObjectId as Clone>⟧.is_infallible }
    ensures value { MakesCopies ⟦<Value<'static> as Clone>⟧.is_clone ⟦<Value<'static> as Clone>⟧.is_infallible }
{}

/// `==` compares the contents of a shape or a tag, the type and the instance of an identifier, and the kind and the
/// contents of values, wherever borrowed octets lie in memory.
pub fn equals()
    ensures full { EqualsBy (λ full. full) ⟦<Full as PartialEq>⟧.eq }
    ensures shape { EqualsBy (λ shape. shape) ⟦<Shape as PartialEq>⟧.eq }
    ensures tag { EqualsBy (λ tag. tag) ⟦<Tag as PartialEq>⟧.eq }
    ensures object { EqualsBy identifier ⟦<ObjectId as PartialEq>⟧.eq }
    ensures value { EqualsBy datum ⟦<Value<'static> as PartialEq>⟧.eq }
{}
