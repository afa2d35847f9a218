//! Examples of the octets of values and of parameters, worked out by computation. They show what the definitions mean.

ghost use Rattle.std.specs.Prelude.{[], ◌-◌, ◌^◌, ◌∷◌, ◌≡◌, length, List, nat_eq, negsuc, true, ℕ};
ghost use Rattle.bac_wire.specs.{App, Appends, AreOctets, bit_string, boolean, char_string, datum, deepest};
ghost use Rattle.bac_wire.specs.{enclosed_at, enclosed_octets, enumerated, EqualsBy, FindsFront, FindsRegion};
ghost use Rattle.bac_wire.specs.{frame_room, IsClosedRegion, IsDatum, IsIdentifier, IsItem, IsPrefixFree, IsReadBack};
ghost use Rattle.bac_wire.specs.{IsReader, IsRegion, IsShortest, IsSound, IsTag, LeavesRest, MakesCopies, null};
ghost use Rattle.bac_wire.specs.{number_at, number_octets, object, object_at, object_octets, octet_string, Opens, real};
ghost use Rattle.bac_wire.specs.{region_at, signed, Spells, SpellsAll, SpellsClosed, SpellsContext, SpellsEnclosed};
ghost use Rattle.bac_wire.specs.{SpellsIn, SpellsTag, unsigned, value_at, declared.value.Value.TheVariants.Unsigned};
ghost use Rattle.bac_wire.specs.Inner.{always, Any, Costly, device, first_at, Free, input, never, nothing_at, refused};
ghost use Rattle.bac_wire.specs.Inner.{Same, SpellsAny, SpellsOne, unsigned_tag, WritesValue, written, zero_at};

// The octets of a value, written and read back (ANSI/ASHRAE 135, 20.2.2 to 20.2.14).
#[tactic(auto, unfolding(crate::proofs::Computed::computed))]
fn examples_of_octets()
    ensures null { WritesValue null (0x00 ∷ []) }
    ensures boolean { WritesValue (boolean true) (0x11 ∷ []) }

    // A number in as many octets as it needs. The tag says how many: 21 has one after it, 22 two.
    ensures unsigned { WritesValue (unsigned 5) (0x21 ∷ 0x05 ∷ []) }
    ensures two_octets { WritesValue (unsigned 256) (0x22 ∷ 0x01 ∷ 0x00 ∷ []) }
    ensures signed { WritesValue (signed (negsuc 4)) (0x31 ∷ 0xfb ∷ []) }
    ensures enumerated { WritesValue (enumerated 3) (0x91 ∷ 0x03 ∷ []) }

    // 72.3, in the four octets of a single-precision number.
    ensures real { WritesValue (real (0x42 ∷ 0x90 ∷ 0x99 ∷ 0x9a ∷ [])) (0x44 ∷ 0x42 ∷ 0x90 ∷ 0x99 ∷ 0x9a ∷ []) }

    // "BACnet" in the character set 0. The length is above 4, so it has an octet of its own.
    ensures text { WritesValue (char_string 0 (0x42 ∷ 0x41 ∷ 0x43 ∷ 0x6e ∷ 0x65 ∷ 0x74 ∷ []))
        (0x75 ∷ 0x07 ∷ 0x00 ∷ 0x42 ∷ 0x41 ∷ 0x43 ∷ 0x6e ∷ 0x65 ∷ 0x74 ∷ []) }

    // The bits 10101, and three that are unused.
    ensures bits { WritesValue (bit_string 3 (0xa8 ∷ [])) (0x82 ∷ 0x03 ∷ 0xa8 ∷ []) }

    // Analog-input 5, and device 1234: ten bits of type, and 22 of instance.
    ensures input { WritesValue (object input) (0xc4 ∷ 0x00 ∷ 0x00 ∷ 0x00 ∷ 0x05 ∷ []) }
    ensures device { WritesValue (object device) (0xc4 ∷ 0x02 ∷ 0x00 ∷ 0x04 ∷ 0xd2 ∷ []) }
{}

// The value at the front of octets, and the octets after it.
#[tactic(auto, unfolding(crate::proofs::Computed::computed))]
fn examples_of_reading()
    // The first value.
    ensures first { value_at (0x21 ∷ 0x05 ∷ 0x21 ∷ 0x06 ∷ []) ≡ Some (unsigned 5, 0x21 ∷ 0x06 ∷ []) }

    // More octets than the number needs, and more than its length needs.
    ensures wide { value_at (0x22 ∷ 0x00 ∷ 0x05 ∷ []) ≡ Some (unsigned 5, []) }
    ensures long_tag { value_at (0x25 ∷ 0x01 ∷ 0x05 ∷ []) ≡ Some (unsigned 5, []) }

    // Octets that are not a value: none, an octet too few, a Boolean that is neither 0 nor 1, and a tag of the context
    // class.
    ensures nothing { value_at [] ≡ None }
    ensures short { value_at (0x22 ∷ 0x05 ∷ []) ≡ None }
    ensures not_boolean { value_at (0x12 ∷ []) ≡ None }
    ensures context { value_at (0x09 ∷ 0x05 ∷ []) ≡ None }
{}

// The parameters of a service: a number, an object and a value under context tags.
#[tactic(auto, unfolding(crate::proofs::Computed::computed))]
fn examples_of_parameters()
    // The property 85 under tag 1, and analog-input 5 under tag 0.
    ensures number { number_octets 1 85 ≡ 0x19 ∷ 0x55 ∷ [] }
    ensures number_read { number_at 1 (0x19 ∷ 0x55 ∷ []) ≡ Some (85, []) }
    ensures object { object_octets 0 input ≡ 0x0c ∷ 0x00 ∷ 0x00 ∷ 0x00 ∷ 0x05 ∷ [] }
    ensures object_read { object_at 0 (0x0c ∷ 0x00 ∷ 0x00 ∷ 0x00 ∷ 0x05 ∷ []) ≡ Some (input, []) }
    ensures other_tag { number_at 1 (0x29 ∷ 0x55 ∷ []) ≡ None }

    // The value 5 between the opening and the closing tag 3.
    ensures value { enclosed_octets 3 (0x21 ∷ 0x05 ∷ []) ≡ 0x3e ∷ 0x21 ∷ 0x05 ∷ 0x3f ∷ [] }
    ensures value_read { enclosed_at 3 (0x3e ∷ 0x21 ∷ 0x05 ∷ 0x3f ∷ []) ≡ Some (0x21 ∷ 0x05 ∷ [], []) }

    // An octet 3F among contents closes nothing, and neither does the closing tag of another number.
    ensures contents { region_at 3 (0x21 ∷ 0x3f ∷ 0x3f ∷ []) ≡ Some (0x21 ∷ 0x3f ∷ [], []) }
    ensures inner { region_at 3 (0x1e ∷ 0x21 ∷ 0x05 ∷ 0x1f ∷ 0x3f ∷ []) ≡ Some (0x1e ∷ 0x21 ∷ 0x05 ∷ 0x1f ∷ [], []) }
    ensures other_end { region_at 3 (0x21 ∷ 0x05 ∷ 0x1f ∷ []) ≡ None }
{}

// Which octets spell a tag (20.2.1) or a value, and which tags, values and identifiers exist.
#[tactic(auto, using(crate::proofs::tag_spelled, crate::proofs::value_spelled), unfolding(crate::proofs::Computed::computed))]
fn examples_of_spellings()
    // The tag before a number of one octet, in its shortest form and in a longer one. A length in two octets or in four
    // has the high one first.
    ensures tag { SpellsTag (0x21 ∷ []) (unsigned_tag 1) }
    ensures long_tag { SpellsTag (0x25 ∷ 0x01 ∷ []) (unsigned_tag 1) }
    ensures two_octets { SpellsTag (0x25 ∷ 0xfe ∷ 0x01 ∷ 0x00 ∷ []) (unsigned_tag 256) }
    ensures four_octets { SpellsTag (0x25 ∷ 0xff ∷ 0x00 ∷ 0x01 ∷ 0x00 ∷ 0x02 ∷ []) (unsigned_tag 65538) }
    ensures other_length { SpellsTag (0x21 ∷ []) (unsigned_tag 2) → ⊥ }
    ensures other_number { SpellsTag (0x31 ∷ []) (unsigned_tag 1) → ⊥ }
    ensures more_octets { SpellsTag (0x21 ∷ 0x00 ∷ []) (unsigned_tag 1) → ⊥ }
    ensures low_octet_first { SpellsTag (0x25 ∷ 0xff ∷ 0x02 ∷ 0x00 ∷ 0x01 ∷ 0x00 ∷ []) (unsigned_tag 65538) → ⊥ }

    // Numbers up to 254, and lengths that four octets hold.
    ensures greatest { IsTag (record { number = 254; shape = App (2 ^ 32 - 1) }) }
    ensures mark { IsTag (record { number = 255; shape = App 1 }) → ⊥ }
    ensures five_octets { IsTag (unsigned_tag (2 ^ 32)) → ⊥ }

    // The number 5, also in two octets; a spelling with one octet too many; and a Boolean that is neither 0 nor 1.
    ensures value { Spells (0x21 ∷ 0x05 ∷ []) (unsigned 5) }
    ensures wide { Spells (0x22 ∷ 0x00 ∷ 0x05 ∷ []) (unsigned 5) }
    ensures other { Spells (0x21 ∷ 0x05 ∷ []) (unsigned 6) → ⊥ }
    ensures more { Spells (0x21 ∷ 0x05 ∷ 0x00 ∷ []) (unsigned 5) → ⊥ }
    ensures not_boolean { Spells (0x12 ∷ []) (boolean true) → ⊥ }

    // The values that exist, and those that can be written.
    ensures most { IsDatum (unsigned (2 ^ 64 - 1)) }
    ensures past { IsDatum (unsigned (2 ^ 64)) → ⊥ }
    ensures long { (octets : List ℕ) → length octets ≡ 2 ^ 32 → IsDatum (octet_string octets) → ⊥ }
    ensures sound { IsSound (bit_string 7 (0x80 ∷ [])) }
    ensures no_bit { IsSound (bit_string 8 (0x00 ∷ [])) → ⊥ }
    ensures no_octet { IsSound (bit_string 1 []) → ⊥ }

    // The greatest identifier, and one past it in each of its two numbers.
    ensures last { IsIdentifier (record { kind = 1023; instance = 4194303 }) }
    ensures kind_past { IsIdentifier (record { kind = 1024; instance = 0 }) → ⊥ }
    ensures instance_past { IsIdentifier (record { kind = 0; instance = 4194304 }) → ⊥ }
{}

// Readers and writers, whatever they read or write.
#[tactic(auto, using(crate::proofs::TagLaws::plain_tag_shortest), unfolding(crate::proofs::Computed::computed))]
fn examples_of_readers()
    // No octet begins another; the empty list begins any.
    ensures apart { IsPrefixFree SpellsOne }
    ensures begun { IsPrefixFree SpellsAny → ⊥ }

    // A reader accepts what is spelled, and nothing else.
    ensures reader { IsReader SpellsOne first_at }
    ensures takes_none { IsReader SpellsOne nothing_at → ⊥ }
    ensures takes_more { IsReader SpellsOne zero_at → ⊥ }

    // The result at the front, and the number of its octets; a reader may not skip a spelling.
    ensures found { FindsFront SpellsOne (7 ∷ 8 ∷ []) (Some (7, 1)) }
    ensures other_found { FindsFront SpellsOne (7 ∷ 8 ∷ []) (Some (8, 1)) → ⊥ }
    ensures more_found { FindsFront SpellsOne (7 ∷ 8 ∷ []) (Some (7, 2)) → ⊥ }
    ensures passed { FindsFront SpellsOne (7 ∷ 8 ∷ []) None → ⊥ }

    // One spelling after another, and nothing after the last.
    ensures all { SpellsAll SpellsOne (7 ∷ 8 ∷ []) (7 ∷ 8 ∷ []) }
    ensures left { SpellsAll SpellsOne (7 ∷ 8 ∷ []) (7 ∷ []) → ⊥ }

    // The shortest spelling, and a spelling that is read back.
    ensures shortest { IsShortest SpellsTag (0x21 ∷ []) (unsigned_tag 1) }
    ensures longer { IsShortest SpellsTag (0x25 ∷ 0x01 ∷ []) (unsigned_tag 1) → ⊥ }
    ensures short_of_another { IsShortest SpellsTag (0x29 ∷ []) (unsigned_tag 1) → ⊥ }
    ensures read_back { IsReadBack SpellsOne (7 ∷ []) 7 }
    ensures other_back { IsReadBack SpellsOne (7 ∷ []) 8 → ⊥ }

    // Octets are below 256.
    ensures octets { AreOctets (0 ∷ 255 ∷ []) }
    ensures not_octets { AreOctets (256 ∷ []) → ⊥ }

    // A writer appends if there is room.
    ensures appended { Appends (1 ∷ []) (2 ∷ []) (1 ∷ 2 ∷ []) written }
    ensures not_appended { Appends (1 ∷ []) (2 ∷ []) (1 ∷ []) written → ⊥ }
    ensures has_room { Appends (1 ∷ []) (2 ∷ []) (1 ∷ []) refused → ⊥ }
    ensures past_room { (octets : List ℕ) → length octets ≡ 1498 → Appends [] octets octets written → ⊥ }
    ensures cleared { (octets : List ℕ) → length octets ≡ 1497 → Appends (1 ∷ []) octets [] refused → ⊥ }
{}

// Items and regions (20.2.1.3.2), and parameters under context tags.
#[tactic(auto, using(crate::proofs::items_is), unfolding(crate::proofs::Computed::computed))]
fn examples_of_regions()
    // The number 5, and the number 5 in brackets, one deep.
    ensures item { IsItem 0 (0x21 ∷ 0x05 ∷ []) }
    ensures bracketed { IsItem 1 (0x1e ∷ 0x21 ∷ 0x05 ∷ 0x1f ∷ []) }
    ensures too_short { IsItem 0 (0x22 ∷ 0x05 ∷ []) → ⊥ }
    ensures too_deep { IsItem 0 (0x1e ∷ 0x21 ∷ 0x05 ∷ 0x1f ∷ []) → ⊥ }

    // Whole items; a bracket that stays open, and one too many.
    ensures region { IsRegion 1 (0x21 ∷ 0x05 ∷ 0x1e ∷ 0x1f ∷ []) }
    ensures left_open { IsRegion 32 (0x1e ∷ []) → ⊥ }
    ensures region_too_deep { IsRegion 0 (0x1e ∷ 0x1f ∷ []) → ⊥ }

    // Whole items leave a closing tag, and no other item.
    ensures leaves { LeavesRest 32 (0x21 ∷ 0x05 ∷ 0x3f ∷ []) (0x3f ∷ []) }
    ensures leaves_item { LeavesRest 32 (0x21 ∷ 0x05 ∷ 0x21 ∷ 0x06 ∷ []) (0x21 ∷ 0x06 ∷ []) → ⊥ }
    ensures leaves_part { LeavesRest 32 (0x22 ∷ 0x05 ∷ []) [] → ⊥ }
    ensures leaves_other { LeavesRest 32 (0x21 ∷ 0x05 ∷ []) (0x3f ∷ []) → ⊥ }

    // A region that the closing tag 3 ends, and one that another ends.
    ensures closed { SpellsClosed 3 (0x21 ∷ 0x05 ∷ 0x3f ∷ []) (0x21 ∷ 0x05 ∷ []) }
    ensures other_closed { SpellsClosed 3 (0x21 ∷ 0x05 ∷ 0x1f ∷ []) (0x21 ∷ 0x05 ∷ []) → ⊥ }
    ensures part_closed { SpellsClosed 3 (0x22 ∷ 0x05 ∷ 0x3f ∷ []) (0x22 ∷ 0x05 ∷ []) → ⊥ }
    ensures closed_otherwise { SpellsClosed 3 (0x21 ∷ 0x05 ∷ 0x3f ∷ []) (0x21 ∷ 0x06 ∷ []) → ⊥ }
    ensures ends { IsClosedRegion 32 3 (0x21 ∷ 0x05 ∷ 0x3f ∷ 0x00 ∷ []) (0x21 ∷ 0x05 ∷ []) }
    ensures other_end { IsClosedRegion 32 3 (0x21 ∷ 0x05 ∷ 0x1f ∷ 0x00 ∷ []) (0x21 ∷ 0x05 ∷ []) → ⊥ }
    ensures part_ends { IsClosedRegion 32 3 (0x22 ∷ 0x05 ∷ 0x3f ∷ []) (0x22 ∷ 0x05 ∷ []) → ⊥ }
    ensures ends_otherwise { IsClosedRegion 32 3 (0x21 ∷ 0x05 ∷ 0x3f ∷ []) (0x21 ∷ 0x06 ∷ []) → ⊥ }
    ensures size { FindsRegion 32 3 (0x21 ∷ 0x05 ∷ 0x3f ∷ []) (Some 2) }
    ensures no_size { FindsRegion 32 3 (0x21 ∷ 0x05 ∷ 0x3f ∷ []) None → ⊥ }
    ensures other_size { FindsRegion 32 3 (0x21 ∷ 0x05 ∷ 0x3f ∷ []) (Some 0) → ⊥ }

    // After the number 5 one bracket is open.
    ensures opens { Opens 1 (0x1e ∷ 0x21 ∷ 0x05 ∷ []) }
    ensures opens_more { Opens 2 (0x1e ∷ 0x21 ∷ 0x05 ∷ []) → ⊥ }

    // The octet 55 under the context tag 1, as contents and as a number; and the number 5 between two tags 3.
    ensures context { SpellsContext 1 (0x19 ∷ 0x55 ∷ []) (0x55 ∷ []) }
    ensures other_context { SpellsContext 2 (0x19 ∷ 0x55 ∷ []) (0x55 ∷ []) → ⊥ }
    ensures number { SpellsIn enumerated 1 (0x1a ∷ 0x00 ∷ 0x55 ∷ []) 85 }
    ensures other_number { SpellsIn enumerated 1 (0x19 ∷ 0x55 ∷ []) 84 → ⊥ }
    ensures number_in_other { SpellsIn enumerated 2 (0x19 ∷ 0x55 ∷ []) 85 → ⊥ }
    ensures enclosed { SpellsEnclosed 3 (0x3e ∷ 0x21 ∷ 0x05 ∷ 0x3f ∷ []) (0x21 ∷ 0x05 ∷ []) }
    ensures other_enclosed { SpellsEnclosed 3 (0x3e ∷ 0x21 ∷ 0x05 ∷ 0x1f ∷ []) (0x21 ∷ 0x05 ∷ []) → ⊥ }
{}

// Copies and comparisons.
#[tactic(none)]
fn examples_of_copies()
    ensures copied { MakesCopies Same Free }
    ensures changed { MakesCopies Any Free → ⊥ }
    ensures costly { MakesCopies Same Costly → ⊥ }
    ensures compared { EqualsBy (λ n. n) nat_eq }
    ensures always_equal { EqualsBy (λ n. n) always → ⊥ }
    ensures never_equal { EqualsBy (λ n. n) never → ⊥ }

    // A value of the code, and the limits.
    ensures seen { datum (Unsigned 5) ≡ unsigned 5 }
    ensures room { frame_room ≡ 1497 }
    ensures depth { deepest ≡ 32 }
{}
