//! Examples of words, worked out by computation. They show what the definitions mean.

ghost use Rattle.std.specs.Prelude.{◌≡◌, ℕ, [], ◌∷◌, codes, replicate};
ghost use Rattle.bac_text.specs.{Bad, TooLong, peer_of, reach_of, longest_line, words_behind, words_of};
ghost use Rattle.bac_text.specs.PairsInWords.{IsWritten};
ghost use Rattle.bac_text.specs.Inner.{WritesPair, device, far_device, body_with_words};
ghost use Rattle.bac_text.specs.Inner.Examples.{minus_five, value};

// A value of each kind: the number of its tag and a word, and its octets (ANSI/ASHRAE 135, 20.2).
#[tactic(none)]
fn examples_of_values()
    ensures null { WritesPair "0" "any" (0x00 ∷ []) }
    ensures boolean { WritesPair "1" "false" (0x10 ∷ []) }
    ensures unsigned { WritesPair "2" "72" (0x21 ∷ 0x48 ∷ []) }
    ensures two_octets { WritesPair "2" "256" (0x22 ∷ 0x01 ∷ 0x00 ∷ []) }
    ensures signed { WritesPair "3" "-5" (0x31 ∷ 0xfb ∷ []) }
    ensures below_one_octet { WritesPair "3" "-129" (0x32 ∷ 0xff ∷ 0x7f ∷ []) }
    ensures real { WritesPair "4" "4290999A" (0x44 ∷ 0x42 ∷ 0x90 ∷ 0x99 ∷ 0x9a ∷ []) }
    ensures double { WritesPair "5" "4052000000000000" (0x55 ∷ 0x08 ∷ 0x40 ∷ 0x52 ∷ replicate 6 0) }
    ensures octet_string { WritesPair "6" "1234ff" (0x63 ∷ 0x12 ∷ 0x34 ∷ 0xff ∷ []) }
    ensures character_string { WritesPair "7" "?" (0x72 ∷ 0x00 ∷ 0x3f ∷ []) }
    ensures bit_string { WritesPair "8" "10101" (0x82 ∷ 0x03 ∷ 0xa8 ∷ []) }
    ensures enumerated { WritesPair "9" "3" (0x91 ∷ 0x03 ∷ []) }
    ensures date { WritesPair "10" "5b011804" (0xa4 ∷ 0x5b ∷ 0x01 ∷ 0x18 ∷ 0x04 ∷ []) }
    ensures time { WritesPair "11" "11232d11" (0xb4 ∷ 0x11 ∷ 0x23 ∷ 0x2d ∷ 0x11 ∷ []) }
    ensures object { WritesPair "12" "3:15" (0xc4 ∷ 0x00 ∷ 0xc0 ∷ 0x00 ∷ 0x0f ∷ []) }
{}

// The meanings of the words of a line.
#[tactic(none)]
fn examples_of_words()
    ensures words { words_of (codes " tick\t 5 ") ≡ codes "tick" ∷ codes "5" ∷ [] }

    // The usual port may be omitted.
    ensures peer { peer_of (codes "127.0.0.1") ≡ Some device }
    ensures routed { peer_of (codes "127.0.0.1/5/07") ≡ Some far_device }
    ensures three_numbers { peer_of (codes "1.2.3") ≡ None }

    // The stations of network 5 behind a router, or of all networks (65535, clause 6.2.2.1). No network has the number
    // 65535.
    ensures network { reach_of (codes "127.0.0.1/5") ≡ Some (device, Some 5) }
    ensures networks { reach_of (codes "127.0.0.1/*") ≡ Some (device, Some 65535) }
    ensures one_station { reach_of (codes "127.0.0.1/5/07") ≡ Some (far_device, None) }
    ensures no_network { reach_of (codes "127.0.0.1/0") ≡ None }
    ensures past_networks { reach_of (codes "127.0.0.1/65535") ≡ None }

    // A WriteProperty body: the object, the property, the value between its tags, the priority (clause 15.9).
    ensures body { body_with_words (codes "3" ∷ codes "-5" ∷ []) ≡ Ok minus_five }
    // The second pair has no value.
    ensures bad { body_with_words (codes "3" ∷ codes "-5" ∷ codes "4" ∷ codes "21.0" ∷ []) ≡ Err (Bad 2) }
    ensures too_long { body_with_words (codes "7" ∷ replicate 600 120 ∷ []) ≡ Err TooLong }
{}

// The limit of a line, and the words that are left if a pair is bad.
#[tactic(none)]
fn examples_of_limits()
    ensures line { longest_line ≡ 4096 }
    ensures behind { words_behind {A = ℕ} (Err (Bad 1)) (codes "2" ∷ codes "x" ∷ codes "3" ∷ []) ≡ codes "3" ∷ [] }
    ensures whole { words_behind {A = ℕ} (Ok 0) (codes "2" ∷ []) ≡ [] }
{}

// The write that words order, in the standard's words: the present value of analog-value 2 is -5, at priority 16.
fn examples_of_writes()
    ensures written { IsWritten value 85 None (Some 16) (codes "3" ∷ codes "-5" ∷ []) minus_five }
    ensures nothing { IsWritten value 85 None (Some 16) (codes "3" ∷ codes "-5" ∷ []) [] → ⊥ }
    ensures other { IsWritten value 85 None (Some 16) (codes "3" ∷ codes "-6" ∷ []) minus_five → ⊥ }
    ensures no_words { IsWritten value 85 None (Some 16) [] minus_five → ⊥ }
{}
