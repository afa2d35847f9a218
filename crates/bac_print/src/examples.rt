//! Examples of texts, worked out by computation. They show what the definitions mean.

ghost use Rattle.std.specs.Prelude.{[], ◌∷◌, ◌≡◌, codes, replicate};
ghost use Rattle.bac_print.specs.{folded, folded_line, left_after, peer_text, Prints, region_text, TookOrFailed};
ghost use Rattle.bac_print.specs.{Writes, Inner.{unasked, unknown, written}};
ghost use Rattle.bac_print.specs.Inner.{device, failed, far_device, having, page, page_named, PrintsAs, refusing};

// A value of each kind (ANSI/ASHRAE 135, 20.2), and the text of its octets.
#[tactic(none)]
fn examples_of_values()
    ensures null { PrintsAs (0x00 ∷ []) "null" }
    ensures boolean { PrintsAs (0x10 ∷ []) "false" }
    ensures unsigned { PrintsAs (0x21 ∷ 0x48 ∷ []) "72" }
    ensures two_octets { PrintsAs (0x22 ∷ 0x01 ∷ 0x00 ∷ []) "256" }
    ensures signed { PrintsAs (0x31 ∷ 0xfb ∷ []) "-5" }
    ensures below_one_octet { PrintsAs (0x32 ∷ 0xff ∷ 0x7f ∷ []) "-129" }
    ensures real { PrintsAs (0x44 ∷ 0x42 ∷ 0x90 ∷ 0x99 ∷ 0x9a ∷ []) "4290999a" }
    ensures double { PrintsAs (0x55 ∷ 0x08 ∷ 0x40 ∷ 0x52 ∷ replicate 6 0) "4052000000000000" }
    ensures octet_string { PrintsAs (0x63 ∷ 0x12 ∷ 0x34 ∷ 0xff ∷ []) "X'1234ff'" }
    ensures character_string { PrintsAs (0x72 ∷ 0x00 ∷ 0x3f ∷ []) "\"?\"" }
    ensures bit_string { PrintsAs (0x82 ∷ 0x03 ∷ 0xa8 ∷ []) "B'10101'" }
    ensures enumerated { PrintsAs (0x91 ∷ 0x03 ∷ []) "3" }
    ensures date { PrintsAs (0xa4 ∷ 0x5b ∷ 0x01 ∷ 0x18 ∷ 0x04 ∷ []) "D'5b011804'" }
    ensures time { PrintsAs (0xb4 ∷ 0x11 ∷ 0x23 ∷ 0x2d ∷ 0x11 ∷ []) "T'11232d11'" }
    ensures object { PrintsAs (0xc4 ∷ 0x00 ∷ 0xc0 ∷ 0x00 ∷ 0x0f ∷ []) "3:15" }
{}

// The texts of an empty region, of several values, of octets that are not a value, and of texts with escapes.
#[tactic(none)]
fn examples_of_regions()
    ensures empty { region_text [] ≡ codes "{}" }
    ensures several { region_text (0x21 ∷ 0x05 ∷ 0x21 ∷ 0x06 ∷ []) ≡ codes "{5,6}" }
    ensures longer_than_needed { region_text (0x22 ∷ 0x00 ∷ 0x05 ∷ []) ≡ codes "5" }
    ensures no_value { region_text (0x0e ∷ 0x21 ∷ 0x05 ∷ 0x0f ∷ []) ≡ codes "hex 0e21050f" }
    ensures escaped { region_text (0x74 ∷ 0x00 ∷ 0x61 ∷ 0x22 ∷ 0x5c ∷ []) ≡ codes "\"a\\\"\\\\\"" }
    ensures other_set { region_text (0x72 ∷ 0x05 ∷ 0xff ∷ []) ≡ codes "5:\"\\xff\"" }
{}

// The port of a peer is always printed, and its route after it.
#[tactic(none)]
fn examples_of_peers()
    ensures plain { peer_text device ≡ codes "127.0.0.1:47808" }
    ensures routed { peer_text far_device ≡ codes "127.0.0.1:47808/5/07" }
{}

// A writer took a text if it has the text, or the beginning of it if the writer failed. A page holds text that is not
// written yet.
#[tactic(none)]
fn examples_of_writers()
    ensures took { TookOrFailed unknown unasked unasked [] written }
    ensures took_less { TookOrFailed unknown unasked unasked (1 ∷ []) written → ⊥ }
    ensures took_one { TookOrFailed unknown unasked (having (1 ∷ [])) (1 ∷ []) written }
    ensures took_front { TookOrFailed unknown unasked unasked (1 ∷ []) failed }
    ensures held { Writes unknown unasked unasked (1 ∷ []) (1 ∷ 2 ∷ []) (2 ∷ []) }
    ensures dropped { Writes unknown unasked unasked (1 ∷ []) [] (2 ∷ []) → ⊥ }
    ensures took_other { Writes unknown unasked (having (9 ∷ [])) (1 ∷ []) (1 ∷ 2 ∷ []) (2 ∷ []) → ⊥ }
    ensures kept_other { Writes unknown unasked unasked (1 ∷ []) (1 ∷ 3 ∷ []) (2 ∷ []) → ⊥ }
    ensures asked_again { Writes unknown (refusing 1) (refusing 2) [] [] [] → ⊥ }
{}

// A page holds a text until it is written, and keeps its writer.
#[tactic(none)]
fn examples_of_pages()
    ensures printed { Prints unknown (page []) (page (1 ∷ [])) (1 ∷ []) }
    ensures behind { Prints unknown (page (1 ∷ [])) (page (1 ∷ 2 ∷ [])) (2 ∷ []) }
    ensures lost { Prints unknown (page []) (page []) (1 ∷ []) → ⊥ }
    ensures other { Prints unknown (page []) (page (2 ∷ [])) (1 ∷ []) → ⊥ }
    ensures elsewhere { Prints unknown (page []) (page_named 1 []) [] → ⊥ }
{}

// A text that just fits its line, a text of one octet more, and a text with a line feed at the edge. The room that is
// left is known.
#[tactic(none)]
fn examples_of_folding()
    ensures longest { folded_line ≡ 4_096 }
    ensures just { folded 3 (codes "abc") ≡ codes "abc" }
    ensures one_more { folded 3 (codes "abcd") ≡ codes "abc\n#+d" }
    ensures feed { folded 3 (codes "abc\nd") ≡ codes "abc\nd" }
    ensures none_left { left_after 3 (codes "abc") ≡ 0 }
    ensures new_line { left_after 3 (codes "abcd") ≡ 4_093 }
    ensures whole_line { left_after 3 (codes "abc\n") ≡ 4_096 }
{}
