//! Examples of the device's replies, worked out by computation. They show what the definitions mean.

ghost use Rattle.std.specs.Prelude.{[], ◌∷◌, ◌≡◌, codes, replicate};
ghost use Rattle.bac_device.specs.{add_point, AreDefined, demo_points, device_room, Holds, IsInfo, longest_name};
ghost use Rattle.bac_device.specs.{NoneTo, place_after, points_of, present_after, RepliesFit, RepliesInTurn, ReplyFits};
ghost use Rattle.bac_device.specs.{standing_after, with_write, declared.kind.Family.TheVariants.Analog};
ghost use Rattle.bac_device.specs.declared.device.AddFault.TheVariants.{BadPoint, NameTwice, Twice};
ghost use Rattle.bac_device.specs.declared.kind.Role.TheVariants.{Output};
ghost use Rattle.bac_device.specs.Inner.{aborted, after, any_device, asked, datagram, desk, element_of, empty};
ghost use Rattle.bac_device.specs.Inner.{enumerated, Exchanges, fan, fifty, fifty_one, given_as, has, has_no, is};
ghost use Rattle.bac_device.specs.Inner.{long_named, makes, nothing, null, of, other_id, outdoor, own, read};
ghost use Rattle.bac_device.specs.Inner.{read_for_50, real_72_3, refuses, release_at_8, season, small, thirty, twenty};
ghost use Rattle.bac_device.specs.Inner.{twenty_at_8, unsigned, valve, valve_id, write, write_at, zero_real};

// A read of a whole property, or of an element.
#[tactic(auto, unfolding(crate::proofs::Computed::computed))]
fn examples_of_reads()
    // A present value of each kind: 72.3 degrees, off, and the first of four seasons.
    ensures present { Exchanges
        (has (of 85 outdoor) real_72_3 ∷ has (of 85 fan) (enumerated 0) ∷ has (of 85 season) (unsigned 1) ∷ []) }

    // Units (degrees Fahrenheit), and the number of states.
    ensures extra { Exchanges (has (of 117 outdoor) (enumerated 64) ∷ has (of 74 season) (unsigned 4) ∷ []) }

    // The binary output has normal polarity (0) and a normal event state (0). It is in service, and none of its four
    // flags is set (12.7).
    ensures standing { Exchanges
        (has (of 84 fan) (enumerated 0) ∷ has (of 36 fan) (enumerated 0) ∷ has (of 81 fan) (0x10 ∷ [])
        ∷ has (of 111 fan) (0x82 ∷ 0x04 ∷ 0x00 ∷ []) ∷ []) }

    // The device's own properties (12.11): its type (8), operational (0), vendor 260, protocol version 1 and revision
    // 4, APDUs of up to 1476 octets, no segmentation (3), a timeout of 3000 milliseconds, 3 retries, and the database
    // revision 1.
    ensures fixed { Exchanges
        (has (of 79 own) (enumerated 8) ∷ has (of 112 own) (enumerated 0)
        ∷ has (of 120 own) (0x22 ∷ 0x01 ∷ 0x04 ∷ []) ∷ has (of 98 own) (unsigned 1) ∷ has (of 139 own) (unsigned 4)
        ∷ has (of 62 own) (0x22 ∷ 0x05 ∷ 0xc4 ∷ []) ∷ has (of 107 own) (enumerated 3)
        ∷ has (of 11 own) (0x22 ∷ 0x0b ∷ 0xb8 ∷ []) ∷ has (of 73 own) (unsigned 3) ∷ has (of 155 own) (unsigned 1)
        ∷ []) }

    // If the instance that stands for any device is asked for, the device replies with its own instance.
    ensures device { Exchanges
        ((read (of 75 any_device), is (of 75 own) (0xc4 ∷ 0x02 ∷ 0x00 ∷ 0x04 ∷ 0xd2 ∷ [])) ∷ []) }

    // A whole array, the number of its elements, an element, and one past the last.
    ensures array { Exchanges
        (has (of 87 valve) (replicate 16 0x00) ∷ has (element_of 0 87 valve) (unsigned 16)
        ∷ has (element_of 3 87 valve) null ∷ has_no (element_of 17 87 valve) 2 42 ∷ []) }

    // An unknown object, an unknown property, and an index for a property that is not an array.
    ensures failures { Exchanges
        (has_no (of 85 nothing) 1 31 ∷ has_no (of 87 outdoor) 2 32 ∷ has_no (element_of 0 85 outdoor) 2 50 ∷ []) }

    // Sixteen places are short enough for a requester that accepts 50 octets, and a name of 36 octets is too long for
    // it.
    ensures size { Exchanges
        ((read_for_50 (of 87 valve), is (of 87 valve) (replicate 16 0x00)) ∷ (read_for_50 (of 77 long_named), aborted)
        ∷ []) }
{}

// A write of a present value, and the value after it.
#[tactic(auto, unfolding(crate::proofs::Computed::computed))]
fn examples_of_writes()
    // At two priorities: the more urgent value is present until NULL relinquishes it, then the other one, and at last
    // the default.
    ensures places { Exchanges
        (makes (write valve twenty) ∷ has (of 85 valve) twenty
        ∷ makes (write_at 8 valve thirty) ∷ has (of 85 valve) thirty
        ∷ makes (write_at 8 valve null) ∷ has (of 85 valve) twenty
        ∷ makes (write_at 16 valve null) ∷ has (of 85 valve) zero_real ∷ []) }

    // Binary and multi-state values: on, and the third of four seasons.
    ensures kinds { Exchanges
        (makes (write fan (enumerated 1)) ∷ has (of 85 fan) (enumerated 1)
        ∷ makes (write season (unsigned 3)) ∷ has (of 85 season) (unsigned 3) ∷ []) }

    // A write without a priority goes to the last of the sixteen.
    ensures least_urgent { Exchanges
        (makes (write valve twenty) ∷ has (element_of 16 87 valve) twenty ∷ has (element_of 8 87 valve) null ∷ []) }

    // Refused: an input, priority 6, another type, and a state past the last. No value changes.
    ensures failures { Exchanges
        (refuses (write outdoor twenty) 2 40 ∷ refuses (write_at 6 valve twenty) 2 40
        ∷ refuses (write valve (unsigned 5)) 2 9 ∷ refuses (write season (unsigned 5)) 2 37
        ∷ has (of 85 season) (unsigned 1) ∷ []) }
{}

// Which replies fit a request, and which replies and writes the definitions allow.
#[tactic(auto, unfolding(crate::proofs::Computed::computed))]
fn examples_of_fitting()
    // A reply to a requester that accepts 50 octets has at most 50, or it is the Abort. It goes back to the desk.
    ensures fits { ReplyFits desk asked.datagram (desk, datagram 0x00 fifty) }
    ensures aborted { ReplyFits desk asked.datagram (desk, datagram 0x00 aborted) }
    ensures too_long { ReplyFits desk asked.datagram (desk, datagram 0x00 fifty_one) → ⊥ }
    ensures no_datagram { ReplyFits desk asked.datagram (desk, []) → ⊥ }
    ensures each { RepliesFit (asked ∷ []) (Some (desk, datagram 0x00 fifty) ∷ []) }
    ensures each_too_long { RepliesFit (asked ∷ []) (Some (desk, datagram 0x00 fifty_one) ∷ []) → ⊥ }
    ensures too_few { RepliesFit (asked ∷ []) [] → ⊥ }

    // Whether none of some writes is to analog-output 1.
    ensures none { NoneTo valve_id (twenty_at_8 other_id ∷ []) }
    ensures one { NoneTo valve_id (twenty_at_8 other_id ∷ twenty_at_8 valve_id ∷ []) → ⊥ }

    // A device holds the writes that it has accepted, and no others. Without a datagram it neither replies nor changes.
    ensures held { Holds (after (twenty_at_8 valve_id ∷ [])) (twenty_at_8 valve_id ∷ []) }
    ensures not_held { Holds (after []) (twenty_at_8 valve_id ∷ []) → ⊥ }
    ensures in_turn { RepliesInTurn empty [] [] empty }
    ensures left_out { RepliesInTurn empty (asked ∷ []) [] empty → ⊥ }
    ensures changed { RepliesInTurn empty [] [] (after []) → ⊥ }
    ensures replied { AreDefined empty [] [] [] empty }
    ensures one_more { AreDefined empty [] [] (None ∷ []) empty → ⊥ }
    ensures written { AreDefined empty [] [] [] (after []) → ⊥ }
{}

// The state of a device, and the points that can be added to it.
#[tactic(auto, unfolding(crate::proofs::Computed::computed, crate::specs::add_point, crate::specs::description_of, crate::specs::kind_of, crate::specs::place_at))]
fn examples_of_devices()
    ensures points { points_of (after (twenty_at_8 valve_id ∷ [])) ≡ demo_points }
    ensures with_none { with_write (after []) None ≡ after [] }
    ensures with_one { with_write (after []) (Some (twenty_at_8 valve_id)) ≡ after (twenty_at_8 valve_id ∷ []) }
    ensures room { device_room ≡ 32 }
    ensures longest { longest_name ≡ 64 }

    // The most urgent value that is not NULL is present; if all are NULL, the starting value.
    ensures present { present_after demo_points (twenty_at_8 valve_id ∷ []) valve_id ≡ Some 0x41a00000 }
    ensures let_go { present_after demo_points (twenty_at_8 valve_id ∷ release_at_8 valve_id ∷ []) valve_id ≡ Some 0 }
    ensures no_point { present_after demo_points [] (record { kind = 1; instance = 99 }) ≡ None }
    ensures place { place_after demo_points (twenty_at_8 valve_id ∷ []) valve_id 8 ≡ Some (Some 0x41a00000) }
    ensures other_place { place_after demo_points (twenty_at_8 valve_id ∷ []) valve_id 9 ≡ Some None }
    ensures no_place { place_after demo_points [] valve_id 17 ≡ None }
    ensures zeroth { place_after demo_points [] valve_id 0 ≡ None }

    // The identities that a device can have.
    ensures known { IsInfo small }
    ensures last { IsInfo (record small { instance = 4194302 }) }
    ensures every { IsInfo (record small { instance = 4194303 }) → ⊥ }
    ensures nameless { IsInfo (record small { name = [] }) → ⊥ }
    ensures long { IsInfo (record small { name = replicate 65 0x61 }) → ⊥ }

    // The reasons why a point can't be added.
    ensures added { add_point empty (given_as valve_id (codes "valve")) ≡ Ok (record empty {
      standings =
          standing_after [] (record {
            kind = record { family = Analog; role = Output };
            object = valve_id;
            name = codes "valve";
            start = 0;
            extra = 98;
          }) ∷ [];
    }) }
    ensures twice { add_point (after []) (given_as valve_id (codes "other")) ≡ Err Twice }
    ensures name_twice { add_point empty (given_as valve_id (codes "Small device")) ≡ Err NameTwice }
    ensures unnamed { add_point empty (given_as valve_id []) ≡ Err BadPoint }
{}
