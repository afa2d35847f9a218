//! Examples of whole datagrams and service bodies, worked out by computation. They show what the definitions mean.

ghost use Rattle.std.specs.Prelude.{[], ◌++◌, ◌-◌, ◌^◌, ◌∷◌, ◌≡◌, false, Some, true};
ghost use Rattle.bac_pdu.specs.{abort, ack_end, ack_front, ack_of, announced_size, carried, Carries, complex_ack};
ghost use Rattle.bac_pdu.specs.{confirmed, error, error_octets, everyone, front_count, i_am_octets, introduction_of};
ghost use Rattle.bac_pdu.specs.{InvalidTag, reason_number};
ghost use Rattle.bac_pdu.specs.declared.reject.RejectReason.TheVariants.{UnknownService};
ghost use Rattle.bac_pdu.specs.{IsAckBody, IsErrorBody, IsIAmBody, IsLaidOut, IsOutcome, IsParameter, IsPriority};
ghost use Rattle.bac_pdu.specs.{IsReadBody, IsRoutable, IsWhoIsBody, IsWritable, IsWriteBody, longest_body, message};
ghost use Rattle.bac_pdu.specs.{MissingParameter, numbered, OutOfRange, Range, read_octets, read_of, ReadFault, reject};
ghost use Rattle.bac_pdu.specs.{segment_ack, simple_ack, Takes, TooMany, unconfirmed, value, who_is_octets, who_is_of};
ghost use Rattle.bac_pdu.specs.{wrapped, write_of, WriteFault, declared.apdu.Apdu.TheVariants.SimpleAck};
ghost use Rattle.bac_pdu.specs.Found.{found_of};
ghost use Rattle.bac_pdu.specs.declared.discovery.WhoIs.TheVariants.{All};
ghost use Rattle.bac_pdu.specs.Inner.{ack_octets_of_1, desk, far, forwarded_octets, from_desk, from_other, i_am_1234};
ghost use Rattle.bac_pdu.specs.Inner.{last_part, present_octets, present_value, release, routed_from, second_part};
ghost use Rattle.bac_pdu.specs.Inner.{small_device, to_all, WritesApdu};

// A ReadProperty request, from the inside to the outside: the body, the APDU and the datagram (ANSI/ASHRAE 135, 15.5,
// 20.1.2 and J.2).
#[tactic(none)]
fn examples_of_datagrams()
    // Analog-input 1 under tag 0, and the property 85 under tag 1.
    ensures body { read_octets present_value ≡ 0x0c ∷ 0x00 ∷ 0x00 ∷ 0x00 ∷ 0x01 ∷ 0x19 ∷ 0x55 ∷ [] }
    ensures body_read { read_of (0x0c ∷ 0x00 ∷ 0x00 ∷ 0x00 ∷ 0x01 ∷ 0x19 ∷ 0x55 ∷ []) ≡ Ok present_value }

    // A confirmed request for service 12, with invoke id 1, whose sender accepts an answer of up to 1476 octets (code
    // 5).
    ensures apdu { WritesApdu (confirmed None 5 1 12 (read_octets present_value))
        (0x00 ∷ 0x05 ∷ 0x01 ∷ 0x0c ∷ 0x0c ∷ 0x00 ∷ 0x00 ∷ 0x00 ∷ 0x01 ∷ 0x19 ∷ 0x55 ∷ []) }

    // Seventeen octets (11), for one device (0A), which should reply (04).
    ensures datagram { wrapped None true (0x00 ∷ 0x05 ∷ 0x01 ∷ 0x0c ∷ read_octets present_value) ≡
        0x81 ∷ 0x0a ∷ 0x00 ∷ 0x11 ∷ 0x01 ∷ 0x04 ∷ 0x00 ∷ 0x05 ∷ 0x01 ∷ 0x0c ∷ read_octets present_value }
    ensures datagram_read { carried desk
        (0x81 ∷ 0x0a ∷ 0x00 ∷ 0x11 ∷ 0x01 ∷ 0x04 ∷ 0x00 ∷ 0x05 ∷ 0x01 ∷ 0x0c ∷ read_octets present_value) ≡
        Some (from_desk (0x00 ∷ 0x05 ∷ 0x01 ∷ 0x0c ∷ read_octets present_value)) }

    // The APDU of `apdu` to a station of network 5 (24: a destination follows) with the hop count 255.
    ensures routed { wrapped far.route true (0x00 ∷ 0x05 ∷ 0x01 ∷ 0x0c ∷ read_octets present_value) ≡
        0x81 ∷ 0x0a ∷ 0x00 ∷ 0x16 ∷ 0x01 ∷ 0x24 ∷ 0x00 ∷ 0x05 ∷ 0x01 ∷ 0x07 ∷ 0xff
        ∷ 0x00 ∷ 0x05 ∷ 0x01 ∷ 0x0c ∷ read_octets present_value }
{}

// How a request may be answered (ANSI/ASHRAE 135, 20.1.4 to 20.1.9), and why a body is rejected.
#[tactic(none)]
fn examples_of_apdus()
    // The value is 72.3, a Real, between the opening and the closing tag 3.
    ensures ack { ack_of (read_octets present_value ++ (0x3e ∷ 0x44 ∷ 0x42 ∷ 0x90 ∷ 0x99 ∷ 0x9a ∷ 0x3f ∷ [])) ≡
        Some (record { reference = present_value; value = 0x44 ∷ 0x42 ∷ 0x90 ∷ 0x99 ∷ 0x9a ∷ [] }) }
    ensures complex { WritesApdu (complex_ack None 1 12 (read_octets present_value))
        (0x30 ∷ 0x01 ∷ 0x0c ∷ read_octets present_value) }

    // A write that was made, an unknown property (class 2, code 32), an unknown service (9), and an Abort by the device
    // (4).
    ensures simple { WritesApdu (simple_ack 1 15) (0x20 ∷ 0x01 ∷ 0x0f ∷ []) }
    ensures failed { WritesApdu (error 1 12 (error_octets 2 32)) (0x50 ∷ 0x01 ∷ 0x0c ∷ 0x91 ∷ 0x02 ∷ 0x91 ∷ 0x20 ∷ []) }
    ensures rejected { WritesApdu (reject 1 9) (0x60 ∷ 0x01 ∷ 0x09 ∷ []) }
    ensures aborted { WritesApdu (abort true 1 4) (0x71 ∷ 0x01 ∷ 0x04 ∷ []) }

    // An empty body, one that begins with another tag, and one with an octet too many.
    ensures missing { read_of [] ≡ Err MissingParameter }
    ensures invalid { read_of (0x19 ∷ 0x55 ∷ []) ≡ Err InvalidTag }
    ensures too_many { read_of (read_octets present_value ++ 0x00 ∷ []) ≡ Err TooMany }

    // The value NULL at priority 16, and at priority 17, which does not exist.
    ensures write { write_of (read_octets present_value ++ (0x3e ∷ 0x00 ∷ 0x3f ∷ 0x49 ∷ 0x10 ∷ [])) ≡
        Ok (record { reference = present_value; value = 0x00 ∷ []; priority = Some 16 }) }
    ensures out_of_range { write_of (read_octets present_value ++ (0x3e ∷ 0x00 ∷ 0x3f ∷ 0x49 ∷ 0x11 ∷ []))
        ≡ Err OutOfRange }
{}

// Who-Is and I-Am (ANSI/ASHRAE 135, 16.10).
#[tactic(none)]
fn examples_of_discovery()
    // Every device is asked, or those from 1000 to 1234.
    ensures all { who_is_octets All ≡ [] }
    ensures range { who_is_octets (Range 1000 1234) ≡ 0x0a ∷ 0x03 ∷ 0xe8 ∷ 0x1a ∷ 0x04 ∷ 0xd2 ∷ [] }
    ensures range_read { who_is_of (0x0a ∷ 0x03 ∷ 0xe8 ∷ 0x1a ∷ 0x04 ∷ 0xd2 ∷ []) ≡ Some (Range 1000 1234) }
    ensures low_alone { who_is_of (0x0a ∷ 0x03 ∷ 0xe8 ∷ []) ≡ None }

    // Device 1234: its identifier, 1476 octets, no segmentation (3), and the vendor 260.
    ensures body { i_am_octets small_device ≡ 0xc4 ∷ 0x02 ∷ 0x00 ∷ 0x04 ∷ 0xd2 ∷ 0x22 ∷ 0x05 ∷ 0xc4
        ∷ 0x91 ∷ 0x03 ∷ 0x22 ∷ 0x01 ∷ 0x04 ∷ [] }
    ensures body_read { introduction_of (i_am_octets small_device) ≡ Some small_device }

    // A vendor of three octets is accepted, though the standard has no vendor number above 65,535.
    ensures large_vendor { introduction_of (0xc4 ∷ 0x02 ∷ 0x00 ∷ 0x04 ∷ 0xd2 ∷ 0x22 ∷ 0x05 ∷ 0xc4 ∷ 0x91 ∷ 0x03
        ∷ 0x23 ∷ 0x01 ∷ 0x00 ∷ 0x00 ∷ []) ≡ Some (record small_device { vendor = 65536 }) }
    ensures i_am { WritesApdu (unconfirmed 0 (i_am_octets small_device)) (0x10 ∷ 0x00 ∷ i_am_octets small_device) }

    // The whole datagram, of 21 octets (15). No reply is expected (00).
    ensures datagram { wrapped None false (0x10 ∷ 0x00 ∷ i_am_octets small_device) ≡
        0x81 ∷ 0x0a ∷ 0x00 ∷ 0x15 ∷ 0x01 ∷ 0x00 ∷ 0x10 ∷ 0x00 ∷ i_am_octets small_device }

    // The device is found at the address that was asked; a Who-Is introduces no device.
    ensures found { found_of (Range 1000 1234) desk
        (0x81 ∷ 0x0a ∷ 0x00 ∷ 0x15 ∷ 0x01 ∷ 0x00 ∷ 0x10 ∷ 0x00 ∷ i_am_octets small_device)
        ≡ Some (record { peer = desk; device = small_device }) }
    ensures unasked { found_of (Range 1000 1233) desk
        (0x81 ∷ 0x0a ∷ 0x00 ∷ 0x15 ∷ 0x01 ∷ 0x00 ∷ 0x10 ∷ 0x00 ∷ i_am_octets small_device) ≡ None }
    ensures who_is { found_of All desk (0x81 ∷ 0x0a ∷ 0x00 ∷ 0x08 ∷ 0x01 ∷ 0x00 ∷ 0x10 ∷ 0x08 ∷ []) ≡ None }
{}

// The contents of a datagram, and the datagram that carries an APDU to a station (Annex J.2 and clause 6.2).
#[tactic(auto, using(crate::proofs::DatagramLaws::carried_is, crate::proofs::DatagramLaws::wrapped_takes), unfolding(crate::specs::address_at, crate::specs::header_at, crate::specs::link_at, crate::specs::carried, crate::specs::wrapped))]
fn examples_of_carrying()
    // The length counts the whole datagram.
    ensures carried { Carries desk (0x81 ∷ 0x0a ∷ 0x00 ∷ 0x09 ∷ 0x01 ∷ 0x00 ∷ ack_octets_of_1)
        (from_desk ack_octets_of_1) }
    ensures other_length { Carries desk (0x81 ∷ 0x0a ∷ 0x00 ∷ 0x08 ∷ 0x01 ∷ 0x00 ∷ ack_octets_of_1)
        (from_desk ack_octets_of_1) → ⊥ }
    ensures not_to_all { Carries desk (0x81 ∷ 0x0a ∷ 0x00 ∷ 0x09 ∷ 0x01 ∷ 0x00 ∷ ack_octets_of_1)
        (to_all ack_octets_of_1) → ⊥ }

    // A destination is all networks, perhaps with an address there. The address and the hop count are not read.
    ensures all_networks { Carries desk
        (0x81 ∷ 0x0a ∷ 0x00 ∷ 0x0d ∷ 0x01 ∷ 0x20 ∷ 0xff ∷ 0xff ∷ 0x00 ∷ 0x00 ∷ ack_octets_of_1)
        (to_all ack_octets_of_1) }
    ensures all_with_address { Carries desk
        (0x81 ∷ 0x0a ∷ 0x00 ∷ 0x0e ∷ 0x01 ∷ 0x20 ∷ 0xff ∷ 0xff ∷ 0x01 ∷ 0x07 ∷ 0xff ∷ ack_octets_of_1)
        (to_all ack_octets_of_1) }
    ensures one_network { Carries desk
        (0x81 ∷ 0x0a ∷ 0x00 ∷ 0x0d ∷ 0x01 ∷ 0x20 ∷ 0x00 ∷ 0x05 ∷ 0x00 ∷ 0xff ∷ ack_octets_of_1)
        (to_all ack_octets_of_1) → ⊥ }

    // A Forwarded-NPDU (04, J.2.5) is a broadcast by the station whose address and port it contains, 192.168.1.9:47809;
    // an Original-Broadcast-NPDU (0B, J.2.12) is a broadcast by its sender.
    ensures forwarded { Carries desk (forwarded_octets ack_octets_of_1) (from_other true ack_octets_of_1) }
    ensures forwarded_to_one { Carries desk (forwarded_octets ack_octets_of_1) (from_other false ack_octets_of_1) → ⊥ }
    ensures forwarded_by { Carries desk (forwarded_octets ack_octets_of_1) (to_all ack_octets_of_1) → ⊥ }
    ensures original { Carries desk (0x81 ∷ 0x0b ∷ 0x00 ∷ 0x09 ∷ 0x01 ∷ 0x00 ∷ ack_octets_of_1)
        (to_all ack_octets_of_1) }
    ensures original_to_one { Carries desk (0x81 ∷ 0x0b ∷ 0x00 ∷ 0x09 ∷ 0x01 ∷ 0x00 ∷ ack_octets_of_1)
        (from_desk ack_octets_of_1) → ⊥ }

    // Datagrams that are ignored or differ: a type other than BACnet/IP (81), another version of the protocol (01), a
    // network message (80), a source that no route leads to, and another APDU.
    ensures other_type { Carries desk (0x82 ∷ 0x0a ∷ 0x00 ∷ 0x09 ∷ 0x01 ∷ 0x00 ∷ ack_octets_of_1)
        (from_desk ack_octets_of_1) → ⊥ }
    ensures other_version { Carries desk (0x81 ∷ 0x0a ∷ 0x00 ∷ 0x09 ∷ 0x02 ∷ 0x00 ∷ ack_octets_of_1)
        (from_desk ack_octets_of_1) → ⊥ }
    ensures network_message { Carries desk (0x81 ∷ 0x0a ∷ 0x00 ∷ 0x09 ∷ 0x01 ∷ 0x80 ∷ ack_octets_of_1)
        (from_desk ack_octets_of_1) → ⊥ }
    ensures source_everywhere { Carries desk
        (0x81 ∷ 0x0a ∷ 0x00 ∷ 0x0d ∷ 0x01 ∷ 0x08 ∷ 0xff ∷ 0xff ∷ 0x01 ∷ 0x07 ∷ ack_octets_of_1)
        (routed_from 65535 ack_octets_of_1) → ⊥ }
    ensures source { Carries desk
        (0x81 ∷ 0x0a ∷ 0x00 ∷ 0x0d ∷ 0x01 ∷ 0x08 ∷ 0x00 ∷ 0x05 ∷ 0x01 ∷ 0x07 ∷ ack_octets_of_1)
        (routed_from 5 ack_octets_of_1) }
    ensures other_source { Carries desk
        (0x81 ∷ 0x0a ∷ 0x00 ∷ 0x0d ∷ 0x01 ∷ 0x08 ∷ 0x00 ∷ 0x05 ∷ 0x01 ∷ 0x07 ∷ ack_octets_of_1)
        (routed_from 6 ack_octets_of_1) → ⊥ }
    ensures other_carried { Carries desk (0x81 ∷ 0x0a ∷ 0x00 ∷ 0x09 ∷ 0x01 ∷ 0x00 ∷ ack_octets_of_1)
        (from_desk (0x20 ∷ 0x01 ∷ 0x10 ∷ [])) → ⊥ }

    // A reply is expected if the control octet says so (04).
    ensures taken { Takes None true (0x10 ∷ 0x08 ∷ []) (0x81 ∷ 0x0a ∷ 0x00 ∷ 0x08 ∷ 0x01 ∷ 0x04 ∷ 0x10 ∷ 0x08 ∷ []) }
    ensures not_expected { Takes None true (0x10 ∷ 0x08 ∷ [])
        (0x81 ∷ 0x0a ∷ 0x00 ∷ 0x08 ∷ 0x01 ∷ 0x00 ∷ 0x10 ∷ 0x08 ∷ []) → ⊥ }
    ensures other_apdu { Takes None true (0x10 ∷ 0x07 ∷ [])
        (0x81 ∷ 0x0a ∷ 0x00 ∷ 0x08 ∷ 0x01 ∷ 0x04 ∷ 0x10 ∷ 0x08 ∷ []) → ⊥ }

    ensures taken_by_all { Takes None true (0x10 ∷ 0x08 ∷ [])
        (0x81 ∷ 0x0b ∷ 0x00 ∷ 0x08 ∷ 0x01 ∷ 0x04 ∷ 0x10 ∷ 0x08 ∷ []) → ⊥ }
    ensures miscounted { Takes None true (0x10 ∷ 0x08 ∷ [])
        (0x81 ∷ 0x0a ∷ 0x00 ∷ 0x09 ∷ 0x01 ∷ 0x04 ∷ 0x10 ∷ 0x08 ∷ []) → ⊥ }
    ensures taken_elsewhere { Takes far.route true (0x10 ∷ 0x08 ∷ [])
        (0x81 ∷ 0x0a ∷ 0x00 ∷ 0x08 ∷ 0x01 ∷ 0x04 ∷ 0x10 ∷ 0x08 ∷ []) → ⊥ }

    // The stations that a route leads to.
    ensures routable { IsRoutable (record { network = 65534; address = 0x07 ∷ [] }) }
    ensures local { IsRoutable (record { network = 0; address = 0x07 ∷ [] }) → ⊥ }
    ensures everywhere { IsRoutable (record { network = 65535; address = 0x07 ∷ [] }) → ⊥ }
    ensures no_address { IsRoutable (record { network = 5; address = [] }) → ⊥ }
    ensures eight { IsRoutable (record { network = 5; address = 1 ∷ 2 ∷ 3 ∷ 4 ∷ 5 ∷ 6 ∷ 7 ∷ 8 ∷ [] }) → ⊥ }
    ensures front { front_count None ≡ 6 }
    ensures routed_front { front_count far.route ≡ 11 }
{}

// Which octets are an APDU (clause 20.1), and which can be written.
fn examples_of_layouts()
    // Octets after a SimpleACK are not read, nor are the low bits of its first octet.
    ensures simple { IsLaidOut (0x2f ∷ 0x01 ∷ 0x0f ∷ 0x00 ∷ []) (simple_ack 1 15) }
    ensures other_id { IsLaidOut (0x20 ∷ 0x02 ∷ 0x0f ∷ []) (simple_ack 1 15) → ⊥ }

    // Bit 3 says that this is a part, and bit 2 that more follow.
    ensures part { IsLaidOut (0x3c ∷ 0x01 ∷ 0x01 ∷ 0x04 ∷ 0x0c ∷ []) (complex_ack (Some second_part) 1 12 []) }
    ensures last { IsLaidOut (0x38 ∷ 0x01 ∷ 0x01 ∷ 0x04 ∷ 0x0c ∷ []) (complex_ack (Some last_part) 1 12 []) }
    ensures other_part { IsLaidOut (0x38 ∷ 0x01 ∷ 0x01 ∷ 0x04 ∷ 0x0c ∷ []) (complex_ack (Some second_part) 1 12 [])
        → ⊥ }
    ensures from_client { IsLaidOut (0x70 ∷ 0x01 ∷ 0x04 ∷ []) (abort true 1 4) → ⊥ }
    ensures code { IsWritable (confirmed None 15 1 12 []) }
    ensures no_code { IsWritable (confirmed None 16 1 12 []) → ⊥ }
    ensures not_written { IsWritable segment_ack → ⊥ }

    // The greatest APDU that a code announces (clause 20.1.2.5).
    ensures least { announced_size 0 ≡ 50 }
    ensures second { announced_size 1 ≡ 128 }
    ensures lon_talk { announced_size 2 ≡ 206 }
    ensures ms_tp { announced_size 3 ≡ 480 }
    ensures fifth { announced_size 4 ≡ 1024 }
    ensures most { announced_size 5 ≡ 1476 }
    ensures unknown { announced_size 6 ≡ 50 }

    // The numbers of the reasons of a Reject (clause 18.9).
    ensures invalid_tag { reason_number InvalidTag ≡ 4 }
    ensures missing { reason_number MissingParameter ≡ 5 }
    ensures out_of_range { reason_number OutOfRange ≡ 6 }
    ensures too_many { reason_number TooMany ≡ 7 }
    ensures unknown_service { reason_number UnknownService ≡ 9 }
    ensures longest { longest_body ≡ 476 }
    ensures seen { message (SimpleAck 1 15) ≡ simple_ack 1 15 }
{}

// The contents of service bodies (clause 21), and the contents that can be written.
#[tactic(none)]
fn examples_of_bodies()
    ensures read { IsReadBody present_octets present_value }
    ensures read_more { IsReadBody (present_octets ++ 0x00 ∷ []) present_value → ⊥ }
    ensures ack { IsAckBody (present_octets ++ (0x3e ∷ 0x00 ∷ 0x3f ∷ []))
        (record { reference = present_value; value = 0x00 ∷ [] }) }
    ensures other_ack { IsAckBody (present_octets ++ (0x3e ∷ 0x00 ∷ 0x3f ∷ []))
        (record { reference = present_value; value = [] }) → ⊥ }
    ensures write { IsWriteBody (present_octets ++ (0x3e ∷ 0x00 ∷ 0x3f ∷ 0x49 ∷ 0x10 ∷ [])) (release 16) }
    ensures other_write { IsWriteBody (present_octets ++ (0x3e ∷ 0x00 ∷ 0x3f ∷ 0x49 ∷ 0x10 ∷ [])) (release 15) → ⊥ }
    ensures no_write { IsWriteBody (present_octets ++ (0x3e ∷ 0x00 ∷ 0x3f ∷ 0x49 ∷ 0x11 ∷ [])) (release 17) → ⊥ }
    ensures first { IsPriority 1 }
    ensures sixteenth { IsPriority 16 }
    ensures zeroth { IsPriority 0 → ⊥ }
    ensures seventeenth { IsPriority 17 → ⊥ }
    ensures all { IsWhoIsBody [] All }
    ensures not_all { IsWhoIsBody (0x09 ∷ 0x01 ∷ 0x19 ∷ 0x02 ∷ []) All → ⊥ }
    ensures range { IsWhoIsBody (0x09 ∷ 0x01 ∷ 0x19 ∷ 0x02 ∷ []) (Range 1 2) }
    ensures other_range { IsWhoIsBody (0x09 ∷ 0x01 ∷ 0x19 ∷ 0x02 ∷ []) (Range 2 1) → ⊥ }

    // An I-Am of analog-input (0) 1234 is not accepted, since it is not a device.
    ensures i_am { IsIAmBody i_am_1234 small_device }
    ensures no_device { IsIAmBody (0xc4 ∷ 0x00 ∷ 0x00 ∷ 0x04 ∷ 0xd2 ∷ 0x22 ∷ 0x05 ∷ 0xc4 ∷ 0x91 ∷ 0x03 ∷ 0x22 ∷ 0x01
        ∷ 0x04 ∷ []) (record small_device { device = record { kind = 0; instance = 1234 } }) → ⊥ }

    // The body does not have another instance, size, segmentation or vendor.
    ensures other_instance { IsIAmBody i_am_1234 (record small_device { device = record { kind = 8; instance = 1235 } })
        → ⊥ }
    ensures other_size { IsIAmBody i_am_1234 (record small_device { max_apdu = 480 }) → ⊥ }
    ensures segmented { IsIAmBody i_am_1234 (record small_device { segmentation = 0 }) → ⊥ }
    ensures other_vendor { IsIAmBody i_am_1234 (record small_device { vendor = 261 }) → ⊥ }

    // An Error has a class and a code; octets after them are not read.
    ensures error { IsErrorBody (0x91 ∷ 0x02 ∷ 0x91 ∷ 0x20 ∷ 0x00 ∷ []) (2, 32) }
    ensures other_error { IsErrorBody (0x91 ∷ 0x02 ∷ 0x91 ∷ 0x20 ∷ []) (32, 2) → ⊥ }

    // The reason of a Reject is the first that applies.
    ensures missing { IsOutcome IsReadBody ReadFault [] (Err MissingParameter) }
    ensures other_reason { IsOutcome IsReadBody ReadFault [] (Err InvalidTag) → ⊥ }
    ensures whole_rejected { IsOutcome IsReadBody ReadFault present_octets (Err InvalidTag) → ⊥ }
    ensures other_outcome { IsOutcome IsReadBody ReadFault present_octets (Ok (record present_value { property = 84 }))
        → ⊥ }
    ensures out_of_range { IsOutcome IsWriteBody WriteFault
        (present_octets ++ (0x3e ∷ 0x00 ∷ 0x3f ∷ 0x49 ∷ 0x11 ∷ [])) (Err OutOfRange) }
    ensures not_missing { IsOutcome IsWriteBody WriteFault
        (present_octets ++ (0x3e ∷ 0x00 ∷ 0x3f ∷ 0x49 ∷ 0x11 ∷ [])) (Err MissingParameter) → ⊥ }

    // The parameters that can be written.
    ensures greatest { IsParameter (numbered 254 (2 ^ 32 - 1)) }
    ensures no_tag { IsParameter (numbered 255 0) → ⊥ }
    ensures no_number { IsParameter (numbered 1 (2 ^ 32)) → ⊥ }
    ensures left_open { IsParameter (value (0x1e ∷ [])) → ⊥ }

    // The octets around the value of an answer.
    ensures before { ack_front present_value ≡ present_octets ++ 0x3e ∷ [] }
    ensures behind { ack_end ≡ 0x3f ∷ [] }
{}

// A Who-Is (0x10, 0x08) that a router is asked to broadcast: in all networks (0xffff), and in network 5.
#[tactic(auto, unfolding(crate::specs::wrapped))]
fn examples_of_broadcasts()
    ensures all { wrapped (Some (everyone 65535)) false (0x10 ∷ 0x08 ∷ [])
        ≡ 0x81 ∷ 0x0a ∷ 0x00 ∷ 0x0c ∷ 0x01 ∷ 0x20 ∷ 0xff ∷ 0xff ∷ 0x00 ∷ 0xff ∷ 0x10 ∷ 0x08 ∷ [] }
    ensures one { wrapped (Some (everyone 5)) false (0x10 ∷ 0x08 ∷ [])
        ≡ 0x81 ∷ 0x0a ∷ 0x00 ∷ 0x0c ∷ 0x01 ∷ 0x20 ∷ 0x00 ∷ 0x05 ∷ 0x00 ∷ 0xff ∷ 0x10 ∷ 0x08 ∷ [] }
{}
