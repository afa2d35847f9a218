//! Examples of runs, worked out by computation. They show what the definitions mean.

ghost use Rattle.std.specs.Prelude.{[], codes, Err, false, List, replicate, true, ℕ, ◌++◌, ◌+◌, ◌<◌, ◌^◌, ◌∷◌, ◌≡◌};
ghost use Rattle.{bac_tsm.specs.Tick, bac_script.specs.{Blank, Happens, declared.line.LineFault.TheVariants.TooLong}};
ghost use Rattle.std.specs.Prelude.{None, Some};
ghost use Rattle.bac_run.specs.{acts_of_line, AreOffered, AreSteady, Asked, AskNext, AtEnd, BadLine, calls_of, Came};
ghost use Rattle.bac_run.specs.{ClockAt, Closed, Does, EndsAt, EndsWithFeed, events_of, Failed, Feeds, FewOpen};
ghost use Rattle.bac_run.specs.{FitsLine, Fresh, Goes, Handed, has_line, HasNoFeed, IsDue, IsLineOf, IsOut, IsPassed};
ghost use Rattle.bac_run.specs.{is_reached, IsReplayed, IsWithin, journal, journal_of, LastIsDue, Link, moved};
ghost use Rattle.bac_run.specs.{NextLine, NoLine, notes_of, offered_in, Open, Passed, passed_at, Paused, Read};
ghost use Rattle.bac_run.specs.{ReadFailed, ReceiveFailed, refused_in, Rested, Rests, room_for, Runs, said_of, Script};
ghost use Rattle.bac_run.specs.{SendFailed, sends_of, sent_in, since_act, Sought, stage_after, taking, Telling};
ghost use Rattle.bac_run.specs.{time_line, Told, Took, Turns, TurnsSpent, unsent_in, WantsLine, write_failed};
ghost use Rattle.bac_run.specs.Inner.{about, answer, asked, busier, busy, deaf, desk, drained, ended, filled};
ghost use Rattle.bac_run.specs.Inner.{full_after, given_once, handed, idle, IsRunOf, link_with, long_answer, octets};
ghost use Rattle.bac_run.specs.Inner.{one_by_one, read, read_line, sent, slow, told_at, unknown, waiting};
ghost use Rattle.bac_links.specs.{Arrived, most_turns, Offered, Posted, Silence, Timed, Unposted, Waited};
ghost use Rattle.{bac_print.specs.fresh};

// The act that is due while a run waits for open requests. The timeout is three seconds, so a turn waits for 50
// milliseconds.
#[tactic(auto, unfolding(bac_script::proofs::Computed::computed))]
fn examples_of_turns()
    ensures looks { IsDue 3000 (waiting 0 9) (Read 40) }
    ensures tells_unread { IsDue 3000 (waiting 0 9) (Told 40) → ⊥ }

    // In silence the next turn reads the time again and only looks; then the client gets the new time. Without the look
    // it gets no time, and it never gets another one.
    ensures quiet { Goes 3000 (waiting 0 9) (Read 40 ∷ Passed 50 Silence ∷ Read 90 ∷ Passed 0 Silence ∷ Told 90 ∷ []) }
    ensures old_time { Goes 3000 (waiting 0 9) (Read 40 ∷ Passed 50 Silence ∷ Told 40 ∷ []) → ⊥ }
    ensures other_time { Goes 3000 (waiting 0 9)
        (Read 40 ∷ Passed 50 Silence ∷ Read 90 ∷ Passed 0 Silence ∷ Told 40 ∷ []) → ⊥ }
    ensures no_look { Goes 3000 (waiting 0 9) (Read 40 ∷ Passed 50 Silence ∷ Read 90 ∷ Told 90 ∷ []) → ⊥ }
    // A wait ends when the first request is due: this one was sent at 0.
    ensures short { Goes 3000 (waiting 0 9) (Read 2990 ∷ Passed 10 Silence ∷ []) }
    ensures past_due { Goes 3000 (waiting 0 9) (Read 2990 ∷ Passed 50 Silence ∷ []) → ⊥ }
    ensures due { Goes 3000 (waiting 0 9) (Read 3000 ∷ Passed 0 Silence ∷ Told 3000 ∷ handed ∷ []) }
    ensures no_wait { Goes 3000 (waiting 0 9) (Read 40 ∷ Told 40 ∷ []) → ⊥ }
    ensures other_wait { Goes 3000 (waiting 0 9) (Read 40 ∷ Passed 49 Silence ∷ []) → ⊥ }
    ensures no_later { Goes 3000 (waiting 1 9) (Read 0 ∷ Passed 0 Silence ∷ Told 0 ∷ []) → ⊥ }

    // A datagram is received: the client gets the time after a turn that only looks and receives nothing.
    ensures heard { Goes 3000 (waiting 0 9)
        (Read 40 ∷ Came 50 desk (7 ∷ []) ∷ Read 41 ∷ Passed 0 Silence ∷ Told 41 ∷ []) }
    ensures told_behind { Goes 3000 (waiting 0 9) (Read 40 ∷ Came 50 desk (7 ∷ []) ∷ Told 40 ∷ []) → ⊥ }
    ensures long_behind { Goes 3000 (waiting 0 9) (Read 40 ∷ Came 50 desk (7 ∷ []) ∷ Read 41 ∷ Passed 50 Silence ∷ [])
        → ⊥ }

    // After 256 waits in a row the client gets the time anyway.
    ensures row { Goes 3000 (waiting 255 9) (Read 40 ∷ Came 0 desk (7 ∷ []) ∷ Told 40 ∷ []) }
    ensures no_row { Goes 3000 (waiting 254 9) (Read 40 ∷ Came 0 desk (7 ∷ []) ∷ Told 40 ∷ []) → ⊥ }

    // A turn is counted; after the client has got a time, the count begins again.
    ensures counted { stage_after 3000 (waiting 0 9) (Read 40 ∷ Passed 50 Silence ∷ []) ≡ waiting 1 8 }
    ensures anew { stage_after 3000 (record (waiting 0 1) { phase = Telling 5 }) (Told 5 ∷ [])
        ≡ told_at 5 (waiting 0 most_turns) }

    // After the last turn no act is due.
    ensures spent { Goes 3000 (waiting 0 0) (Read 40 ∷ []) → ⊥ }

    // Before a request the client gets the time if no request is open, or if its last time is older than a tenth of the
    // timeout.
    ensures first { Goes 3000 (about idle 0 (Fresh ∷ Does asked ∷ [])) (Read 40 ∷ Told 40 ∷ asked ∷ []) }
    ensures first_untold { Goes 3000 (about idle 0 (Fresh ∷ Does asked ∷ [])) (Read 40 ∷ asked ∷ []) → ⊥ }
    ensures soon { Goes 3000 (about busy 0 (Fresh ∷ Does asked ∷ [])) (Read 300 ∷ asked ∷ []) }
    ensures late { Goes 3000 (about busy 0 (Fresh ∷ Does asked ∷ []))
        (Read 301 ∷ Read 302 ∷ Passed 0 Silence ∷ Told 302 ∷ asked ∷ []) }
    ensures too_late { Goes 3000 (about busy 0 (Fresh ∷ Does asked ∷ [])) (Read 301 ∷ asked ∷ []) → ⊥ }
    ensures told_at_once { Goes 3000 (about busy 0 (Fresh ∷ Does asked ∷ [])) (Read 301 ∷ Told 301 ∷ []) → ⊥ }
{}

// The acts of a run that follow from a line of its input.
#[tactic(auto, unfolding(bac_script::proofs::Computed::computed))]
fn examples_of_lines()
    // A line is taken if no other act is due. Its acts come before the next line.
    ensures request { Goes 3000 (about idle 0 (NextLine 2 0 ∷ [])) (Took read_line ∷ Read 40 ∷ Told 40 ∷ asked
        ∷ handed ∷ Took read_line ∷ []) }
    ensures two { Goes 3000 (about idle 0 (NextLine 2 0 ∷ [])) (Took read_line ∷ Took read_line ∷ []) → ⊥ }
    ensures untaken { Goes 3000 (about idle 0 (NextLine 2 0 ∷ [])) (Read 40 ∷ []) → ⊥ }

    // There must be room for one more request: with a window of one the run waits for the first.
    ensures full { Goes 3000 (about idle 0 (NextLine 1 0 ∷ []))
        (Took read_line ∷ Read 40 ∷ Told 40 ∷ asked ∷ handed ∷ Took read_line ∷ []) → ⊥ }
    ensures waits { Goes 3000 (about idle 0 (NextLine 1 0 ∷ [])) (Took read_line ∷ Read 40 ∷ Told 40 ∷ asked ∷ handed
        ∷ Read 41 ∷ []) }

    // At a line without words the run waits until nothing is open, and at a remark it does nothing.
    ensures empty { Goes 3000 (about busy 0 (NextLine 2 1 ∷ [])) (Took (10 ∷ []) ∷ Read 40 ∷ []) }
    ensures empty_still { Goes 3000 (about busy 0 (NextLine 2 1 ∷ [])) (Took (10 ∷ []) ∷ Paused ∷ []) → ⊥ }
    ensures remark { Goes 3000 (about busy 0 (NextLine 2 1 ∷ [])) (Took (codes "# x\n") ∷ Took read_line ∷ []) }

    // After a bad line, and at the end of the input, no line is taken, and the run waits for open requests.
    ensures bad { Goes 3000 (about busy 0 (NextLine 2 1 ∷ [])) (Took (codes "tick 1\n") ∷ Read 40 ∷ []) }
    ensures bad_on { Goes 3000 (about idle 0 (NextLine 2 1 ∷ [])) (Took (codes "tick 1\n") ∷ Took read_line ∷ []) → ⊥ }
    ensures end { Goes 3000 (about busy 0 (NextLine 2 1 ∷ [])) (NoLine AtEnd ∷ Read 40 ∷ []) }
    ensures end_on { Goes 3000 (about idle 0 (NextLine 2 1 ∷ [])) (NoLine AtEnd ∷ Took read_line ∷ []) → ⊥ }

    // A line of 4,096 octets that ends in a carriage return.
    ensures too_long { said_of (replicate 4095 32 ++ 13 ∷ []) ≡ Err TooLong }

    // A run that ends well closes its journal once no request is open. No other run closes it.
    ensures closed { Goes 3000 (about idle 0 (NextLine 2 1 ∷ [])) (NoLine AtEnd ∷ Closed ∷ []) }
    ensures closed_twice { Goes 3000 (about idle 0 (NextLine 2 1 ∷ [])) (NoLine AtEnd ∷ Closed ∷ Closed ∷ []) → ⊥ }
    ensures closed_early { Goes 3000 (about busy 0 (NextLine 2 1 ∷ [])) (NoLine AtEnd ∷ Closed ∷ []) → ⊥ }
    ensures closed_unread { Goes 3000 (about idle 0 (NextLine 2 1 ∷ [])) (NoLine Failed ∷ Closed ∷ []) → ⊥ }
    ensures closed_bad { Goes 3000 (about idle 0 (NextLine 2 1 ∷ [])) (Took (codes "tick 1\n") ∷ Closed ∷ []) → ⊥ }

    // The ends of a run.
    ensures ended { EndsAt (ended 1) (stage_after 3000 (about idle 0 (NextLine 2 1 ∷ [])) (NoLine AtEnd ∷ Closed
        ∷ [])) }
    ensures other_count { EndsAt (ended 2) (stage_after 3000 (about idle 0 (NextLine 2 1 ∷ [])) (NoLine AtEnd ∷ Closed
        ∷ [])) → ⊥ }
    ensures unclosed { EndsAt (ended 1) (stage_after 3000 (about idle 0 (NextLine 2 1 ∷ [])) (NoLine AtEnd ∷ []))
        → ⊥ }
    ensures still_open { EndsAt (ended 1) (stage_after 3000 (about busy 0 (NextLine 2 1 ∷ [])) (NoLine AtEnd ∷ [])) →
        ⊥ }
    ensures unended { EndsAt (ended 1) (about idle 0 (NextLine 2 1 ∷ [])) → ⊥ }
    ensures bad_line { EndsAt (Err (Script (BadLine 2)))
        (stage_after 3000 (about idle 0 (NextLine 2 1 ∷ [])) (Took (codes "tick 1\n") ∷ [])) }
    ensures other_line { EndsAt (Err (Script (BadLine 1)))
        (stage_after 3000 (about idle 0 (NextLine 2 1 ∷ [])) (Took (codes "tick 1\n") ∷ [])) → ⊥ }
    ensures good_line { EndsAt (Err (Script (BadLine 2)))
        (stage_after 3000 (about idle 0 (NextLine 2 1 ∷ [])) (Took (codes "# x\n") ∷ [])) → ⊥ }
    ensures unread { EndsAt (Err (Script ReadFailed))
        (stage_after 3000 (about idle 0 (NextLine 2 1 ∷ [])) (NoLine Failed ∷ [])) }
    ensures read_to_its_end { EndsAt (Err (Script ReadFailed))
        (stage_after 3000 (about idle 0 (NextLine 2 1 ∷ [])) (NoLine AtEnd ∷ Closed ∷ [])) → ⊥ }
    ensures spent { EndsAt (Err (Link TurnsSpent)) (waiting 0 0) }
    ensures not_spent { EndsAt (Err (Link TurnsSpent)) (waiting 0 9) → ⊥ }
    ensures unheard { EndsAt (Err (Link ReceiveFailed)) deaf }
    ensures heard { EndsAt (Err (Link ReceiveFailed)) (waiting 0 9) → ⊥ }
    ensures unwritten { EndsAt (Err write_failed) (waiting 0 9) }
    ensures unsent { EndsAt (Err (Link SendFailed)) (waiting 0 9) → ⊥ }
{}

// The datagrams that a run offers to its link. If the link refuses one, the run goes on, and the request is sent again
// at its timeout.
#[tactic(auto, unfolding(bac_script::proofs::Computed::computed))]
fn examples_of_sends()
    ensures offered { Goes 3000 (about idle 0 (Does asked ∷ Fresh ∷ [])) (asked ∷ handed ∷ Read 40 ∷ []) }
    ensures refused { Goes 3000 (about idle 0 (Does asked ∷ Fresh ∷ [])) (asked ∷ Handed desk octets false ∷ Read 40
        ∷ []) }
    ensures again { Goes 3000 (record (waiting 0 9) { phase = Telling 3000 }) (Told 3000 ∷ handed ∷ Read 3001 ∷ []) }
    ensures unoffered { Goes 3000 (about idle 0 (Does asked ∷ Fresh ∷ [])) (asked ∷ Read 40 ∷ []) → ⊥ }
    ensures twice { Goes 3000 (about idle 0 (Does asked ∷ [])) (asked ∷ handed ∷ handed ∷ []) → ⊥ }
    ensures too_early { Goes 3000 (record (waiting 0 9) { phase = Telling 2999 }) (Told 2999 ∷ handed ∷ []) → ⊥ }
    ensures other_octets { Goes 3000 (about idle 0 (Does asked ∷ [])) (asked ∷ Handed desk (7 ∷ []) true ∷ []) → ⊥ }
    ensures other_peer { Goes 3000 (about idle 0 (Does asked ∷ []))
        (asked ∷ Handed (record desk { port = 1 }) octets true ∷ []) → ⊥ }
    ensures sought { Goes 3000 (about idle 0 (Does (Sought desk (7 ∷ [])) ∷ Fresh ∷ []))
        (Sought desk (7 ∷ []) ∷ Handed desk (7 ∷ []) true ∷ Read 40 ∷ []) }

    // A remark says which datagram was refused.
    ensures remarked { journal idle (asked ∷ Handed desk octets false ∷ [])
        ≡ codes "read 127.0.0.1 0 5 85\n# send 0 127.0.0.1:47808 810a001101040005010c0c000000051955\n"
        ++ codes "# unsent 127.0.0.1:47808 810a001101040005010c0c000000051955\n" }
    ensures named { unsent_in (Handed desk octets false) ≡ (desk, octets) ∷ [] }
    ensures unnamed { unsent_in handed ≡ [] }

    // The datagrams in the calls of the link.
    ensures in_call { offered_in (Offered desk octets false) ≡ (desk, octets) ∷ [] }
    ensures sent { offered_in (Posted desk octets) ≡ (desk, octets) ∷ [] }
    ensures unsent { offered_in (Unposted desk octets) ≡ (desk, octets) ∷ [] }
    ensures in_other_call { offered_in (Timed 40) ≡ [] }
    ensures lost { refused_in (Offered desk octets false) ≡ (desk, octets) ∷ [] }
    ensures taken { refused_in (Offered desk octets true) ≡ [] }
    ensures failed { refused_in (Unposted desk octets) ≡ (desk, octets) ∷ [] }
    ensures sent_well { refused_in (Posted desk octets) ≡ [] }

    // Only a run whose writer failed may leave datagrams.
    ensures all { AreOffered {D = ℕ} (ended 2) (1 ∷ 2 ∷ []) (1 ∷ 2 ∷ []) }
    ensures one_less { AreOffered {D = ℕ} (ended 2) (1 ∷ 2 ∷ []) (1 ∷ []) → ⊥ }
    ensures cut_off { AreOffered {A = ℕ} {D = ℕ} (Err write_failed) (1 ∷ 2 ∷ []) (1 ∷ []) }
    ensures one_more { AreOffered {A = ℕ} {D = ℕ} (Err write_failed) (1 ∷ []) (1 ∷ 2 ∷ []) → ⊥ }
{}

// The lines that a run takes from its input.
#[tactic(auto, unfolding(bac_script::proofs::Computed::computed))]
fn examples_of_input()
    // The last line may lack its line feed if reading has ended.
    ensures lines { Feeds AtEnd (codes "\n#") [] (Took (10 ∷ []) ∷ Took (35 ∷ []) ∷ NoLine AtEnd ∷ []) }
    ensures unended { Feeds Open (codes "\n#") [] (Took (10 ∷ []) ∷ Took (35 ∷ []) ∷ []) → ⊥ }
    ensures kept { Feeds Open (codes "\n#") (35 ∷ []) (Took (10 ∷ []) ∷ []) }
    ensures lost { Feeds Open (codes "\n#") [] (Took (10 ∷ []) ∷ []) → ⊥ }
    ensures short { Feeds Open (codes "#\n") [] (Took (35 ∷ []) ∷ Took (10 ∷ []) ∷ []) → ⊥ }
    ensures left { Feeds AtEnd (35 ∷ []) (35 ∷ []) (NoLine AtEnd ∷ []) → ⊥ }
    ensures failed { Feeds Failed (35 ∷ []) (35 ∷ []) (NoLine Failed ∷ []) }
    ensures whole { Feeds Failed (10 ∷ []) (10 ∷ []) (NoLine Failed ∷ []) → ⊥ }

    // A read is due if no whole line is held and no other act is due. With a window of one no request may be open.
    ensures wanted { (timed : 0 < 3000) (some : 0 < 1) → WantsLine (one_by_one timed some) (about idle 0 (NextLine 1
        3 ∷ [])) }
    ensures unwanted { (timed : 0 < 3000) (some : 0 < 1) → WantsLine (one_by_one timed some) (waiting 0 9) → ⊥ }
    ensures full { (timed : 0 < 3000) (some : 0 < 1) → WantsLine (one_by_one timed some) (about busy 0 (NextLine 1 3
        ∷ [])) → ⊥ }
{}

// The acts of the lines `who` and `wait`. A Who-Is names its network, without an address.
#[tactic(auto, unfolding(bac_script::proofs::Computed::computed))]
fn examples_of_seeking()
    ensures one { acts_of_line (codes "who 127.0.0.1/5\n") ≡ Some (Sought desk
        (0x81 ∷ 0x0a ∷ 0x00 ∷ 0x0c ∷ 0x01 ∷ 0x20 ∷ 0x00 ∷ 0x05 ∷ 0x00 ∷ 0xff ∷ 0x10 ∷ 0x08 ∷ []) ∷ []) }
    ensures every { acts_of_line (codes "who 127.0.0.1:47808/* 1 300") ≡ Some (Sought desk
        (0x81 ∷ 0x0a ∷ 0x00 ∷ 0x11 ∷ 0x01 ∷ 0x20 ∷ 0xff ∷ 0xff ∷ 0x00 ∷ 0xff ∷ 0x10 ∷ 0x08 ∷ 0x09 ∷ 0x01 ∷ 0x1a ∷ 0x01
        ∷ 0x2c ∷ []) ∷ []) }
    ensures near { acts_of_line (codes "who 127.0.0.1\r\n") ≡ Some (Sought desk
        (0x81 ∷ 0x0a ∷ 0x00 ∷ 0x08 ∷ 0x01 ∷ 0x00 ∷ 0x10 ∷ 0x08 ∷ []) ∷ []) }
    ensures turned { acts_of_line (codes "who 127.0.0.1 2 1\n") ≡ None }
    ensures half { acts_of_line (codes "who 127.0.0.1 2\n") ≡ None }
    ensures far { acts_of_line (codes "who 127.0.0.1 0 4194304\n") ≡ None }
    ensures own { acts_of_line (codes "who 127.0.0.1/0\n") ≡ None }
    ensures number { acts_of_line (codes "who 127.0.0.1/65535\n") ≡ None }
    ensures wait { moved 3000 (about idle 0 (NextLine 1 0 ∷ [])) (Took (codes "wait 60000\n"))
        ≡ about idle 0 (Rests 60000 ∷ Does (Rested 60000) ∷ taking 1 1 []) }
    ensures too_long { acts_of_line (codes "wait 60001\n") ≡ None }

    // A Who-Is opens no request, and is sent once: it is never sent again.
    ensures sent { calls_of (Sought desk (7 ∷ []) ∷ Handed desk (7 ∷ []) true ∷ Told 9000 ∷ [])
        ≡ Offered desk (7 ∷ []) true ∷ [] }
    ensures sends { sends_of idle (Sought desk (7 ∷ []) ∷ asked ∷ []) ≡ (desk, 7 ∷ []) ∷ (desk, octets) ∷ [] }
    ensures remarked { journal idle (Sought desk (7 ∷ []) ∷ Rested 50 ∷ [])
        ≡ codes "# who 127.0.0.1:47808 07\n# wait 50\n" }

    // A wait takes turns from the time that is read until the client gets a time that is later by the whole wait.
    ensures begins { moved 3000 (about idle 0 (Rests 70 ∷ [])) (Read 40)
        ≡ about idle 0 (Turns (ClockAt 110) most_turns ∷ []) }
    ensures quiet { Goes 3000 (about idle 0 (Rests 70 ∷ Does (Rested 70) ∷ [])) (Read 40 ∷ Read 41 ∷ Passed 50 Silence
        ∷ Read 91 ∷ Passed 0 Silence ∷ Told 91 ∷ Read 92 ∷ Passed 50 Silence ∷ Read 142 ∷ Passed 0 Silence ∷ Told 142
        ∷ Rested 70 ∷ []) }
    ensures early { Goes 3000 (about idle 0 (Rests 70 ∷ Does (Rested 70) ∷ [])) (Read 40 ∷ Read 109 ∷ Passed 50 Silence
        ∷ Told 109 ∷ Rested 70 ∷ []) → ⊥ }
{}

// The open requests, the journal and the sends of the acts of a run.
#[tactic(auto, unfolding(bac_script::proofs::Computed::computed))]
fn examples_of_acts()
    // With a window of one no second request is made while the first is open, and no line is taken.
    ensures within { IsWithin 1 idle (Took read_line ∷ asked ∷ []) }
    ensures full { IsWithin 1 idle (asked ∷ asked ∷ []) → ⊥ }
    ensures full_line { IsWithin 1 idle (asked ∷ Took read_line ∷ []) → ⊥ }

    ensures fits { FitsLine (Came 50 desk (7 ∷ [])) }
    ensures empty { FitsLine (Came 50 desk []) → ⊥ }
    ensures late { FitsLine (Told (2 ^ 64)) → ⊥ }

    // The events of the client, in order.
    ensures events { events_of (asked ∷ Read 3000 ∷ Passed 50 Silence ∷ Told 3000 ∷ []) ≡ read ∷ Tick 3000 ∷ [] }

    // A request is sent, and again at its timeout.
    ensures notes { notes_of idle (asked ∷ Told 3000 ∷ []) ≡ sent ∷ sent ∷ [] }
    ensures journal { journal idle (asked ∷ Told 40 ∷ [])
        ≡ codes "read 127.0.0.1 0 5 85\n# send 0 127.0.0.1:47808 810a001101040005010c0c000000051955\ntick 40\n" }
    ensures calls { calls_of (asked ∷ handed ∷ Read 40 ∷ Passed 50 Silence ∷ Told 40 ∷ [])
        ≡ Offered desk octets true ∷ Timed 40 ∷ Waited 50 Silence ∷ [] }
    ensures in_note { sent_in sent ≡ (desk, octets) ∷ [] }

    ensures no_feed { HasNoFeed (13 ∷ []) }
    ensures feed { HasNoFeed (10 ∷ []) → ⊥ }
{}

// A whole run: a request, its answer, and the end of the input.
#[tactic(auto, unfolding(bac_script::proofs::Computed::computed))]
fn examples_of_runs()
    ensures answered { IsRunOf read_line
        (codes "client 3000 3 0\nread 127.0.0.1 0 5 85\n# send 0 127.0.0.1:47808 810a001101040005010c0c000000051955\n"
        ++ codes "data 127.0.0.1:47808 810a0017010030010c0c0000000519553e444290999a3f\n# done 0 value 4290999a\n"
        ++ codes "# end of the run\n")
        (Timed 0 ∷ Offered desk octets true ∷ Timed 5 ∷ Waited 50 (Arrived desk answer) ∷ []) }

    // Whatever is printed: a remark uses no link, and the request of a line is sent.
    ensures unasked { (printed : List ℕ) → IsRunOf (codes "# x\n") printed
        (Timed 0 ∷ Offered desk octets true ∷ Timed 5 ∷ Waited 50 (Arrived desk answer) ∷ []) → ⊥ }
    ensures unsent { (printed : List ℕ) → IsRunOf read_line printed
        (Timed 0 ∷ Timed 5 ∷ Waited 50 (Arrived desk answer) ∷ []) → ⊥ }

    // For a remark only the settings and the closing remark are printed, the time is not read, and the line is not bad.
    ensures over_a_remark { IsRunOf (codes "# x\n") (codes "client 3000 3 0\n# end of the run\n") [] }
    ensures unclosed { IsRunOf (codes "# x\n") (codes "client 3000 3 0\n") [] → ⊥ }
    ensures looked { (printed : List ℕ) → IsRunOf (codes "# x\n") printed (Timed 0 ∷ []) → ⊥ }
    ensures printed_otherwise { IsRunOf (codes "# x\n") (codes "client 3000 3 1\n# end of the run\n") [] → ⊥ }
    ensures ended_otherwise { (timed : 0 < 3000) (some : 0 < 1) → Runs unknown unknown (one_by_one timed some) (fresh 0)
        (drained (codes "# x\n")) (fresh 0) (filled (codes "client 3000 3 0\n")) (link_with []) (link_with [])
        (Err (Script (BadLine 1))) → ⊥ }

    // After a bad line nothing is read.
    ensures read_on { (timed : 0 < 3000) (some : 0 < 1) → Runs unknown unknown (one_by_one timed some) (fresh 0)
        (drained (codes "tick 1\n")) (fresh 0) (filled (codes "client 3000 3 0\n")) (link_with []) (link_with [])
        (Err (Script (BadLine 1))) → ⊥ }

    // A line of a journal does not have a time of 65 bits, nor a script a timeout of 33 bits.
    ensures past_the_clock { (printed : List ℕ) → IsRunOf read_line printed
        (Timed (2 ^ 64) ∷ Offered desk octets true ∷ Timed (2 ^ 64 + 5) ∷ Waited 50 (Arrived desk answer) ∷ []) → ⊥ }
    ensures too_slow { (timed : 0 < 2 ^ 32) (some : 0 < 1) (printed : List ℕ) → Runs unknown unknown (slow timed some)
        (fresh 0) (drained (codes "# x\n")) (fresh 0) (filled printed) (link_with []) (link_with []) (ended 1) → ⊥ }

    // A run whose writer fails did not wait for an answer before its request was printed.
    ensures waited_unprinted { (timed : 0 < 3000) (some : 0 < 1) → Runs unknown unknown (one_by_one timed some)
        (fresh 0) (given_once read_line) (fresh 0) (full_after (codes "client 3000 3 0\n")) (link_with [])
        (link_with (Timed 0 ∷ Offered desk octets true ∷ Timed 5 ∷ Waited 50 Silence ∷ [])) (Err write_failed) → ⊥ }

    // With a window of one no read is due while a request is open, or while a whole line is held.
    ensures early { (timed : 0 < 3000) (some : 0 < 1) → LastIsDue (one_by_one timed some) (drained read_line) read_line
        (Took read_line ∷ Read 0 ∷ asked ∷ []) (λ acts. Unit {0}) → ⊥ }
    ensures held { (timed : 0 < 3000) (some : 0 < 1) → LastIsDue (one_by_one timed some) (drained read_line) read_line
        [] (λ acts. Unit {0}) → ⊥ }

    // The settings are written before a wait.
    ensures out { (timed : 0 < 3000) (some : 0 < 1) → IsOut (one_by_one timed some) (fresh 0)
        (filled (codes "client 3000 3 0\n")) (Passed 50 Silence ∷ []) }
    ensures kept_back { (timed : 0 < 3000) (some : 0 < 1) → IsOut {W = ℕ} (one_by_one timed some) (fresh 0) (fresh 0)
        (Passed 50 Silence ∷ []) → ⊥ }
{}

// A journal with a remark that is longer than a line.
#[tactic(auto, unfolding(bac_script::proofs::Computed::computed))]
fn examples_of_folding()
    // A remark of 4,122 octets goes on in a second line.
    ensures folded { (timed : 0 < 3000) (some : 0 < 1)
        → journal_of (one_by_one timed some) (asked ∷ Came 50 desk long_answer ∷ [])
        ≡ codes "client 3000 3 0\nread 127.0.0.1 0 5 85\n# send 0 127.0.0.1:47808 810a001101040005010c0c000000051955\n"
        ++ (codes "data 127.0.0.1:47808 810a0218010030010c0c0000000519553e85fe020200" ++ (replicate 1026 48
        ++ (codes "3f\n# done 0 value B'" ++ (replicate 4079 48 ++ (codes "\n#+" ++ (replicate 25 48
        ++ codes "'\n")))))) }
{}

// The next call of two runs, and how far a clock goes at once.
fn examples_of_asking()
    ensures next { AskNext (Timed 1 ∷ []) (Timed 2 ∷ []) }
    ensures other { AskNext (Timed 1 ∷ []) (Waited 50 Silence ∷ []) → ⊥ }
    ensures steady { AreSteady 40 [] 0 }
    ensures leap { AreSteady 40 (Tick 0 ∷ Tick 41 ∷ []) 0 → ⊥ }
{}

// The event that `bactrace` reads from a line of the journal.
#[tactic(auto, using(crate::proofs::time_read_back))]
fn examples_of_reading()
    ensures feed { EndsWithFeed (13 ∷ 10 ∷ []) }
    ensures feeds { EndsWithFeed (10 ∷ 10 ∷ []) → ⊥ }
    ensures line { IsLineOf false (time_line 40) (Happens (Tick 40)) }
    ensures lines { IsLineOf false (10 ∷ 10 ∷ []) Blank → ⊥ }
    ensures no_line { IsLineOf false [] Blank → ⊥ }
    ensures other_time { IsLineOf false (time_line 40) (Happens (Tick 41)) → ⊥ }
    ensures read_back { IsReplayed (Told 40) }
    ensures not_read_back { IsReplayed (Asked (10 ∷ 10 ∷ []) read) → ⊥ }
{}

// The longest datagram that has a line, and the room for a request.
#[tactic(none)]
fn examples_of_limits()
    ensures one { has_line 1 ≡ true }
    ensures longest { has_line 2034 ≡ true }
    ensures too_long { has_line 2035 ≡ false }
    ensures empty { has_line 0 ≡ false }

    // A datagram that is too long for a line still counts as received, so the client does not get the time of its turn
    // yet.
    ensures heard_unsaid { passed_at (waiting 0 9) 40 50 (Arrived desk (replicate 2035 0)) ≡ waiting 1 9 }
    ensures silent { passed_at (waiting 1 9) 40 0 Silence ≡ record (waiting 0 9) { phase = Telling 40 } }
    ensures silent_long { passed_at (waiting 0 9) 40 50 Silence ≡ waiting 1 9 }
    ensures unsaid { IsPassed (Arrived desk (replicate 2035 0)) }
    ensures to_be_said { IsPassed (Arrived desk (7 ∷ [])) → ⊥ }

    ensures room { room_for 8 ≡ Turns (FewOpen 7) most_turns }

    // With one request open, there is room for another one of two after a look that found nothing. After a datagram
    // others may follow, and they are heard first.
    ensures few { is_reached busy 0 (Turns (FewOpen 1) 9) ≡ true }
    ensures none_few { is_reached busy 0 (Turns (FewOpen 0) 9) ≡ false }
    ensures unheard { is_reached busy 3 (Turns (FewOpen 1) 9) ≡ false }
    ensures none_open { is_reached idle 3 (Turns (FewOpen 0) 9) ≡ true }

    // A request that leaves no room for one more, while another is open, is followed by a look.
    ensures full { since_act asked busier 0 (room_for 2 ∷ []) ≡ 1 }
    ensures full_before { since_act asked busier 3 (room_for 2 ∷ []) ≡ 3 }
    ensures not_full { since_act asked busier 0 (room_for 3 ∷ []) ≡ 0 }
    ensures only_one { since_act asked busy 0 (room_for 1 ∷ []) ≡ 0 }
    ensures no_request { since_act Paused busier 0 (room_for 2 ∷ []) ≡ 0 }
    ensures looks { (moved 3000 (about busy 0 (Does asked ∷ room_for 2 ∷ [])) asked).since_told ≡ 1 }
{}
