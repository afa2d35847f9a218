//! Examples of scripts, worked out by computation. They show what the definitions mean.

ghost use Rattle.std.specs.Prelude.{[], codes, false, Ok, replicate, ◌∷◌, ◌≡◌};
ghost use Rattle.bac_print.specs.Inner.Examples.{having, page, refusing, unasked, unknown};
ghost use Rattle.bac_tsm.specs.{Ask, client_rules, Tick, Events.request_of};
ghost use Rattle.bac_script.specs.{AreAlike, AtEnd, Blank, Failed, GaveFront, GaveSame, Happens, IsFrontOf};
ghost use Rattle.bac_script.specs.{IsNext, IsWrittenOf, most_reads, Open, ReaderStands, ReadFailed, ReadForLine};
ghost use Rattle.bac_script.specs.{ReadsNoMore, Remark, requests_in, said, ScriptRuns, TakesAndKeeps, Traces};
ghost use Rattle.bac_script.specs.{WriteFailed};
ghost use Rattle.bac_script.specs.declared.line.LineFault.TheVariants.{Bad};
ghost use Rattle.bac_script.specs.declared.tracing.TraceFault.TheVariants.{BadLine, LineTooLong};
ghost use Rattle.bac_script.specs.Inner.{answer, broken, desk, ended, full_after, gave, gave_more, has_read, IsTraced};
ghost use Rattle.bac_script.specs.Inner.{lined, read, sent};

// The text of a client's events.
#[tactic(auto, unfolding(crate::proofs::Computed::computed))]
fn examples_of_a_client()
    ensures answered { IsTraced (read ∷ answer ∷ []) (sent ∷ "done 0 value 4290999a" ∷ []) (ended 2) }

    // No answer comes: the request is sent again at each timeout, and ends after three retries.
    ensures retried { IsTraced (read ∷ "tick 2999" ∷ "tick 3000" ∷ "tick 6000" ∷ "tick 9000" ∷ "tick 12000" ∷ [])
        (sent ∷ sent ∷ sent ∷ sent ∷ "timeout 0" ∷ []) (ended 6) }

    // A timeout of one second, no retry, and a first ticket. A late answer answers nothing.
    ensures late { IsTraced ("client 1000 0 0" ∷ read ∷ "tick 1000" ∷ answer ∷ []) (sent ∷ "timeout 0" ∷ "drop" ∷ [])
        (ended 4) }

    // A Real is written to analog-output 1 at priority 16.
    ensures written { IsTraced ("write 127.0.0.1 1 1 85 16 -1 4 41a00000" ∷ "data 127.0.0.1 810a0009010020010f" ∷ [])
        ("send 0 127.0.0.1:47808 810a001a01040005010f0c0040000119553e4441a000003f4910" ∷ "done 0 ok" ∷ []) (ended 2) }
{}

// The text of the device's replies.
#[tactic(auto, unfolding(crate::proofs::Computed::computed))]
fn examples_of_a_device()
    // Who-Is of 1000 to 1234, and of 1235 to 2000.
    ensures asked_who { IsTraced
        ("ask 127.0.0.1:50000 810a000e010010080a03e81a04d2" ∷ "ask 127.0.0.1:50000 810a000e010010080a04d31a07d0" ∷ [])
        ("reply 127.0.0.1:50000 810a001501001000c4020004d22205c49103220104" ∷ "silent" ∷ []) (ended 2) }

    // The device does not have this object: unknown-object (31).
    ensures unknown { IsTraced ("ask 127.0.0.1:50000 810a001101040005010c0c000000631955" ∷ [])
        ("reply 127.0.0.1:50000 810a000d010050010c9101911f" ∷ []) (ended 1) }

    // A Real is written to analog-output 1 at priority 16, and is present then.
    ensures commanded { IsTraced
        ("ask 127.0.0.1:50000 810a001a01040005090f0c0040000119553e4441a000003f4910"
        ∷ "ask 127.0.0.1:50000 810a001101040005010c0c004000011955" ∷ [])
        ("reply 127.0.0.1:50000 810a0009010020090f"
        ∷ "reply 127.0.0.1:50000 810a0017010030010c0c0040000119553e4441a000003f" ∷ []) (ended 2) }
{}

// The ends of a script.
#[tactic(auto, unfolding(crate::proofs::Computed::computed))]
fn examples_of_ends()
    ensures empty { IsTraced [] [] (ended 0) }

    // Blank lines and remarks are counted, and a carriage return before the line feed is dropped.
    ensures silent { IsTraced ("# a remark" ∷ "" ∷ "tick 5\r" ∷ []) [] (ended 3) }

    // The text of the lines before the first bad one is printed, even if more lines follow.
    ensures bad { IsTraced (read ∷ "tick x" ∷ read ∷ []) (sent ∷ []) (Err (BadLine 2)) }
    ensures bad_at_once { ScriptRuns (codes "tick x\n") Open [] (Err (BadLine 1)) }

    // A line of 4,097 octets is too long before its line feed is read.
    ensures too_long { ScriptRuns (replicate 4097 35) Open [] (Err (LineTooLong 1)) }

    // The last line may lack its line feed. If reading failed, it is not a line.
    ensures without_feed { ScriptRuns (codes "tick 5") AtEnd [] (ended 1) }
    ensures cut { ScriptRuns (codes "tick x") Failed [] (Err ReadFailed) }
{}

// Lines without effect. A remark begins with # (35), after spaces and tabs (9). A line without words is blank.
#[tactic(auto, unfolding(crate::proofs::Computed::computed))]
fn examples_of_nothing()
    ensures remark { said false (codes "# x") ≡ Ok Remark }
    ensures after_a_space { said false (codes " # x") ≡ Ok Remark }
    ensures after_a_tab { said false (9 ∷ 35 ∷ []) ≡ Ok Remark }
    ensures empty { said false (10 ∷ []) ≡ Ok Blank }
    ensures blank { said false (codes " \t\r\n") ≡ Ok Blank }
    ensures after_a_word { said false (codes "x #") ≡ Err Bad }
{}

// Scripts that are alike, and the limit of reads.
#[tactic(none)]
fn examples_of_limits()
    ensures reads { most_reads ≡ 4294967295 }
    ensures front { IsFrontOf (1 ∷ []) (1 ∷ 2 ∷ []) }
    ensures no_front { IsFrontOf (2 ∷ []) (1 ∷ 2 ∷ []) → ⊥ }
    ensures written { IsWrittenOf (1 ∷ 2 ∷ []) (1 ∷ 2 ∷ []) (ended 2) }
    ensures cut_off { IsWrittenOf (1 ∷ []) (1 ∷ 2 ∷ []) (Err WriteFailed) }
    ensures not_written { IsWrittenOf (1 ∷ []) (1 ∷ 2 ∷ []) (ended 2) → ⊥ }
    ensures alike { AreAlike (1 ∷ []) (Err WriteFailed) (1 ∷ 2 ∷ []) (ended 2) }
    ensures unlike { AreAlike (1 ∷ []) (ended 2) (1 ∷ 2 ∷ []) (ended 2) → ⊥ }
    ensures other_unlike { AreAlike (1 ∷ 2 ∷ []) (ended 2) (1 ∷ 3 ∷ []) (ended 2) → ⊥ }
    ensures ended_otherwise { AreAlike [] (ended 1) [] (ended 2) → ⊥ }
{}

// The octets of two readers, the state of a reader, and the octets that were taken from it.
#[tactic(none)]
fn examples_of_readers()
    ensures same { GaveSame (gave (1 ∷ [])) (gave (1 ∷ [])) }
    ensures other { GaveSame (gave (1 ∷ [])) (gave (2 ∷ [])) → ⊥ }
    ensures other_end { GaveSame (gave []) unasked → ⊥ }
    ensures front { GaveFront (gave (1 ∷ [])) (gave (1 ∷ 2 ∷ [])) }
    ensures no_front { GaveFront (gave (2 ∷ [])) (gave (1 ∷ 2 ∷ [])) → ⊥ }
    ensures front_to_end { GaveFront (gave []) (gave (1 ∷ 2 ∷ [])) → ⊥ }
    ensures few { ReadsNoMore unasked (has_read 4294967295) }
    ensures many { ReadsNoMore unasked (has_read 4294967296) → ⊥ }
    ensures going { ReaderStands unknown Open unasked (gave (1 ∷ [])) (2 ∷ []) }
    ensures not_going { ReaderStands unknown Open unasked (gave []) [] → ⊥ }
    ensures at_end { ReaderStands unknown AtEnd unasked (gave []) [] }
    ensures not_at_end { ReaderStands unknown AtEnd unasked (gave (1 ∷ [])) [] → ⊥ }
    ensures held_at_end { ReaderStands unknown AtEnd unasked (gave []) (1 ∷ []) → ⊥ }
    ensures failed { ReaderStands unknown Failed unasked broken [] }
    ensures not_failed { ReaderStands unknown Failed unasked (gave (1 ∷ [])) [] → ⊥ }
    ensures taken { TakesAndKeeps unknown unasked (gave (1 ∷ 2 ∷ [])) [] (2 ∷ []) (1 ∷ []) }
    ensures dropped { TakesAndKeeps unknown unasked (gave (1 ∷ 2 ∷ [])) [] [] (1 ∷ []) → ⊥ }
    ensures not_given { TakesAndKeeps unknown unasked (gave (1 ∷ 2 ∷ [])) [] (3 ∷ []) (1 ∷ []) → ⊥ }
{}

// When a reader is read for the next line, and which line is next.
#[tactic(none)]
fn examples_of_lines()
    ensures read_on { ReadForLine unasked (gave (1 ∷ [])) (page []) (page []) (2 ∷ []) (2 ∷ 1 ∷ []) }
    ensures unread { ReadForLine unasked unasked (page (1 ∷ [])) (page (1 ∷ [])) (2 ∷ []) (2 ∷ []) }
    ensures before_print { ReadForLine unasked (gave (1 ∷ [])) (page (3 ∷ [])) (page (3 ∷ [])) (2 ∷ []) (2 ∷ 1 ∷ [])
        → ⊥ }
    ensures in_vain { ReadForLine unasked (gave (1 ∷ [])) (page []) (page []) (10 ∷ []) (10 ∷ 1 ∷ []) → ⊥ }
    ensures next { IsNext unknown unasked unasked (7 ∷ 10 ∷ 8 ∷ []) Open 2 }
    ensures no_feed { IsNext unknown unasked unasked (7 ∷ 10 ∷ 8 ∷ []) Open 1 → ⊥ }
    ensures not_held { IsNext unknown unasked unasked (10 ∷ []) Open 2 → ⊥ }
    ensures after_a_fault { IsNext unknown unasked broken (7 ∷ 10 ∷ 8 ∷ []) Open 2 → ⊥ }
    ensures rest { IsNext unknown unasked (gave []) (7 ∷ []) AtEnd 1 }
    ensures feed_left { IsNext unknown unasked (gave []) (10 ∷ []) AtEnd 1 → ⊥ }

    // The requests that a script asks for: this one is asked for by its second event.
    ensures requests { requests_in (Happens (Tick 5) ∷ Happens (Ask desk 12 []) ∷ [])
        ≡ record { position = 1; request = request_of (client_rules 3000 3) 0 desk 12 [] 1 } ∷ [] }
{}

// Whole runs: of an empty script, and of a bad line.
#[tactic(none)]
fn examples_of_traces()
    ensures empty { Traces unknown unknown unasked (gave []) unasked unasked (ended 0) }
    ensures counted { Traces unknown unknown unasked (gave []) unasked unasked (ended 1) → ⊥ }
    ensures printed { Traces unknown unknown unasked (gave []) unasked (having (1 ∷ [])) (ended 0) → ⊥ }
    ensures unread { Traces unknown unknown unasked unasked unasked unasked (ended 0) → ⊥ }
    ensures bad { Traces unknown unknown unasked (gave (120 ∷ 10 ∷ [])) unasked unasked (Err (BadLine 1)) }
    ensures untold { Traces unknown unknown unasked (gave (120 ∷ 10 ∷ [])) unasked unasked (ended 1) → ⊥ }

    // A request is in the first of two reads, and the writer fails. The request's text is written before the second
    // read.
    ensures out_first { Traces unknown unknown unasked (gave_more (lined (read ∷ []))) unasked
        (full_after (lined (sent ∷ []))) (Err WriteFailed) }
    ensures read_too_soon { Traces unknown unknown unasked (gave_more (lined (read ∷ []))) unasked (refusing 1)
        (Err WriteFailed) → ⊥ }
{}
