//! Examples of links and tools, worked out by computation. They show what the definitions mean.

ghost use Rattle.std.specs.declared.io.ErrorKind.TheVariants.{TimedOut, WouldBlock};
ghost use Rattle.std.specs.Prelude.{[], codes, Err, false, None, Ok, Some, true, ℕ, ◌∷◌, ◌≡◌};
ghost use Rattle.bac_print.specs.Inner.Examples.{having, unasked, unknown};
ghost use Rattle.bac_links.specs.{account_over, account_with, AllSent, answers_of, ArePrompt, AreTold, arrivals_in};
ghost use Rattle.bac_links.specs.{Arrived, AskAlike, AtOnce, Bind, Binds, BindsAtMost, Elapsed, endless, Fails};
ghost use Rattle.bac_links.specs.{Failure, Gains, heard_by, is_link_fault, is_write_fault, IsAccepted, Limit};
ghost use Rattle.bac_links.specs.{link_fault_text, Logs, LogsHistory, longest_datagram, most_looks, most_turns};
ghost use Rattle.bac_links.specs.{Offered, OneText, PlaysItsScenes, Posted, posted, question_of, Receive};
ghost use Rattle.bac_links.specs.{ReceiveFailed, Searched, SendFailed, Sends, sends_of_call, SendTo, sent_at, sent_by};
ghost use Rattle.bac_links.specs.{sent_in, Serves, Silence, Tells, Timed, Times, tool_fault_text, turn_wait};
ghost use Rattle.bac_links.specs.{TurnsSpent, Unposted, Waited, Waits, waits_in, who_is_to, WriteFailed, Writing};
ghost use Rattle.bac_links.specs.{Inner.answered, declared.udp.OnRefusal.TheVariants.IsLost};
ghost use Rattle.bac_links.specs.Inner.{asked_so, AsksInVain, AsksTime, bad, broken, call, deaf, desk, device, good};
ghost use Rattle.bac_links.specs.Inner.{IsNothing, local, long_came, looking, lost, waiting};
ghost use Rattle.bac_tsm.specs.{Ask, Tick};
ghost use Rattle.bac_links.specs.Inner.{nobody, NoCut, once_asked, one_step, quiet_link, Same, search, SendsOnly};
ghost use Rattle.bac_links.specs.Inner.{steady, to_desk, twice_asked, unsearched, unsent, unwritten, write};

// The times of a clock, and how long waits take by it.
fn examples_of_time()
    // After one wait the clock shows 50.
    ensures told { AreTold steady 0 (Timed 0 ∷ Waited 50 Silence ∷ Timed 50 ∷ []) }
    ensures told_otherwise { AreTold steady 0 (Timed 0 ∷ Waited 50 Silence ∷ Timed 49 ∷ []) → ⊥ }
    ensures prompt { ArePrompt steady 50 3 }
    ensures late { ArePrompt steady 49 1 → ⊥ }
    ensures unasked { ArePrompt steady 49 0 }
    ensures waits { waits_in (Timed 0 ∷ Waited 50 Silence ∷ Timed 50 ∷ Waited 50 Silence ∷ []) ≡ 2 }

    // The limits of tools.
    ensures wait { turn_wait 3000 ≡ 50 }
    ensures short_wait { turn_wait 20 ≡ 20 }
    ensures turns { most_turns ≡ 65536 }
    ensures longest { longest_datagram ≡ 2047 }
{}

// The received and sent datagrams in the entries of a history.
fn examples_of_entries()
    // A send that failed is not counted.
    ensures sent { sent_in (Posted desk (1 ∷ []) ∷ Timed 0 ∷ Unposted desk (2 ∷ []) ∷ Posted desk (3 ∷ []) ∷ [])
        ≡ (desk, 1 ∷ []) ∷ (desk, 3 ∷ []) ∷ [] }
    ensures all { AllSent {D = ℕ} (1 ∷ 2 ∷ []) (1 ∷ 2 ∷ []) good }
    ensures one_less { AllSent {D = ℕ} (1 ∷ 2 ∷ []) (1 ∷ []) good → ⊥ }
    ensures other_sent { AllSent {D = ℕ} (1 ∷ 2 ∷ []) (1 ∷ 3 ∷ []) good → ⊥ }
    ensures lost { AllSent {D = ℕ} (1 ∷ 2 ∷ []) (1 ∷ []) unsent }
    ensures other_lost { AllSent {D = ℕ} (1 ∷ 2 ∷ []) (3 ∷ []) unsent → ⊥ }
    ensures none_lost { AllSent {D = ℕ} (1 ∷ 2 ∷ []) (1 ∷ 2 ∷ []) unsent → ⊥ }
    ensures two_lost { AllSent {D = ℕ} (1 ∷ 2 ∷ []) [] unsent → ⊥ }
    ensures came { arrivals_in (Waited 1000 Silence ∷ Waited 1000 (Arrived desk (7 ∷ [])) ∷ Waited 1000 Failure ∷ [])
        ≡ record { from = desk; datagram = 7 ∷ [] } ∷ [] }
    ensures quiet { heard_by nobody (7 ∷ []) ≡ Silence }
    ensures broke { heard_by broken (7 ∷ []) ≡ Failure }
    ensures posts { posted good desk [] ≡ Posted desk [] }
    ensures posts_not { posted unsent desk [] ≡ Unposted desk [] }

    // An offered datagram was sent if it was taken. Whether it was taken is the answer to one question.
    ensures offered { sent_in (Offered desk (1 ∷ []) true ∷ Offered desk (2 ∷ []) false ∷ Posted desk (3 ∷ []) ∷ [])
        ≡ (desk, 1 ∷ []) ∷ (desk, 3 ∷ []) ∷ [] }
    ensures asks_alike { question_of (Offered desk [] true) ≡ question_of (Offered desk [] false) }
    ensures asks_another { question_of (Offered desk [] true) ≡ question_of (Posted desk []) → ⊥ }
    ensures asks_others { question_of (Offered desk [] true) ≡ question_of (Offered desk (1 ∷ []) true) → ⊥ }
    ensures answered_otherwise { answers_of (Offered desk [] true ∷ []) ≡ answers_of (Offered desk [] false ∷ []) → ⊥ }

    // A history gains one entry, and nothing else.
    ensures gained { Gains (Timed 5) (quiet_link []) (quiet_link (Timed 5 ∷ [])) }
    ensures other_gained { Gains (Timed 5) (quiet_link []) (quiet_link (Timed 6 ∷ [])) → ⊥ }
    ensures not_gained { Gains (Timed 5) (quiet_link []) (quiet_link []) → ⊥ }

    // The first wait plays the first scene, and the clock then shows its time; the send has that time too.
    ensures played { PlaysItsScenes (quiet_link (Waited 50 Silence ∷ Timed 5 ∷ [])) }
    ensures other_time { PlaysItsScenes (quiet_link (Waited 50 Silence ∷ Timed 6 ∷ [])) → ⊥ }
    ensures other_heard { PlaysItsScenes (quiet_link (Waited 50 Failure ∷ [])) → ⊥ }
    ensures sent_then { sent_by (quiet_link (Waited 50 Silence ∷ Posted desk [] ∷ []))
        ≡ record { time = 5; to = desk; octets = [] } ∷ [] }
    ensures offered_then { sent_by (quiet_link (Offered desk [] false ∷ Waited 50 Silence ∷ Offered desk [] true ∷ []))
        ≡ record { time = 5; to = desk; octets = [] } ∷ [] }

    // A scene is a step of the link.
    ensures step { account_with one_step [] ≡ quiet_link [] }

    // A log has the calls that were made, and no others. If the clock fails, the time does not change.
    ensures nothing { Logs IsNothing [] [] }
    ensures something { Logs IsNothing [] (Elapsed None ∷ []) → ⊥ }
    ensures log_changed { Logs IsNothing (Elapsed None ∷ []) (Limit 5 false ∷ []) → ⊥ }
    ensures time { Times 5 5 (Elapsed None ∷ []) }
    ensures later { Times 5 6 (Elapsed None ∷ []) → ⊥ }
    ensures unread { Times 5 5 [] → ⊥ }
{}

// Which faults are of the link, and the message of each fault.
fn examples_of_ends()
    ensures of_link { is_link_fault unsent ≡ true }
    ensures not_of_link { is_link_fault unwritten ≡ false }
    ensures of_writer { is_write_fault unwritten ≡ true }
    ensures not_of_writer { is_write_fault unsent ≡ false }
    ensures sending { tool_fault_text SendFailed ≡ codes "sending failed" }
    ensures receiving { tool_fault_text ReceiveFailed ≡ codes "receiving failed" }
    ensures spent { tool_fault_text TurnsSpent ≡ codes "turns spent" }
    ensures writing { tool_fault_text WriteFailed ≡ codes "writing failed" }
    ensures bind { link_fault_text ≡ codes "bind failed" }
{}

// A call: its moves, its sends, its line and its answer.
#[tactic(auto, unfolding(bac_tsm::specs::next_invoke_id, bac_tsm::specs::refusal_of, bac_pdu::specs::wrapped))]
fn examples_of_calls()
    // Its request is accepted after the first time, and at no other event.
    ensures accepted { IsAccepted Writing call once_asked }
    ensures unaccepted { IsAccepted Writing call [] → ⊥ }
    ensures twice { IsAccepted Writing call twice_asked → ⊥ }
    ensures other_service { IsAccepted Writing call (Tick 0 ∷ Ask desk 12 [] ∷ []) → ⊥ }
    ensures other_body { IsAccepted Writing call (Tick 0 ∷ Ask desk 15 (1 ∷ []) ∷ []) → ⊥ }
    ensures other_peer { IsAccepted Writing call (Tick 0 ∷ Ask (record desk { port = 47809 }) 15 [] ∷ []) → ⊥ }

    // The request is sent at the second event.
    ensures sent { sent_at Writing call answered ≡ (1, desk, write) ∷ [] }
    ensures unsent { sent_at Writing call lost ≡ [] }
    ensures due { sends_of_call Writing call answered ≡ (1, desk, write) ∷ [] }

    // After a write the line is `ok`. If the send failed, there is no line.
    ensures told { Tells Writing call unknown unasked (having (codes "ok\n")) (asked_so []) (asked_so answered) good }
    ensures told_lost { Tells Writing call unknown unasked unasked (asked_so []) (asked_so lost) (Err SendFailed) }
    ensures bad_end { Tells Writing call unknown unasked (having (codes "ok\n")) (asked_so []) (asked_so answered) bad
        → ⊥ }
    ensures untold { Tells Writing call unknown unasked unasked (asked_so []) (asked_so answered) good → ⊥ }
    ensures early { Tells Writing call unknown unasked unasked (asked_so []) (asked_so []) (Err SendFailed) → ⊥ }
    ensures no_loss { Tells Writing call unknown unasked unasked (asked_so []) (asked_so answered) (Err SendFailed)
        → ⊥ }
    ensures unwritten { Tells Writing call unknown unasked unasked (asked_so []) (asked_so lost) unwritten → ⊥ }
{}

// A search: its moves, its lines and its answer; and the end of a server.
#[tactic(auto, unfolding(bac_pdu::specs::wrapped))]
fn examples_of_searches_and_servers()
    ensures who_is { who_is_to search ≡ 0x81 ∷ 0x0a ∷ 0x00 ∷ 0x08 ∷ 0x01 ∷ 0x00 ∷ 0x10 ∷ 0x08 ∷ [] }
    ensures searched { Searched search unknown unasked unasked (asked_so []) (asked_so unsearched) unsent }
    ensures not_asked { Searched search unknown unasked unasked (asked_so []) (asked_so []) unsent → ⊥ }
    ensures found { Searched search unknown unasked unasked (asked_so []) (asked_so unsearched) good → ⊥ }
    ensures printed { Searched search unknown unasked (having (1 ∷ [])) (asked_so []) (asked_so unsearched) unsent
        → ⊥ }
    ensures cut_off { Searched search unknown unasked unasked (asked_so []) (asked_so unsearched) unwritten → ⊥ }

    // A server whose first wait fails leaves the device as it was.
    ensures served { Serves 1 (device 7) (device 7) (asked_so []) (asked_so deaf) (Err ReceiveFailed) }
    ensures other_device { Serves 1 (device 7) (device 8) (asked_so []) (asked_so deaf) (Err ReceiveFailed) → ⊥ }
    ensures not_served { Serves 1 (device 7) (device 7) (asked_so []) (asked_so []) (Ok 0) → ⊥ }
    ensures served_none { Serves 0 (device 7) (device 7) (asked_so []) (asked_so []) (Ok 0) }
    ensures replied { Serves 0 (device 7) (device 7) (asked_so []) (asked_so []) (Ok 1) → ⊥ }
{}

// The calls of the system for a link over a socket.
#[tactic(auto, unfolding(std::specs::Net::Addr::ipv4_bits, std::specs::Net::Addr::IsIpv4OfBits))]
fn examples_of_sockets()
    ensures bound { Binds to_desk (Bind (local 47808) ∷ []) }
    ensures other_port { Binds to_desk (Bind (local 47809) ∷ []) → ⊥ }
    ensures not_bound { Binds to_desk [] → ⊥ }
    ensures bound_once { BindsAtMost to_desk (Bind (local 47808) ∷ []) }
    ensures unbound { BindsAtMost to_desk [] }
    ensures bound_twice { BindsAtMost to_desk (Bind (local 47808) ∷ Bind (local 47808) ∷ []) → ⊥ }

    // A send is good if all octets were sent, or if a refused datagram counts as lost.
    ensures sent { Sends Fails desk (1 ∷ 2 ∷ []) true (SendTo (1 ∷ 2 ∷ []) (local 47808) (Some 2) ∷ []) }
    ensures sent_half { Sends Fails desk (1 ∷ 2 ∷ []) true (SendTo (1 ∷ 2 ∷ []) (local 47808) (Some 1) ∷ []) → ⊥ }
    ensures lost { Sends IsLost desk (1 ∷ 2 ∷ []) true (SendTo (1 ∷ 2 ∷ []) (local 47808) None ∷ []) }
    ensures sent_elsewhere { Sends Fails desk [] true (SendTo [] (local 47809) (Some 0) ∷ []) → ⊥ }
    ensures sent_other { Sends Fails desk [] true (SendTo (1 ∷ []) (local 47808) (Some 1) ∷ []) → ⊥ }
    ensures not_sent { Sends Fails desk [] true [] → ⊥ }

    // A wait of 50 milliseconds sets the limit if it was another, and receives.
    ensures waited { Waits Fails endless 50 (Arrived desk (7 ∷ []))
        (Limit 50000000 true ∷ Receive 2048 (Ok (7 ∷ [], local 47808)) ∷ []) }
    ensures waited_again { Waits Fails waiting 50 Silence (Receive 2048 (Err TimedOut) ∷ []) }
    ensures unlimited { Waits Fails endless 50 Failure (Limit 50000000 false ∷ []) }
    ensures unset { Waits Fails endless 50 Silence (Receive 2048 (Err TimedOut) ∷ []) → ⊥ }
    ensures not_heard { Waits Fails waiting 50 Silence [] → ⊥ }
    ensures other_heard { Waits Fails waiting 50 Failure (Receive 2048 (Err TimedOut) ∷ []) → ⊥ }
    ensures unset_heard { Waits Fails endless 50 Silence (Limit 50000000 false ∷ []) → ⊥ }
    ensures half_set { Waits Fails endless 50 Failure [] → ⊥ }

    // A wait of 0 ms only looks: receives return at once. A longer wait afterwards makes them wait again.
    ensures looked { Waits Fails waiting 0 Silence (AtOnce true true ∷ Receive 2048 (Err WouldBlock) ∷ []) }
    ensures looked_again { Waits Fails looking 0 Silence (Receive 2048 (Err WouldBlock) ∷ []) }
    ensures waits_again { Waits Fails looking 50 Silence (AtOnce false true ∷ Receive 2048 (Err TimedOut) ∷ []) }
    ensures refused { Waits Fails waiting 0 Failure (AtOnce true false ∷ []) }
    ensures still_waiting { Waits Fails waiting 0 Silence (Receive 2048 (Err TimedOut) ∷ []) → ⊥ }
    ensures still_looking { Waits Fails looking 50 Silence (Receive 2048 (Err WouldBlock) ∷ []) → ⊥ }

    // After a datagram that is too long, the next one is received: at most four in a wait, and 256 in a look.
    ensures passed_over { Waits Fails waiting 50 (Arrived desk (7 ∷ []))
        (long_came ∷ Receive 2048 (Ok (7 ∷ [], local 47808)) ∷ []) }
    ensures not_silence { Waits Fails waiting 50 Silence (long_came ∷ []) → ⊥ }
    ensures four { Waits Fails waiting 50 Silence (long_came ∷ long_came ∷ long_came ∷ long_came ∷ []) }
    ensures five { Waits Fails waiting 50 Silence (long_came ∷ long_came ∷ long_came ∷ long_came ∷ long_came ∷ []) → ⊥ }
    ensures heard_once { Waits Fails waiting 50 (Arrived desk (7 ∷ []))
        (Receive 2048 (Ok (7 ∷ [], local 47808)) ∷ Receive 2048 (Ok (8 ∷ [], local 47808)) ∷ []) → ⊥ }
    ensures most { most_looks 0 ≡ 256 }

    // The log of a socket has the calls for its history, after those that it made before.
    ensures logged { LogsHistory (account_over Fails (Elapsed None ∷ []) (Timed 0 ∷ []))
        (Elapsed None ∷ Elapsed None ∷ []) }
    ensures two_waits { LogsHistory (account_over Fails [] (Waited 50 Silence ∷ Waited 50 Silence ∷ []))
        (Limit 50000000 true ∷ Receive 2048 (Err TimedOut) ∷ Receive 2048 (Err TimedOut) ∷ []) }
    ensures not_logged { LogsHistory (account_over Fails [] (Timed 0 ∷ [])) [] → ⊥ }
    ensures more_logged { LogsHistory (account_over Fails [] []) (Elapsed None ∷ []) → ⊥ }
    ensures other_time { LogsHistory (account_over Fails [] (Timed 5 ∷ [])) (Elapsed None ∷ []) → ⊥ }

    // After an offer that was refused the link goes on. It was not taken, even if refused datagrams count as lost.
    ensures offers { LogsHistory (account_over Fails [] (Offered desk [] false ∷ Offered desk (1 ∷ []) true ∷ []))
        (SendTo [] (local 47808) None ∷ SendTo (1 ∷ []) (local 47808) (Some 1) ∷ []) }
    ensures not_taken { LogsHistory (account_over IsLost [] (Offered desk [] true ∷ []))
        (SendTo [] (local 47808) None ∷ []) → ⊥ }
    ensures not_refused { LogsHistory (account_over Fails [] (Offered desk [] false ∷ []))
        (SendTo [] (local 47808) (Some 0) ∷ []) → ⊥ }
    ensures offered_elsewhere { LogsHistory (account_over Fails [] (Offered desk [] true ∷ []))
        (SendTo [] (local 47809) (Some 0) ∷ []) → ⊥ }
    ensures not_offered { LogsHistory (account_over Fails [] (Offered desk [] false ∷ [])) [] → ⊥ }
{}

// Two tools that do the same.
fn examples_of_tools()
    // Both tools read the time, and end with it.
    ensures alike { AskAlike ℕ ℕ AsksTime AsksTime NoCut Same Same }
    ensures other_question { AskAlike ℕ ℕ AsksTime SendsOnly NoCut Same Same → ⊥ }
    ensures other_end { AskAlike ℕ ℕ AsksTime AsksInVain NoCut Same Same → ⊥ }

    // Both printed one text; or one writer failed, and took the beginning of it.
    ensures one_text { OneText unknown unasked (having (1 ∷ 2 ∷ [])) unknown unasked (having (1 ∷ 2 ∷ [])) good
        bad }
    ensures front { OneText unknown unasked (having (1 ∷ 2 ∷ [])) unknown unasked (having (1 ∷ [])) good unwritten }
    ensures other_text { OneText unknown unasked (having (1 ∷ [])) unknown unasked (having (2 ∷ [])) good bad → ⊥ }
    ensures half { OneText unknown unasked (having (1 ∷ 2 ∷ [])) unknown unasked (having (1 ∷ [])) good bad → ⊥ }
{}
