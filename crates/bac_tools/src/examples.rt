//! Examples of runs of the program and of its statuses. They show what the definitions mean.

ghost use Rattle.std.specs.declared.io.{Error.Error, ErrorKind.TheVariants.{NotFound, OutOfMemory}};
ghost use Rattle.std.specs.{declared.{string.String.String, vec.IntoIter.IntoIter}, IoError.error_kind};
ghost use Rattle.std.specs.Prelude.{[], codes, Err, false, List, None, Ok, Some, suc, true, ℕ, ◌∷◌, ◌≡◌};
ghost use Rattle.std.specs.{String.string_bytes, Vec.Iter.into_iter_items};
ghost use Rattle.{clap.specs.Words.Text, bac_links.specs.{Bind, Timed, declared.exit.Exit.TheVariants.{Bad, Good}}};
ghost use Rattle.bac_links.specs.{declared.fault.ToolFault.TheVariants.SendFailed, SystemCall.Limit};
ghost use Rattle.bac_links.specs.declared.udp.OnRefusal.TheVariants.{Fails};
ghost use Rattle.bac_script.specs.declared.tracing.TraceFault.TheVariants.{BadLine, ReadFailed};
ghost use Rattle.bac_text.specs.declared.jobs.Search.{Search};
ghost use Rattle.bac_tools.specs.{AreAlike, AreGivenAlike, asked_by, AskForScript, AsksAtMostOnce, BatchRuns};
ghost use Rattle.bac_tools.specs.{CalledRun, EndAlike, fault_status, GiveNoJob, GivesSockets, IsLost, IsPrinted};
ghost use Rattle.bac_tools.specs.{IsRun, IsStatusOf, IsTold, Link, Memory, on_error, on_output, once_given, Only};
ghost use Rattle.bac_tools.specs.{ProgramRun, ReceiveFailed, report_of, Run, run_status_of, RunsAsCalls, RunsUnasked};
ghost use Rattle.bac_tools.specs.{RunsWithout, Script, ScriptCalled, status_of, texts_of, ToolRuns, Trace};
ghost use Rattle.bac_tools.specs.{trace_status_of, Usage, usage_status_of, Use, WhoIs};
ghost use Rattle.bac_tools.specs.declared.report.Fault.TheVariants.{NoText};
ghost use Rattle.bac_tools.specs.Inner.{any_at, asked_so, bad_read_words, bad_words, batch_of, deaf, deaf_calls};
ghost use Rattle.bac_tools.specs.Inner.{device, device_words, ran_in_vain, script_words};
ghost use Rattle.bac_tools.specs.Inner.{drained, FailsAfter, forgotten, gives_any, gives_none, GivesThat, having};
ghost use Rattle.bac_tools.specs.Inner.{loopback, no_bind, no_contents, no_socket, no_text, not_received};
ghost use Rattle.bac_tools.specs.Inner.{empty_journal, nothing_asked, one_bind, one_time, one_wait, ran_without};
ghost use Rattle.bac_tools.specs.Inner.{read_to_end, told_failed, told_no_socket, told_no_text, unasked, unknown};
ghost use Rattle.bac_tools.specs.Inner.{well};
ghost use Rattle.{bac_print.specs.octets_of, bac_tools.specs.{Outside.Outside, Program.Program}};
ghost use Rattle.bac_words.specs.{Called.tool_named, declared.faults.UsageFault.TheVariants.{BadIndex, BadMac}};
ghost use Rattle.bac_words.specs.Telling.{Line};
ghost use Rattle.bac_tools.specs.declared.report.Fault.TheVariants as faults;

// Two runs that had no memory for their words asked for nothing, so their sockets were answered alike and they are
// alike. They did not ask the time.
fn examples_of_runs()
    ensures given { AreGivenAlike forgotten forgotten [] [] [] [] }
    ensures not_given { AreGivenAlike forgotten forgotten one_time [] [] [] → ⊥ }
    ensures given_more { AreGivenAlike forgotten forgotten [] [] [] one_time → ⊥ }
    ensures alike { AreAlike forgotten forgotten [] [] [] [] }
    ensures not_alike { AreAlike forgotten forgotten one_time [] [] [] → ⊥ }

    // Two runs that made as many calls, but other calls, are not alike. Two runs whose first answers are the same and
    // whose second answers differ were not answered alike.
    ensures asked_otherwise { AreAlike forgotten forgotten one_time [] one_wait [] → ⊥ }
    ensures goes_on_otherwise { AreAlike forgotten forgotten [] one_time [] one_wait → ⊥ }
    ensures answered_otherwise { (out : Outside ℕ ℕ ℕ ℕ) (words : List Text)
        (one other : ProgramRun gives_any out words)
        → AreGivenAlike one other (Timed 0 ∷ Timed 1 ∷ []) [] (Timed 0 ∷ Timed 2 ∷ []) [] → ⊥ }
    ensures gained_otherwise { (out : Outside ℕ ℕ ℕ ℕ) (words : List Text) (run : ProgramRun gives_any out words)
        → run.program.opened ≡ Some (Ok 0) → run.ran.socket ≡ Some (Ok 1) → (out.seen 0).history ≡ []
        → (out.seen 1).history ≡ one_time → run.gained ≡ one_wait → ⊥ }
    ensures read_otherwise { (out : Outside ℕ ℕ ℕ ℕ) (words : List Text) (one other : ProgramRun gives_any out words)
        → octets_of one.reader' ≡ 1 ∷ [] → octets_of other.reader' ≡ 2 ∷ [] → AreGivenAlike one other [] [] [] [] → ⊥ }
    ensures one_socket { (out : Outside ℕ ℕ ℕ ℕ) (words : List Text) (one other : ProgramRun gives_any out words)
        (none : ℕ) → one.program.opened ≡ Some (Ok 0) → other.program.opened ≡ Some (Err none)
        → AreGivenAlike one other [] [] [] [] → ⊥ }

    // Two runs that report two different faults with one status did not end alike.
    ensures same_end { EndAlike forgotten forgotten no_text no_text }
    ensures other_end { (out : Outside ℕ ℕ ℕ ℕ) (words : List Text) (one other : ProgramRun gives_any out words)
        → one.program.answer ≡ Err BadMac
        → EndAlike one other (report_of (Usage BadMac)) (report_of (Usage BadIndex)) → ⊥ }

    // A run printed the whole text, or its beginning if the run was cut off; it did not print another text of that
    // length.
    ensures printed { IsPrinted (1 ∷ 2 ∷ []) (1 ∷ 2 ∷ []) no_text }
    ensures printed_other { IsPrinted (1 ∷ 3 ∷ []) (1 ∷ 2 ∷ []) no_text → ⊥ }
    ensures printed_less { IsPrinted (1 ∷ []) (1 ∷ 2 ∷ []) no_text → ⊥ }
    ensures cut_off { IsPrinted (1 ∷ []) (1 ∷ 2 ∷ []) (report_of (Usage Memory)) }
    ensures cut_off_otherwise { IsPrinted (2 ∷ []) (1 ∷ 2 ∷ []) (report_of (Usage Memory)) → ⊥ }
{}

// Words that ask for a script, or give no job; and the text of a script.
fn examples_of_scripts()
    ensures script { (program : Text) → tool_named program ≡ Some (codes "bactrace")
        → AskForScript (Ok (program ∷ [])) }
    ensures no_script { (program : Text) → tool_named program ≡ Some (codes "bacdev")
        → AskForScript (Ok (program ∷ codes "1234" ∷ [])) → ⊥ }
    ensures no_words { AskForScript (Err NotFound) → ⊥ }

    // Bad words give their first fault, and no other fault with the same status. Words with a job give no fault, and
    // neither does an empty command line.
    ensures no_job { (program : Text) → tool_named program ≡ Some (codes "bacrp")
        → GiveNoJob (Ok (program ∷ bad_words)) (report_of (Usage BadMac)) }
    ensures other_fault { (program : Text) → tool_named program ≡ Some (codes "bacrp")
        → GiveNoJob (Ok (program ∷ bad_words)) (report_of (Usage BadIndex)) → ⊥ }
    ensures job { (program : Text) → tool_named program ≡ Some (codes "bacdev")
        → GiveNoJob (Ok (program ∷ codes "1234" ∷ [])) (report_of (Usage BadMac)) → ⊥ }
    ensures unread { GiveNoJob (Err NotFound) no_text }
    ensures unread_otherwise { GiveNoJob (Err NotFound) (report_of (Usage BadMac)) → ⊥ }

    // An empty script prints nothing, and ends well.
    ensures called { ScriptCalled no_contents no_contents unasked drained unasked unasked well }
    ensures prints { ScriptCalled no_contents no_contents unasked drained unasked (having (codes "x")) well → ⊥ }
    ensures reports { ScriptCalled no_contents no_contents unasked drained unasked unasked no_text → ⊥ }
{}

// The status of each end, of a fault, and without a fault.
fn examples_of_statuses()
    ensures good_end { status_of (Ok Good) ≡ 0 }
    ensures bad_end { status_of (Ok Bad) ≡ 1 }
    ensures unsent { status_of (Err SendFailed) ≡ 3 }
    ensures whole { trace_status_of (Ok (record { lines = 2 })) ≡ 0 }
    ensures bad_line { trace_status_of (Err (BadLine 2)) ≡ 2 }
    ensures unread { trace_status_of (Err ReadFailed) ≡ 3 }
    ensures made { run_status_of (Ok (record { lines = 2 })) ≡ 0 }
    ensures bad_request { run_status_of (Err (Script (BadLine 2))) ≡ 2 }
    ensures broken { run_status_of (Err (Link SendFailed)) ≡ 3 }
    ensures no_memory { usage_status_of Memory ≡ 4 }
    ensures bad_words { usage_status_of BadMac ≡ 2 }
    ensures no_socket { fault_status (faults.Link (record {})) ≡ 3 }
    ensures good { IsStatusOf None 0 }
    ensures bad { IsStatusOf None 1 }
    ensures no_fault { IsStatusOf None 2 → ⊥ }
    ensures no_text { IsStatusOf (Some NoText) 2 }
    ensures other_status { IsStatusOf (Some NoText) 3 → ⊥ }

    // A fault is reported on standard error, and not on standard output.
    ensures unprinted { on_output (Some NoText) ≡ None }
    ensures told { on_error (Some NoText) ≡ Some (Line (codes "words that are not UTF-8")) }
    ensures kept { once_given (Some NoText) true (report_of NoText) ≡ report_of NoText }
{}

// The program if the system gives no words.
fn examples_of_no_words()
    // The report has this fault, and its message is on standard error.
    ensures run { IsRun gives_none unknown no_contents 0 unasked unasked unasked unasked unasked told_no_text
        (ran_without no_text (Some 0)) (Err NotFound) }
    ensures untold { IsRun gives_none unknown no_contents 0 unasked unasked unasked unasked unasked unasked
        (ran_without no_text (Some 0)) (Err NotFound) → ⊥ }
    ensures printed { IsRun gives_none unknown no_contents 0 unasked unasked unasked told_no_text unasked told_no_text
        (ran_without no_text (Some 0)) (Err NotFound) → ⊥ }
    ensures no_memory { IsRun gives_none unknown no_contents 0 unasked unasked unasked unasked unasked told_no_text
        (ran_without no_text (Some 0)) (Err OutOfMemory) → ⊥ }
    ensures reported { IsRun gives_none unknown no_contents 0 unasked unasked unasked unasked unasked told_no_socket
        (ran_without no_socket (Some 0)) (Err NotFound) → ⊥ }
    ensures called { CalledRun gives_none unknown no_contents (Err NotFound) }
    ensures otherwise { (run : CalledRun gives_none unknown no_contents (Err NotFound)) → run.ran.report ≡ no_socket
        → ⊥ }

    // The network was not asked for a socket.
    ensures no_call { RunsUnasked no_contents no_contents no_contents 0 unasked unasked unasked unasked unasked
        told_no_text (ran_without no_text (Some 0)) (Err NotFound) }
    ensures other_network { RunsUnasked no_contents no_contents no_contents 0 unasked unasked unasked unasked unasked
        told_no_text (ran_without no_text (Some 1)) (Err NotFound) → ⊥ }
    ensures other_report { RunsUnasked no_contents no_contents no_contents 0 unasked unasked unasked unasked unasked
        told_no_socket (ran_without no_socket (Some 0)) (Err NotFound) → ⊥ }
    ensures untold_call { RunsUnasked no_contents no_contents no_contents 0 unasked unasked unasked unasked unasked
        unasked (ran_without no_text (Some 0)) (Err NotFound) → ⊥ }

    // Nothing was done except this report.
    ensures only { Only gives_none unknown 0 unasked unasked unasked unasked (ran_without no_text (Some 0)) no_text }
    ensures not_only { Only gives_none unknown 0 unasked unasked unasked told_no_text (ran_without no_text (Some 0))
        no_text → ⊥ }

    // If there is no memory for the words, the report says so.
    ensures lacked { Program gives_none unknown 0 unasked unasked unasked unasked
        (ran_without (report_of (Usage Memory)) (Some 0)) [] }
    ensures lacked_otherwise { Program gives_none unknown 0 unasked unasked unasked unasked
        (ran_without no_text (Some 0)) [] → ⊥ }
    ensures no_run { (run : ProgramRun gives_none unknown []) → run.ran.report ≡ no_text → ⊥ }

    // The whole line is printed; without a line nothing is printed.
    ensures told { IsTold no_contents unasked (having (codes "bactool: x\n")) (Some (Line (codes "x"))) }
    ensures not_told { IsTold no_contents unasked unasked (Some (Line (codes "x"))) → ⊥ }
    ensures nothing { IsTold no_contents unasked unasked None }
    ensures too_much { IsTold no_contents unasked (having (codes "x")) None → ⊥ }
{}

// The program with words of a script, of a read and of a device.
fn examples_of_programs()
    // A script without lines asks for no socket, so this network, and no other, is handed back.
    ensures scripted { Program gives_none unknown 0 unasked drained unasked unasked (ran_without well (Some 0))
        script_words }
    ensures network_changed { Program gives_none unknown 0 unasked drained unasked unasked (ran_without well (Some 1))
        script_words → ⊥ }

    // The first fault of these words is reported, and no other with the same status.
    ensures misread { Program gives_none unknown 0 unasked unasked unasked unasked
        (ran_without (report_of (Usage BadMac)) (Some 0)) bad_read_words }
    ensures misread_otherwise { Program gives_none unknown 0 unasked unasked unasked unasked
        (ran_without (report_of (Usage BadIndex)) (Some 0)) bad_read_words → ⊥ }

    // A device asks its network for a socket. There is none, and the network's reason is handed back.
    ensures refused { Program (FailsAfter []) unknown 0 unasked unasked unasked unasked (ran_in_vain 0) device_words }
    ensures refused_by_another { Program (FailsAfter []) unknown 0 unasked unasked unasked unasked (ran_in_vain 1)
        device_words → ⊥ }
{}

// A device whose first wait fails, its calls of the system, and its calls if there is no socket.
fn examples_of_a_device()
    ensures runs { ToolRuns no_contents unasked unasked (asked_so []) (asked_so deaf) (Err ReceiveFailed) device }
    ensures other_fault { ToolRuns no_contents unasked unasked (asked_so []) (asked_so deaf) (Err SendFailed) device
        → ⊥ }
    ensures not_asked { ToolRuns no_contents unasked unasked (asked_so []) (asked_so []) (Err ReceiveFailed)
        device → ⊥ }
    ensures prints { ToolRuns no_contents unasked (having (codes "x")) (asked_so []) (asked_so deaf)
        (Err ReceiveFailed) device → ⊥ }

    ensures calls { RunsAsCalls ℕ no_contents no_contents no_contents unasked unasked unasked unasked unasked
        told_failed not_received device_words deaf_calls }
    ensures unbound { RunsAsCalls ℕ no_contents no_contents no_contents unasked unasked unasked unasked unasked
        told_failed not_received device_words (Limit 1000000000 false ∷ []) → ⊥ }
    ensures no_words { RunsAsCalls ℕ no_contents no_contents no_contents unasked unasked unasked unasked unasked
        told_failed not_received [] deaf_calls → ⊥ }
    ensures at_other_address { RunsAsCalls ℕ no_contents no_contents no_contents unasked unasked unasked unasked unasked
        told_failed not_received device_words (Bind loopback ∷ Limit 1000000000 false ∷ []) → ⊥ }
    ensures untold { RunsAsCalls ℕ no_contents no_contents no_contents unasked unasked unasked unasked unasked
        unasked not_received device_words deaf_calls → ⊥ }
    ensures at_other_port { RunsAsCalls ℕ no_contents no_contents no_contents unasked unasked unasked unasked unasked
        told_failed not_received device_words (Bind (any_at 47809) ∷ Limit 1000000000 false ∷ []) → ⊥ }
    ensures prints_more { RunsAsCalls ℕ no_contents no_contents no_contents unasked unasked unasked (having (codes "x"))
        unasked told_failed not_received device_words deaf_calls → ⊥ }

    ensures without { RunsWithout {N = ℕ} no_contents 0 0 unasked unasked unasked unasked unasked told_no_socket
        no_socket device_words (Bind (any_at 47808) ∷ []) }
    ensures bound_twice { RunsWithout {N = ℕ} no_contents 0 0 unasked unasked unasked unasked unasked told_no_socket
        no_socket device_words (Bind (any_at 47808) ∷ Bind (any_at 47808) ∷ []) → ⊥ }
    ensures printed { RunsWithout {N = ℕ} no_contents 0 0 unasked unasked unasked (having (codes "x")) unasked
        told_no_socket no_socket device_words [] → ⊥ }
    ensures used { RunsWithout {N = ℕ} no_contents 0 1 unasked unasked unasked unasked unasked told_no_socket
        no_socket device_words [] → ⊥ }
    ensures received { RunsWithout {N = ℕ} no_contents 0 0 unasked unasked unasked unasked unasked told_failed
        not_received device_words [] → ⊥ }
    ensures without_other_port { RunsWithout {N = ℕ} no_contents 0 0 unasked unasked unasked unasked unasked
        told_no_socket no_socket device_words (Bind (any_at 47809) ∷ []) → ⊥ }
    ensures reads_without { RunsWithout {N = ℕ} no_contents 0 0 unasked drained unasked unasked unasked told_no_socket
        no_socket device_words [] → ⊥ }
    ensures untold_without { RunsWithout {N = ℕ} no_contents 0 0 unasked unasked unasked unasked unasked unasked
        no_socket device_words [] → ⊥ }
    ensures without_words { RunsWithout {N = ℕ} no_contents 0 0 unasked unasked unasked unasked unasked told_no_socket
        no_socket [] [] → ⊥ }
{}

// The calls of the system that networks make.
fn examples_of_networks()
    ensures gives { GivesSockets GivesThat nothing_asked one_bind }
    ensures gives_unasked { GivesSockets GivesThat nothing_asked no_bind → ⊥ }
    ensures asks_first { GivesSockets GivesThat (λ (link : ℕ). asked_so deaf) one_bind → ⊥ }
    ensures once { AsksAtMostOnce (FailsAfter []) (λ none. none.kept) (λ none. none.log) }
    ensures twice { AsksAtMostOnce (FailsAfter (Bind (any_at 47808) ∷ Bind (any_at 47808) ∷ [])) (λ none. none.kept)
        (λ none. none.log) → ⊥ }
    ensures not_kept { AsksAtMostOnce (FailsAfter []) (λ none. suc none.kept) (λ none. none.log) → ⊥ }
{}

// The sockets that jobs ask for. Those of many requests and of a device count a refused datagram as lost.
fn examples_of_sockets()
    ensures many { asked_by (Run (batch_of 3000))
        ≡ Some (record { at = record { ip = 0; port = 0; route = None }; refused = IsLost }) }
    ensures device { asked_by (Use device)
        ≡ Some (record { at = record { ip = 0; port = 47808; route = None }; refused = IsLost }) }
    ensures search { (search : Search) → asked_by (Use (WhoIs search))
        ≡ Some (record { at = record { ip = 0; port = search.port; route = None }; refused = Fails }) }
    ensures script { asked_by Trace ≡ None }
{}

// A run without requests: the settings are printed, and the link is not used.
fn examples_of_many_requests()
    ensures none { BatchRuns no_contents no_contents (batch_of 3000) unasked drained unasked empty_journal (asked_so [])
        (asked_so []) (read_to_end 0) }
    ensures counted { BatchRuns no_contents no_contents (batch_of 3000) unasked drained unasked empty_journal
        (asked_so []) (asked_so []) (read_to_end 1) → ⊥ }
    ensures no_timeout { BatchRuns no_contents no_contents (batch_of 0) unasked drained unasked empty_journal
        (asked_so []) (asked_so []) (read_to_end 0) → ⊥ }

    // The words that the system gives, or why it gives none.
    ensures unread { (error : Error) → error_kind error ≡ NotFound → texts_of {Z = ℕ} (Err error) ≡ Err NotFound }
    ensures read { (words : IntoIter (String ℕ) ℕ) (word : String ℕ) → into_iter_items words ≡ word ∷ []
        → texts_of (Ok words) ≡ Ok (string_bytes word ∷ []) }
{}
