//! Examples of what command lines order, worked out by computation. They show what the definitions mean.

ghost use Rattle.std.specs.Prelude.{[], ◌++◌, ◌∷◌, ◌≡◌, codes, decimal, false, List, true, ℕ};
ghost use Rattle.clap.specs.{Values.kind_of, declared.error.Error.Error};
ghost use Rattle.clap.specs.declared.error.kind.ErrorKind.TheVariants.{DisplayHelp, UnknownArgument};
ghost use Rattle.bac_pdu.specs.declared.discovery.WhoIs.TheVariants.{All, Range};
ghost use Rattle.bac_text.specs.{words_of, declared.pairs.PairFault.TheVariants.{Bad, TooLong}};
ghost use Rattle.bac_words.specs.{Answers, CanOpen, CanRun, is_tool, IsReady, IsRefusal, marked_words, tool_named};
ghost use Rattle.bac_words.specs.{usage_of, usage_told, words_called, Telling.Line};
ghost use Rattle.bac_words.specs.declared.faults.UsageFault.TheVariants.{BadIndex, BadMac, BadValue, BodyTooLong};
ghost use Rattle.bac_words.specs.declared.faults.UsageFault.TheVariants.{Help, Memory, Words};
ghost use Rattle.bac_words.specs.declared.job.{Batch.Batch, Job.TheVariants.{Run, Trace, Use}, Serve.Serve};
ghost use Rattle.bac_words.specs.declared.job.Tool.TheVariants.{Device, Read, WhoIs, Write};
ghost use Rattle.bac_words.specs.Inner.{at_port, IsOrdered, usual};

// The request that words ask for: its peer, its timeout and retries, and its service body.
#[tactic(none)]
fn examples_of_requests()
    // The present value (85) of analog input (0) 5.
    ensures read { IsOrdered (codes "bactool bacrp 1234 0 5 85 --mac 192.0.2.7")
        (Ok (Use (Read (usual (0x0c ∷ 0x00 ∷ 0x00 ∷ 0x00 ∷ 0x05 ∷ 0x19 ∷ 0x55 ∷ []))))) }

    // The third place of the priority array (87) of analog output (1) 1, with each option.
    ensures element { IsOrdered
        (codes "bactool bacrp 1234 1 1 87 3 --mac 192.0.2.7:47809 --apdu-timeout 500 --apdu-retries 1 --port 47810")
        (Ok (Use (Read (record {
          to = at_port 47809;
          timeout = 500;
          retries = 1;
          port = 47810;
          body = record { items = 0x0c ∷ 0x00 ∷ 0x40 ∷ 0x00 ∷ 0x01 ∷ 0x19 ∷ 0x57 ∷ 0x29 ∷ 0x03 ∷ [] };
        })))) }

    // State 3, an Unsigned (2), of multi-state output (14) 1 at priority 8; NULL (0), which relinquishes it; and -5, a
    // Signed (3), without a priority.
    ensures write { IsOrdered (codes "bactool bacwp 1234 14 1 85 8 -1 2 3 --mac 192.0.2.7")
        (Ok (Use (Write (usual (0x0c ∷ 0x03 ∷ 0x80 ∷ 0x00 ∷ 0x01 ∷ 0x19 ∷ 0x55
        ∷ 0x3e ∷ 0x21 ∷ 0x03 ∷ 0x3f ∷ 0x49 ∷ 0x08 ∷ []))))) }
    ensures relinquish { IsOrdered (codes "bactool bacwp 1234 14 1 85 8 -1 0 null --mac 192.0.2.7")
        (Ok (Use (Write (usual (0x0c ∷ 0x03 ∷ 0x80 ∷ 0x00 ∷ 0x01 ∷ 0x19 ∷ 0x55
        ∷ 0x3e ∷ 0x00 ∷ 0x3f ∷ 0x49 ∷ 0x08 ∷ []))))) }
    ensures negative { IsOrdered (codes "bactool bacwp 1234 2 2 85 0 -1 3 -5 --mac 192.0.2.7")
        (Ok (Use (Write (usual (0x0c ∷ 0x00 ∷ 0x80 ∷ 0x00 ∷ 0x02 ∷ 0x19 ∷ 0x55
        ∷ 0x3e ∷ 0x31 ∷ 0xfb ∷ 0x3f ∷ []))))) }

    // The fault is the first of these: the peer, the index, the first pair that can't be read.
    ensures bad_mac { IsOrdered (codes "bactool bacwp 1234 1 1 85 8 x 2 y --mac 192.0.2") (Err BadMac) }
    ensures bad_index { IsOrdered (codes "bactool bacwp 1234 1 1 85 8 x 2 y --mac 192.0.2.7") (Err BadIndex) }
    ensures bad_value { IsOrdered (codes "bactool bacwp 1234 1 1 85 8 -1 2 3 2 y --mac 192.0.2.7") (Err (BadValue 2)) }
{}

// The jobs that the words of the other tools ask for.
#[tactic(none)]
fn examples_of_other_tools()
    // Every device, one, and those within limits.
    ensures all { IsOrdered (codes "bactool bacwi --mac 192.0.2.7")
        (Ok (Use (WhoIs (record { to = at_port 47808; timeout = 3000; port = 0; who = All })))) }
    ensures one { IsOrdered (codes "bactool bacwi 1000 --mac 192.0.2.7")
        (Ok (Use (WhoIs (record { to = at_port 47808; timeout = 3000; port = 0; who = Range 1000 1000 })))) }
    ensures some { IsOrdered (codes "bactool bacwi 1000 1999 --mac 192.0.2.7")
        (Ok (Use (WhoIs (record { to = at_port 47808; timeout = 3000; port = 0; who = Range 1000 1999 })))) }

    // A device at the usual port, for 65,535 datagrams; many requests, at most one of which is open; and a script.
    ensures device { IsOrdered (codes "bactool bacdev 1234")
        (Ok (Use (Device (record {
          info = record { instance = 1234; name = codes "Small device" };
          port = 47808;
          count = 65535;
        })))) }
    ensures batch { IsOrdered (codes "bactool bacrun")
        (Ok (Run (record { timeout = 3000; retries = 3; port = 0; window = 1 }))) }
    ensures window { IsOrdered (codes "bactool bacrun --window 8 --apdu-timeout 500 --apdu-retries 1 --port 47810")
        (Ok (Run (record { timeout = 500; retries = 1; port = 47810; window = 8 }))) }
    ensures script { IsOrdered (codes "bactool bactrace") (Ok Trace) }
    ensures not_taken { IsOrdered (codes "bactool bactrace x") (Ok Trace) → ⊥ }
    ensures other_job { IsOrdered (codes "bactool bactrace") (Err BadMac) → ⊥ }
{}

// Which words are run, which faults refuse them, and which jobs are possible.
#[tactic(none)]
fn examples_of_words()
    // A program that is called by a tool's name runs that tool.
    ensures tool { (program : List ℕ) → tool_named program ≡ Some (codes "bacrp") →
        words_called (program ∷ codes "1" ∷ []) ≡ [] ∷ codes "bacrp" ∷ codes "1" ∷ [] }
    ensures no_tool { (program : List ℕ) → tool_named program ≡ None →
        words_called (program ∷ codes "1" ∷ []) ≡ program ∷ codes "1" ∷ [] }

    // Memory may run out for any words. `clap` does not refuse words with a fault of this program, and an empty command
    // line has no such fault.
    ensures memory { IsRefusal [] Memory }
    ensures bad_mac { IsRefusal [] BadMac → ⊥ }
    ensures no_words { Answers [] (Err BadMac) → ⊥ }

    // A device that accepts one datagram, and one that accepts none.
    ensures ready { (serve : Serve) → serve.count ≡ 1 → IsReady (Device serve) }
    ensures unready { (serve : Serve) → serve.count ≡ 0 → IsReady (Device serve) → ⊥ }
    ensures script { CanRun Trace }
    ensures no_device { (serve : Serve) → serve.count ≡ 0 → CanRun (Use (Device serve)) → ⊥ }
    ensures opens { (batch : Batch) → batch.timeout ≡ 1 → batch.window ≡ 1 → CanOpen batch }
    ensures shut { (batch : Batch) → batch.window ≡ 0 → CanOpen batch → ⊥ }
{}

// Which error of `clap` refuses words: a call for help if they ask for it, or the error by which they are refused.
#[tactic(none)]
fn examples_of_refusals()
    ensures help { (e : Error) → kind_of e ≡ DisplayHelp
        → IsRefusal (words_of (codes "bactool bactrace --help")) (Help e) }
    ensures help_as_words { (e : Error) → kind_of e ≡ DisplayHelp
        → IsRefusal (words_of (codes "bactool bactrace --help")) (Words e) → ⊥ }
    ensures no_help { (e : Error) → kind_of e ≡ DisplayHelp
        → IsRefusal (words_of (codes "bactool bactrace")) (Help e) → ⊥ }
    ensures words { (e : Error) → kind_of e ≡ UnknownArgument
        → IsRefusal (words_of (codes "bactool bactrace x")) (Words e) }
    ensures words_as_help { (e : Error) → kind_of e ≡ UnknownArgument
        → IsRefusal (words_of (codes "bactool bactrace x")) (Help e) → ⊥ }
    ensures good_words { (e : Error) → kind_of e ≡ UnknownArgument
        → IsRefusal (words_of (codes "bactool bactrace")) (Words e) → ⊥ }
{}

// The names of the tools, the words that get a mark, and the texts of faults.
#[tactic(none)]
fn examples_of_texts()
    ensures read { is_tool (codes "bacrp") ≡ true }
    ensures write { is_tool (codes "bacwp") ≡ true }
    ensures who_is { is_tool (codes "bacwi") ≡ true }
    ensures device { is_tool (codes "bacdev") ≡ true }
    ensures batch { is_tool (codes "bacrun") ≡ true }
    ensures script { is_tool (codes "bactrace") ≡ true }
    ensures no_tool { is_tool (codes "bactool") ≡ false }

    // A negative number and a word with a mark of its own get a mark; an option and the program's name do not.
    ensures marked { marked_words (codes "-5" ∷ codes "-5" ∷ codes "~x" ∷ codes "--mac" ∷ codes "x~" ∷ [])
        ≡ codes "-5" ∷ codes "~-5" ∷ codes "~~x" ∷ codes "--mac" ∷ codes "x~" ∷ [] }

    ensures bad_pair { usage_of (Bad 2) ≡ BadValue 2 }
    ensures long_pairs { usage_of TooLong ≡ BodyTooLong }
    ensures memory { usage_told Memory ≡ Line (codes "out of memory") }
    ensures bad_mac { usage_told BadMac ≡ Line (codes "bad mac") }
    ensures bad_index { usage_told BadIndex ≡ Line (codes "bad index") }
    ensures bad_value { (number : ℕ) → usage_told (BadValue number) ≡ Line (codes "bad value " ++ decimal number) }
    ensures too_long { usage_told BodyTooLong ≡ Line (codes "body too long") }
{}
