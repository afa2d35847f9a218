//! Laws of the definitions that the contracts cite. Each function has an empty body, and its clauses are the laws.
ghost use Rattle.std.specs.Prelude.{List, Result, true, ℕ, ◌≡◌, ◌≤◌, ◌⊎◌};
ghost use Rattle.bac_print.specs.{fresh, has_failed, octets_of, reads_of, declared.checked.Checked.Checked};
ghost use Rattle.bac_tsm.specs.{Laws.InvokeIdsComeBackLate, Limits.table_size};
ghost use Rattle.{bac_wire.specs.{EqualsBy, MakesCopies}, bac_script.specs.{all_said, AreAlike, GaveFront, GaveSame}};
ghost use Rattle.bac_script.specs.{IsFrontOf, IsWrittenOf, lines, most_reads, Reading, requests_in, Traces};

use crate::input::{Next, Reading as ReadingState};
use crate::line::{LineFault, Received};
use crate::tracing::{TraceEnd, TraceFault};
use std::io::{Read, Write};

/// A script is a function of its octets. Two runs whose readers gave the same octets, and met their end as often, write
/// the same text and return the same; if a writer failed, its run wrote the beginning of that text. If one reader gave
/// only the first octets of the other and did not meet its end, for example because its writer failed, its run wrote
/// the beginning of the other's text.
pub fn a_script_is_a_function<R: Read, S: Read, V: Write, W: Write>()
    ensures alike { (reader : R) (other_reader : S) (reader' : Checked R) (other_reader' : Checked S)
        (writer : V) (other_writer : W) (writer' : Checked V) (other_writer' : Checked W)
        (answer other : Result TraceEnd TraceFault)
        → Traces R.remaining V.contents (fresh reader) reader' (fresh writer) writer' answer
        → Traces S.remaining W.contents (fresh other_reader) other_reader' (fresh other_writer) other_writer' other
        → GaveSame reader' other_reader' → AreAlike (octets_of writer') answer (octets_of other_writer') other }
    ensures front { (reader : R) (other_reader : S) (reader' : Checked R) (other_reader' : Checked S)
        (writer : V) (other_writer : W) (writer' : Checked V) (other_writer' : Checked W)
        (answer other : Result TraceEnd TraceFault)
        → Traces R.remaining V.contents (fresh reader) reader' (fresh writer) writer' answer
        → Traces S.remaining W.contents (fresh other_reader) other_reader' (fresh other_writer) other_writer' other
        → GaveFront reader' other_reader' → (text : List ℕ) × IsFrontOf (octets_of writer') text
        × IsWrittenOf (octets_of other_writer') text other }
{}

/// A script ends with `ReadFailed` only if its reader failed or its reads are spent.
pub fn a_failed_read_has_a_cause<R: Read, W: Write>()
    ensures { (reader reader' : Checked R) (writer writer' : Checked W)
        → Traces R.remaining W.contents reader reader' writer writer' (Err TraceFault.ReadFailed)
        → (has_failed reader' ≡ true) ⊎ (most_reads ≤ reads_of reader') }
{}

/// Between two requests of a script with the same invoke id at least 192 others are accepted.
#[tactic(auto, using(crate::proofs::requests_late))]
pub fn invoke_ids_come_back_late()
    ensures { (octets : List ℕ) (reading : Reading)
        → InvokeIdsComeBackLate table_size (requests_in (all_said (lines octets reading))) }
{}

/// A clone equals its original, and allocates no memory.
pub fn clones<'a>()
    ensures next { MakesCopies ⟦<Next as Clone>⟧.is_clone ⟦<Next as Clone>⟧.is_infallible }
    ensures reading { MakesCopies ⟦<ReadingState as Clone>⟧.is_clone ⟦<ReadingState as Clone>⟧.is_infallible }
    ensures received { MakesCopies ⟦<Received<'a> as Clone>⟧.is_clone ⟦<Received<'a> as Clone>⟧.is_infallible }
    ensures line_fault { MakesCopies ⟦<LineFault as Clone>⟧.is_clone ⟦<LineFault as Clone>⟧.is_infallible }
    ensures end { MakesCopies ⟦<TraceEnd as Clone>⟧.is_clone ⟦<TraceEnd as Clone>⟧.is_infallible }
    ensures fault { MakesCopies ⟦<TraceFault as Clone>⟧.is_clone ⟦<TraceFault as Clone>⟧.is_infallible }
{}

/// `==` compares the state of reading, and all that a fault of a line, or an end or a fault of a script says.
pub fn equals()
    ensures reading { EqualsBy (λ reading. reading) ⟦<ReadingState as PartialEq>⟧.eq }
    ensures line_fault { EqualsBy (λ fault. fault) ⟦<LineFault as PartialEq>⟧.eq }
    ensures end { EqualsBy (λ end. end) ⟦<TraceEnd as PartialEq>⟧.eq }
    ensures fault { EqualsBy (λ fault. fault) ⟦<TraceFault as PartialEq>⟧.eq }
{}
