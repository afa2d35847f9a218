//! Laws of every run. Each function has an empty body, and its clauses are the laws.
ghost use Rattle.std.specs.{List.flat_map, Prelude.{Err, false, length, List, map, None, Ok, Result, suc, true, ℕ}};
ghost use Rattle.std.specs.Prelude.{◌*◌, ◌++◌, ◌+◌, ◌<◌, ◌^◌, ◌≡◌, ◌≢◌, ◌≤◌, ◌⊎◌};
ghost use Rattle.{bac_wire.specs.{EqualsBy, MakesCopies}, bac_print.specs.fresh};
ghost use Rattle.bac_run.specs.{Act, AreOffered, AreSteady, arrival_line, Asked, AskNext, AtEnd, Checked, client_after};
ghost use Rattle.bac_run.specs.{EndsWithFeed, events_of, HasNoFeed, IsLineOf, IsReplayed, journal_of, new_client};
ghost use Rattle.bac_run.specs.{notes_of, offered_in, Paused, refused_in, RunFault as Fault, Runs, said_of, sends_of};
ghost use Rattle.bac_run.specs.{Setup as Settings, settings_line, Told, TraceEnd, unsent_in, write_failed};
ghost use Rattle.bac_script.specs.{GaveSame, Happens, lines, Settings as SettingsSaid, Script.{first_fault, text}};
ghost use Rattle.{bac_script.specs.Text.notes_text, hex.specs.Hex.IsBytes};
ghost use Rattle.bac_tsm.specs.{Accepted, client_rules, clock, Data, end, Event, outputs, state_at};
ghost use Rattle.bac_links.specs.{Account, answers_of, Entry};

use crate::fault::RunFault;
use crate::setup::Setup;
use bac_links::Link;
use bac_tsm::client_is_lookahead;
use std::io::{Read, Write};

/// The link was offered the datagrams of the remarks `send` and `who`, in their order, and no others. It refused those
/// of the remarks `unsent`. If the writer failed, later ones may be left.
pub fn a_run_sends_what_it_remarks<L: Link, R: Read, W: Write>()
    ensures sends { (setup : Settings) (reader reader' : Checked R) (before after : Checked W)
        (seen left : Account L.Origin) (result : Result TraceEnd Fault) (gained : List Entry)
        → (runs : Runs R.remaining W.contents setup reader reader' before after seen left result)
        → left.history ≡ seen.history ++ gained
        → AreOffered result (sends_of (new_client setup.config.timeout setup.config.retries 0) runs.acts)
        (flat_map offered_in gained) }
    ensures unsent { (setup : Settings) (reader reader' : Checked R) (before after : Checked W)
        (seen left : Account L.Origin) (result : Result TraceEnd Fault) (gained : List Entry)
        → (runs : Runs R.remaining W.contents setup reader reader' before after seen left result)
        → left.history ≡ seen.history ++ gained → flat_map refused_in gained ≡ flat_map unsent_in runs.acts }
{}

/// The client of a run gives the notes of the look-ahead at each of its events, and has the same requests open. The
/// look-ahead says when each request is sent, how often, and how it ends.
pub fn a_run_tells_what_the_look_ahead_gives()
    ensures notes { (timeout retries : ℕ) (acts : List Act) → notes_of (new_client timeout retries 0) acts
        ≡ map (λ (i, note). note)
        (outputs (client_rules timeout retries) 0 (events_of acts) 0 (length (events_of acts))) }
    ensures kept { (timeout retries : ℕ) (acts : List Act) → (client_after (new_client timeout retries 0) acts).state
        ≡ state_at (client_rules timeout retries) 0 (events_of acts) (length (events_of acts)) }
{
    client_is_lookahead();
}

/// What a run asks of its link is a function of its setup, of its input, and of what the link answered. Take two runs
/// of one setup over the same input, over any two links: as far as they were answered alike, they asked alike; and
/// where both go on, they ask the same next.
pub fn a_run_asks_by_its_answers<K: Link, L: Link, R: Read, S: Read, V: Write, W: Write>()
    ensures { (setup : Settings) (reader : R) (other_reader : S) (reader' : Checked R) (other_reader' : Checked S)
        (before after : Checked V) (other_before other_after : Checked W) (seen left : Account K.Origin)
        (other_seen other_left : Account L.Origin) (result other : Result TraceEnd Fault)
        (first rest other_first other_rest : List Entry)
        → Runs R.remaining V.contents setup (fresh reader) reader' before after seen left result
        → Runs S.remaining W.contents setup (fresh other_reader) other_reader' other_before other_after other_seen
        other_left other → GaveSame reader' other_reader' → left.history ≡ seen.history ++ (first ++ rest)
        → other_left.history ≡ other_seen.history ++ (other_first ++ other_rest)
        → answers_of first ≡ answers_of other_first → (first ≡ other_first) × AskNext rest other_rest }
{}

/// How a run ends is such a function too. If two runs of one setup over the same input were answered alike to their
/// ends, and neither failed to write, they did the same and ended alike: so they have one journal.
pub fn a_run_ends_by_its_answers<K: Link, L: Link, R: Read, S: Read, V: Write, W: Write>()
    ensures { (setup : Settings) (reader : R) (other_reader : S) (reader' : Checked R) (other_reader' : Checked S)
        (before after : Checked V) (other_before other_after : Checked W) (seen left : Account K.Origin)
        (other_seen other_left : Account L.Origin) (result other : Result TraceEnd Fault)
        (gained other_gained : List Entry)
        → (runs : Runs R.remaining V.contents setup (fresh reader) reader' before after seen left result)
        → (others : Runs S.remaining W.contents setup (fresh other_reader) other_reader' other_before other_after
        other_seen other_left other) → GaveSame reader' other_reader' → left.history ≡ seen.history ++ gained
        → other_left.history ≡ other_seen.history ++ other_gained → answers_of gained ≡ answers_of other_gained
        → result ≢ Err write_failed → other ≢ Err write_failed → (result ≡ other) × (runs.acts ≡ others.acts) }
{}

/// Every request is over within (retries + 1) x (timeout + longest). Take any events of which none after the request
/// moves the clock by more than `longest`. While the request is open, at most retries x (timeout + longest) + timeout
/// has passed since it was sent, by the client's clock (clause 5.4.4).
pub fn a_request_ends_in_time()
    ensures { (timeout retries longest : ℕ) (events : List Event) (a : Accepted) → AreSteady longest events a.position
        → end (client_rules timeout retries) events a ≡ None
        → clock events (length events) ≤ clock events (suc a.position) + (retries * (timeout + longest) + timeout) }
{}

/// The journal of a run is a script, and `bactrace` prints the client's notes from it: its remarks without their marks.
pub fn a_journal_is_a_script<L: Link, R: Read, W: Write>()
    ensures text { (setup : Settings) (reader reader' : Checked R) (before after : Checked W)
        (seen left : Account L.Origin) (result : Result TraceEnd Fault)
        (runs : Runs R.remaining W.contents setup reader reader' before after seen left result)
        → text (journal_of setup runs.acts) AtEnd
        ≡ notes_text (notes_of (new_client setup.config.timeout setup.config.retries 0) runs.acts) }
    ensures fault { (setup : Settings) (reader reader' : Checked R) (before after : Checked W)
        (seen left : Account L.Origin) (result : Result TraceEnd Fault)
        (runs : Runs R.remaining W.contents setup reader reader' before after seen left result)
        → first_fault (lines (journal_of setup runs.acts) AtEnd) ≡ None }
{}

/// `bactrace` reads the line of a time as this time.
#[tactic(auto, using(crate::proofs::time_read_back))]
pub fn a_time_is_read_back()
    ensures { (time : ℕ) → time < 2 ^ 64 → IsReplayed (Told time) }
{}

/// `bactrace` reads the line of the settings as these settings.
#[tactic(auto, using(crate::proofs::settings_read_back))]
pub fn settings_are_read_back()
    ensures { (timeout retries : ℕ) → 0 < timeout → timeout < 2 ^ 32 → retries < 2 ^ 8
        → IsLineOf true (settings_line timeout retries) (SettingsSaid timeout retries 0) }
{}

/// `bactrace` reads the line of a datagram from a peer without a route as this datagram from this peer.
#[tactic(auto, using(crate::proofs::arrival_read_back))]
pub fn an_arrival_is_read_back()
    ensures { (ip port : ℕ) (octets : List ℕ) → ip < 2 ^ 32 → port < 2 ^ 16 → IsBytes octets → 0 < length octets
        → length octets ≤ 2034
        → IsLineOf false (arrival_line (record { ip = ip; port = port; route = None }) octets)
        (Happens (Data (record { ip = ip; port = port; route = None }) octets)) }
{}

/// `bactrace` reads the line of a request in the journal as this request. (The last line of the input may lack its line
/// feed.)
#[tactic(auto, using(crate::proofs::empty_read_back))]
pub fn a_request_is_read_back()
    ensures asked { (line : List ℕ) (event : Event) → EndsWithFeed line ⊎ HasNoFeed line
        → said_of line ≡ Ok (Happens event) → IsReplayed (Asked line event) }
    ensures paused { IsReplayed Paused }
{}

/// A clone equals its original, and allocates no memory.
pub fn clones()
    ensures fault { MakesCopies ⟦<RunFault as Clone>⟧.is_clone ⟦<RunFault as Clone>⟧.is_infallible }
    ensures setup { MakesCopies ⟦<Setup as Clone>⟧.is_clone ⟦<Setup as Clone>⟧.is_infallible }
{}

/// `==` compares the faults.
pub fn equals()
    ensures { EqualsBy (λ fault. fault) ⟦<RunFault as PartialEq>⟧.eq }
{}
