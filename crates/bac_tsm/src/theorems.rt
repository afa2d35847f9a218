//! The laws of the client: what its machine does is what the look-ahead says.

ghost use Rattle.std.specs.{List.AllPairs, Prelude.IsSomeAnd};
ghost use Rattle.std.specs.Prelude.{length, List, suc, take, true, ℕ, ◌++◌, ◌+◌, ◌<◌, ◌↔◌, ◌∷◌, ◌≡◌, ◌≢◌, ◌≤◌};
ghost use Rattle.{bac_pdu.specs.Station, bac_tsm.specs.Accepted};
ghost use Rattle.bac_tsm.specs.{accepted, AnswersByInvokeId, client_rules, due, end, Event, InvokeIdsComeBackLate};
ghost use Rattle.bac_tsm.specs.{IsAnsweredBy, last_of, MachineIsLookahead, open_among, open_at, Outcome, outcome_of};
ghost use Rattle.bac_tsm.specs.{output, PassedAreHeld, Request, Rules, same_station, sends, TimeoutsPass};

/// At each position the machine gives the notes of the look-ahead, and keeps the requests that are open by the
/// look-ahead. This holds for any rules by which at most 255 requests may be open, and one datagram answers only
/// requests with the same invoke id.
pub fn run_is_lookahead()
    ensures { (rules : Rules) (first_ticket : ℕ) (events : List Event) →
        AnswersByInvokeId rules → rules.most_open ≤ 255 → MachineIsLookahead rules first_ticket events }
{}

/// The machine of a client agrees with the look-ahead, for any timeout and retries.
pub fn client_is_lookahead()
    ensures { (timeout retries first_ticket : ℕ) (events : List Event) →
        MachineIsLookahead (client_rules timeout retries) first_ticket events }
{}

/// The requests that one datagram answers have the same invoke id.
pub fn answers_are_by_invoke_id()
    ensures { (timeout retries : ℕ) → AnswersByInvokeId (client_rules timeout retries) }
{}

/// The table of answers treats two stations as the same exactly if their addresses, ports and routes are the same.
#[tactic(auto, using(crate::proofs::same_station_is, crate::proofs::same_station_refl))]
pub fn stations_are_compared_whole()
    ensures { (a b : Station) → (same_station a b ≡ true) ↔ (a ≡ b) }
{}

/// A datagram gives a request an outcome exactly if it answers the request with this outcome in the standard's words.
pub fn answers_in_words()
    ensures { (request : Request) (from : Station) (datagram : List ℕ) (outcome : Outcome) →
        (outcome_of request from datagram ≡ Some outcome) ↔ IsAnsweredBy request from datagram outcome }
{}

/// At each position the open requests keep to the limit, have different invoke ids, and are in the order of their
/// tickets. Each request is sent at most once more than the retries.
#[tactic(auto, using(crate::proofs::roomy, crate::proofs::tickets_rise, crate::proofs::few_sends))]
pub fn table_is_bounded()
    ensures few { (rules : Rules) (first_ticket : ℕ) (events : List Event) (n : ℕ) →
        rules.most_open ≤ 255 → length (open_at rules first_ticket events n) ≤ rules.most_open }
    ensures apart { (rules : Rules) (first_ticket : ℕ) (events : List Event) (n : ℕ) → rules.most_open ≤ 255 →
        AllPairs (λ a b. a.request.invoke_id ≢ b.request.invoke_id) (open_at rules first_ticket events n) }
    ensures tickets { (rules : Rules) (first_ticket : ℕ) (events : List Event) (n : ℕ) →
        AllPairs (λ a b. a.request.ticket < b.request.ticket) (open_at rules first_ticket events n) }
    ensures sends { (rules : Rules) (events : List Event) (a : Accepted) →
        length (sends rules events a) ≤ 1 + rules.retries }
{}

/// The notes at a position depend on nothing that comes after it.
#[tactic(auto, using(crate::proofs::looks_back, crate::proofs::reaches))]
pub fn output_looks_back()
    ensures { (rules : Rules) (first_ticket : ℕ) (events others : List Event) (n : ℕ) →
        n < length events → take (suc n) events ≡ take (suc n) others →
        output rules first_ticket events n ≡ output rules first_ticket others n }
{}

/// Between two requests with the same invoke id, at least 256 minus the limit of open requests other requests are
/// accepted.
#[tactic(auto, using(crate::proofs::back_late))]
pub fn invoke_ids_come_back_late()
    ensures { (rules : Rules) (first_ticket : ℕ) (events : List Event) (n : ℕ) →
        rules.most_open ≤ 255 → InvokeIdsComeBackLate rules.most_open (accepted rules first_ticket events n) }
{}

/// Take an accepted request. Each invoke id that was given or skipped since belongs to it, to a request that was open
/// then, or to a request accepted since.
pub fn passed_invoke_ids_are_held()
    ensures { (rules : Rules) (first_ticket : ℕ) (events : List Event) (n : ℕ) → rules.most_open ≤ 255 →
        (before since : List Accepted) (a : Accepted) → accepted rules first_ticket events n ≡ before ++ a ∷ since →
        PassedAreHeld a (open_among rules events a.position before) since }
{}

/// No request waits for ever. It has been due as often as ticks came a timeout apart. Once it was due more often than
/// it may be sent again, it has ended (clause 5.4.4).
pub fn no_request_waits_for_ever()
    ensures due { (rules : Rules) (events : List Event) (i : ℕ) (ticks : List ℕ) → TimeoutsPass rules events i ticks →
        IsSomeAnd (due rules events i (length ticks)) (λ j. j ≤ last_of i ticks) }
    ensures ended { (rules : Rules) (events : List Event) (a : Accepted) (ticks : List ℕ)
        → TimeoutsPass rules events a.position ticks →
        length ticks ≡ suc rules.retries → IsSomeAnd (end rules events a) (λ e. e.position ≤ last_of a.position ticks) }
{}
