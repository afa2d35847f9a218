//! The open requests.

ghost use Rattle.std.specs.List.{All, AllPairs, filter, find, flat_map, list_any, reduce};
ghost use Rattle.std.specs.{List.Sorted.{IsNonDecreasingBy, IsPermutation}, Option.{option_copied, option_to_list}};
ghost use Rattle.std.specs.Prelude.{[], get_or, length, map, min, nat_eq, None, not, position, remove, replicate, set};
ghost use Rattle.std.specs.Prelude.{slice_get, Some, true, ℕ, ◌++◌, ◌<◌, ◌∷◌, ◌≡◌, ◌≤◌};
ghost use Rattle.{bac_pdu.specs.longest_body, bac_tsm.specs.{client_rules, due_answer, is_answer_to, is_due, kept}};
ghost use Rattle.bac_tsm.specs.{next_invoke_id, nothing, table_size, times, times_of_slot, Inner.{answer_seen, begun}};
ghost use Rattle.bac_tsm.specs.Inner.{invoke_id_in, IsPassed, IsRankOf, IsTakenOut, sent_at, ticket_in, ticket_of};

use crate::client::Answer;
use crate::config::Config;
use crate::due::{DueEntry, Entries, sort_by_ticket};
use crate::limits::PLACES;
use crate::request::{Asked, OpenRequest};
use arrayvec::ArrayVec;
use bac_wire::Frame;
use std::marker::Model;

/// The open requests, in the order of their tickets.
///
/// A request stays at its slot until it ends. `order` lists all slots: first those of the open requests, by ticket, and
/// then the free ones. `tickets` lists the tickets, and a ticket is found there without a look at the slots.
/// `invoke_ids` has the slot of each invoke id. `sends` lists the slots of the open requests in the order of their last
/// sends: a tick looks only at those that are due, and at the first one that isn't. Each datagram is written in
/// `draft`, and then kept at its slot.
#[derive(Drop)]
pub(crate) struct Table {
    slots: [OpenRequest; PLACES],
    invoke_ids: [Option<u8>; 256],
    ticket_order: ArrayVec<u8, PLACES>,
    tickets: ArrayVec<u64, PLACES>,
    send_order: ArrayVec<u8, PLACES>,
    draft: Frame,
}

impl Model for Table {
    ghost use Rattle.std.specs.Prelude.{List};
    ghost use Rattle.bac_tsm.specs.{held_at, IsInOrder, open_slots, Machine.Waiting};

    ghost Value = { List Waiting };

    ghost view = { λ t. held_at t.slots (open_slots t.ticket_order.items t.tickets.items) };

    ghost invariant = { λ t. IsInOrder t.slots t.invoke_ids t.ticket_order.items t.tickets.items t.send_order.items };
}

impl Table {
    /// Returns a table with no request open.
    pub(crate) fn new() -> Self
        ensures { result ≡ [] }
    {
        Table {
            slots: no_requests(),
            invoke_ids: no_invoke_ids(),
            ticket_order: every_slot(),
            tickets: ArrayVec::new(),
            send_order: ArrayVec::new(),
            draft: Frame::new(),
        }
    }

    /// Returns how many requests are open.
    pub(crate) fn len(&self) -> usize
        ensures count { result ≡ length self.now }
        ensures few { result ≤ table_size }
    {
        self.tickets.len()
    }

    /// Returns the request with this ticket.
    pub(crate) fn find(&self, ticket: u64) -> Option<&OpenRequest>
        ensures { option_copied result ≡ find (λ w. nat_eq w.request.ticket ticket) self.now }
    {
        let rank = self.rank_of(ticket)?;
        Some(self.at(rank))
    }

    /// Returns the first invoke id in the cycle after `last` that no open request has.
    #[tactic(auto, using(crate::proofs::free_is, crate::proofs::taken_on, crate::proofs::last_is))]
    pub(crate) fn free_invoke_id(&self, last: u8) -> u8
        ensures { result ≡ next_invoke_id last (map (λ w. w.request.invoke_id) self.now) }
    {
        for step in 1..=u8::MAX {
            let invoke_id = last.wrapping_add(step);
            if !self.is_taken(invoke_id) {
                return invoke_id;
            }
        }
        last
    }

    /// Opens a request with this body at a free slot.
    pub(crate) fn open(&mut self, asked: Asked, body: &[u8])
        requires room { length self.old < table_size }
        requires unused { times invoke_id_in asked.invoke_id self.old ≡ 0 }
        requires latest { All (λ w. w.request.ticket < asked.ticket) self.old }
        requires past { All (λ w. w.last_sent ≤ asked.clock) self.old }
        requires short { length body.now ≤ longest_body }
        ensures { self.new ≡ self.old ++ begun asked body.now ∷ [] }
    {
        let slot = self.ticket_order[self.tickets.len()];
        self.invoke_ids[usize::from(asked.invoke_id)] = Some(slot);
        begin_at(&mut self.slots, slot, asked, body, &mut self.draft);
        self.tickets.push(asked.ticket);
        put_last(&mut self.send_order, slot);
    }

    /// Ends the request that this answers, and returns the ticket of that request. Only the request with the answer's
    /// invoke id is looked at.
    pub(crate) fn close(&mut self, answer: &Answer<'_>) -> Option<u64>
        ensures told { option_to_list result
            ≡ map ticket_in (filter (λ w. is_answer_to w.request (answer_seen answer.now)) self.old) }
        ensures others { self.new ≡ filter (λ w. not (is_answer_to w.request (answer_seen answer.now))) self.old }
    {
        let slot = self.invoke_ids[usize::from(answer.invoke_id)]?;
        let request = held(&self.slots, slot);
        if !is_answered_by(request, answer) {
            return None;
        }
        let ticket = request.ticket();
        let rank = self.rank_of(ticket)?;
        self.end(rank);
        Some(ticket)
    }

    /// Returns whether some request is due at this clock. If so, the one that was sent longest ago is due.
    pub(crate) fn is_due(&self, clock: u64, config: Config) -> bool
        ensures due { result ≡ list_any (is_due (client_rules config.timeout config.retries) clock) self.now }
        ensures few { length self.now ≤ table_size }
        ensures rising { AllPairs (λ v w. v.request.ticket < w.request.ticket) self.now }
    {
        match self.send_order.first() {
            Some(slot) => held(&self.slots, *slot).is_due(clock, config),
            None => false,
        }
    }

    /// Returns when the request that was sent longest ago was last sent.
    pub(crate) fn oldest_send(&self) -> Option<u64>
        ensures { result ≡ reduce min (map (λ w. w.last_sent) self.now) }
    {
        let slot = self.send_order.first()?;
        Some(held(&self.slots, *slot).last_sent)
    }

    /// Brings each request that is due to this clock, and lists what becomes of each, in the order of tickets. It is a
    /// function of its own, so that a tick at which nothing is due costs only one comparison.
    #[inline(never)]
    pub(crate) fn pass_all(&mut self, clock: u64, config: Config, entries: &mut Entries)
        requires due { list_any (is_due (client_rules config.timeout config.retries) clock) self.old ≡ true }
        requires past { All (λ w. w.last_sent ≤ clock) self.old }
        requires empty { entries.old.items ≡ [] }
        requires few { length self.old ≤ table_size }
        ensures told { IsPermutation (flat_map (due_answer (client_rules config.timeout config.retries) clock) self.old)
            entries.new.items }
        ensures by_ticket { IsNonDecreasingBy ticket_of entries.new.items }
        ensures kept { self.new ≡ flat_map (kept (client_rules config.timeout config.retries) clock) self.old }
    {
        let mut is_due = true;
        while is_due {
            let entry = self.pass(clock, config);
            put_last(entries, entry);
            is_due = self.is_due(clock, config);
        }
        sort_by_ticket(entries.as_mut_slice());
    }

    // Returns the request at this rank.
    #[tactic(auto, using(crate::proofs::read_within, crate::proofs::read_held, crate::proofs::rank_within))]
    fn at(&self, rank: usize) -> &OpenRequest
        requires { rank < length self.now }
        ensures { result.now ≡ get_or self.now rank nothing }
    {
        held(&self.slots, self.ticket_order[rank])
    }

    // Returns whether some open request has this invoke id.
    fn is_taken(&self, invoke_id: u8) -> bool
        ensures { result ≡ list_any (λ w. nat_eq invoke_id w.request.invoke_id) self.now }
    {
        self.invoke_ids[usize::from(invoke_id)].is_some()
    }

    // Brings the request that was sent longest ago to this clock, and returns what becomes of it.
    fn pass(&mut self, clock: u64, config: Config) -> DueEntry
        requires due { list_any (is_due (client_rules config.timeout config.retries) clock) self.old ≡ true }
        requires past { All (λ w. w.last_sent ≤ clock) self.old }
        ensures { IsPassed (client_rules config.timeout config.retries) clock self.old result self.new }
    {
        let slot = first_sent(&self.send_order);
        let entry = held(&self.slots, slot).due_entry(config);
        match entry {
            DueEntry::Resend(_) => {
                send_again_at(&mut self.slots, slot, clock, config);
                self.send_order.remove(0);
                self.send_order.push(slot);
            }
            DueEntry::TimedOut(ticket) => {
                if let Some(rank) = self.rank_of(ticket) {
                    self.end(rank);
                }
            }
        }
        entry
    }

    // Returns the rank of the request with this ticket: its index in the order. The first rank tried is the one that
    // the request has if no request between it and the last one has ended.
    fn rank_of(&self, ticket: u64) -> Option<usize>
        ensures { IsRankOf ticket self.now result }
    {
        let last = *self.tickets.last()?;
        let later = last.wrapping_sub(ticket) as usize;
        let likely = (self.tickets.len() - 1).wrapping_sub(later);
        if self.tickets.get(likely).copied() == Some(ticket) {
            return Some(likely);
        }
        self.tickets.as_slice().binary_search(&ticket).ok()
    }

    // Ends the request at this rank, and puts its slot after the other free slots.
    fn end(&mut self, rank: usize)
        requires { rank < length self.old }
        ensures { self.new ≡ remove self.old rank }
    {
        let slot = self.ticket_order.remove(rank);
        let invoke_id = held(&self.slots, slot).invoke_id();
        self.invoke_ids[usize::from(invoke_id)] = None;
        self.ticket_order.push(slot);
        self.tickets.remove(rank);
        take_out(&mut self.send_order, slot, rank);
    }
}

// Returns a blank request for each slot.
fn no_requests() -> [OpenRequest; PLACES]
    ensures { length result ≡ table_size }
{
    Default::default()
}

// Returns a table in which no invoke id is taken.
fn no_invoke_ids() -> [Option<u8>; 256]
    ensures { result ≡ replicate 256 None }
{
    [None; 256]
}

// Returns a list of every slot.
fn every_slot() -> ArrayVec<u8, PLACES>
    ensures whole { length result.items ≡ table_size }
    ensures within { (slot : ℕ) → table_size ≤ slot → times_of_slot slot result.items ≡ 0 }
    ensures once { (slot : ℕ) → times_of_slot slot result.items ≤ 1 }
{
    let mut slots = ArrayVec::new();
    for slot in 0..PLACES as u8 {
        slots.push(slot);
    }
    slots
}

// Makes the request at this slot a new one.
fn begin_at(
    slots: &mut [OpenRequest; PLACES],
    slot: u8,
    asked: Asked,
    body: &[u8],
    frame: &mut Frame,
)
    requires within { slot < table_size }
    requires short { length body.now ≤ longest_body }
    ensures { slots.new ≡ set slots.old slot (begun asked body.now) }
{
    slots[usize::from(slot)].begin(asked, body, frame);
}

// Appends the item.
fn put_last<T: Copy + Default>(items: &mut ArrayVec<T, PLACES>, item: T)
    requires { length items.old.items < table_size }
    ensures { items.new.items ≡ items.old.items ++ item ∷ [] }
{
    items.push(item);
}

// Returns the request at this slot.
fn held(slots: &[OpenRequest; PLACES], slot: u8) -> &OpenRequest
    requires { slot < table_size }
    ensures { result.now ≡ get_or slots.now slot nothing }
{
    &slots[usize::from(slot)]
}

// Returns whether the answer is to the request.
#[tactic(auto, using(bac_pdu::proofs::DatagramLaws::peer_decides, crate::proofs::same_station_is, crate::proofs::same_station_refl), unfolding(crate::specs::is_answer_to))]
fn is_answered_by(request: &OpenRequest, answer: &Answer<'_>) -> bool
    ensures { result ≡ is_answer_to request.now.request (answer_seen answer.now) }
{
    request.peer == answer.peer
        && request.invoke_id == answer.invoke_id
        && answer
            .service
            .is_none_or(|service| request.service == service)
}

// Returns the slot whose request was sent longest ago.
fn first_sent(sends: &ArrayVec<u8, PLACES>) -> u8
    requires { 0 < length sends.now.items }
    ensures { Some result ≡ slice_get sends.now.items 0 }
{
    sends[0]
}

// Records that the request at this slot is sent again now.
fn send_again_at(slots: &mut [OpenRequest; PLACES], slot: u8, clock: u64, config: Config)
    requires within { slot < table_size }
    requires left { (get_or slots.old slot nothing).resends < config.retries }
    ensures { slots.new ≡ set slots.old slot (sent_at clock (get_or slots.old slot nothing)) }
{
    slots[usize::from(slot)].send_again(clock, config);
}

// Removes a slot from the list. The likely rank is looked at first.
fn take_out(slots: &mut ArrayVec<u8, PLACES>, slot: u8, likely: usize)
    requires { 0 < times_of_slot slot slots.old.items }
    ensures { IsTakenOut slot slots.old.items slots.new.items }
{
    if slots.get(likely).copied() == Some(slot) {
        slots.remove(likely);
    } else if let Some(rank) = rank_of_slot(slots, slot) {
        slots.remove(rank);
    }
}

// Returns the first rank of the slot in the list.
fn rank_of_slot(slots: &[u8], slot: u8) -> Option<usize>
    ensures { result ≡ position (λ other. nat_eq other slot) slots.now }
{
    slots.iter().position(|other| *other == slot)
}
