//! The client, and the answers that end its requests.

ghost use Rattle.std.specs.{Option.option_to_list, Prelude.{length, option_map, ◌≡◌, ◌≤◌}};
ghost use Rattle.bac_pdu.specs.{error_of, station, Apdu.message};
ghost use Rattle.bac_tsm.specs.{answer_in_apdu, answer_in_datagram, client_of, datagram, due_notes, end_seen, initial};
ghost use Rattle.bac_tsm.specs.{note_seen, oldest_send, open_under, outcome_seen, refusal_of, rules_of, sent, submit};
ghost use Rattle.bac_tsm.specs.{table_size, TakesStep, tick, to_send, Inner.{answer_seen, error_outcome}};

use crate::config::Config;
use crate::due::{Due, DueEntry, Entries};
use crate::event::Note;
use crate::limits::PLACES;
use crate::outcome::{Ended, Outcome};
use crate::request::Asked;
use crate::table::Table;
use bac_pdu::{Apdu, LONGEST_BODY, Peer, open_datagram, read_apdu, read_error};
use std::marker::Model;

/// Why a request was not accepted.
#[derive(Clone, Copy, Debug, PartialEq, Eq)]
pub enum SubmitFault {
    /// The service body has more than [`LONGEST_BODY`] octets. This is the caller's fault.
    TooLong,
    /// [`PLACES`] requests are open. This is nobody's fault, and there is room again once one of them ends.
    TableFull,
    /// The next ticket would be `u64::MAX`, because the caller chose so high a first ticket. Only a new client has more
    /// tickets.
    TicketsSpent,
}

/// A client: its settings, its clock, and the requests that are open.
///
/// A client has a fixed size, allocates no memory, and sends nothing itself. The caller sends what [`Client::to_send`]
/// lends: after a [`Client::submit`] that returns a ticket, and at each [`DueEntry::Resend`] of a tick.
#[derive(Drop)]
pub struct Client {
    config: Config,
    clock: u64,
    last_invoke_id: u8,
    next_ticket: u64,
    table: Table,
}

/// An answer: its sender, the invoke id of the request that it answers, the service if it names one, and how it ends
/// the request.
#[derive(Clone, Copy)]
pub(crate) struct Answer<'d> {
    pub(crate) peer: Peer,
    pub(crate) invoke_id: u8,
    pub(crate) service: Option<u8>,
    pub(crate) outcome: Outcome<'d>,
}

impl Model for Client {
    ghost use Rattle.std.specs.{List.All, Prelude.{◌<◌, ◌≤◌}};
    ghost use Rattle.bac_tsm.specs.Client.{Client, client_of};

    ghost Value = { Client };

    ghost view = { λ c. client_of c.config (record {
      clock = c.clock;
      last_invoke_id = c.last_invoke_id;
      next_ticket = c.next_ticket;
      waiting = c.table;
    }) };

    // Each open request has a ticket below the next one, and was last sent at the present clock or before.
    ghost invariant = { λ c. All (λ w. w.request.ticket < c.next_ticket) c.table
        × All (λ w. w.last_sent ≤ c.clock) c.table };
}

impl Client {
    /// A client with no request open, whose clock is 0. Its tickets count up from `first_ticket`.
    pub fn new(config: Config, first_ticket: u64) -> Self
        ensures { result ≡ client_of config (initial first_ticket) }
    {
        Client {
            config,
            clock: 0,
            last_invoke_id: 0,
            next_ticket: first_ticket,
            table: Table::new(),
        }
    }

    /// Opens a request for this service (clause 21, BACnetConfirmedServiceChoice) with this body, and returns its
    /// ticket. The request gets the first free invoke id after the one given last. The caller sends the request at
    /// once.
    ///
    /// A request that is refused leaves the client as it was. If several faults apply, the first in the order of
    /// [`SubmitFault`] is returned.
    #[tactic(auto, using(crate::proofs::invoke_id_unused), unfolding(crate::specs::refusal_of))]
    pub fn submit(&mut self, peer: Peer, service: u8, body: &[u8]) -> Result<u64, SubmitFault>
        ensures { TakesStep self.old
            (submit (rules_of self.old) self.old.state (station peer) service body.now) result self.new }
    {
        if let Some(fault) = self.refusal(body) {
            return Err(fault);
        }
        let ticket = self.next_ticket;
        let invoke_id = self.table.free_invoke_id(self.last_invoke_id);
        let asked = Asked {
            ticket,
            peer,
            service,
            invoke_id,
            clock: self.clock,
        };
        self.table.open(asked, body);
        self.last_invoke_id = invoke_id;
        self.next_ticket = ticket + 1;
        Ok(ticket)
    }

    /// Ends the open request that the datagram answers. Returns None if the datagram answers none, and then nothing
    /// changes.
    pub fn datagram<'d>(&mut self, peer: Peer, bytes: &'d [u8]) -> Option<Ended<'d>>
        ensures { TakesStep self.old (datagram (rules_of self.old) self.old.state (station peer) bytes.now)
            (option_map end_seen result) self.new }
    {
        let answer = read_answer(peer, bytes)?;
        let ticket = self.table.close(&answer)?;
        Some(Ended {
            ticket,
            outcome: answer.outcome,
        })
    }

    /// Moves the clock on to `now`, in milliseconds; the clock never goes back. Each request whose timeout has passed
    /// since it was last sent is due: it is sent again, or ends if it was sent again as often as the settings allow.
    #[inline]
    pub fn tick(&mut self, now: u64) -> Due
        ensures { TakesStep self.old (tick (rules_of self.old) self.old.state now) result self.new }
    {
        let clock = now.max(self.clock);
        self.clock = clock;
        if !self.table.is_due(clock, self.config) {
            return Due { entries: None };
        }
        let mut entries = Entries::new();
        self.table.pass_all(clock, self.config, &mut entries);
        Due {
            entries: Some(entries),
        }
    }

    /// Returns the peer of the request with this ticket, and its datagram, or None if no open request has the ticket.
    pub fn to_send(&self, ticket: u64) -> Option<(Peer, &[u8])>
        ensures { option_map (λ to. (station to.0, to.1.now)) result ≡ to_send self.now.state ticket }
    {
        let open = self.table.find(ticket)?;
        Some((open.peer, open.datagram.as_slice()))
    }

    /// Returns the note that the request with this ticket is sent, or None if no open request has the ticket.
    pub fn sent(&self, ticket: u64) -> Option<Note<'_>>
        ensures { option_to_list (option_map note_seen result) ≡ sent self.now.state ticket }
    {
        let (to, octets) = self.to_send(ticket)?;
        Some(Note::Sent(ticket, to, octets))
    }

    /// Returns the note on an entry of a tick: the request is sent again, or has ended.
    pub fn due(&self, entry: DueEntry) -> Option<Note<'_>>
        ensures { option_to_list (option_map note_seen result) ≡ due_notes self.now.state entry }
    {
        match entry {
            DueEntry::Resend(ticket) => self.sent(ticket),
            DueEntry::TimedOut(ticket) => Some(Note::TimedOut(ticket)),
        }
    }

    /// Returns how many requests are open.
    pub fn open_count(&self) -> usize
        ensures count { result ≡ length self.now.state.waiting }
        ensures few { result ≤ table_size }
    {
        self.table.len()
    }

    /// Returns the invoke id of the request with this ticket, or None if no open request has the ticket.
    pub fn number_of(&self, ticket: u64) -> Option<u8>
        ensures { result ≡ option_map (λ w. w.request.invoke_id) (open_under self.now.state ticket) }
    {
        let open = self.table.find(ticket)?;
        Some(open.invoke_id)
    }

    /// Returns the client's time when the open request that was sent longest ago was last sent, or None if no request
    /// is open. No request is due before the timeout has passed since then.
    pub fn oldest_send(&self) -> Option<u64>
        ensures { result ≡ oldest_send self.now.state }
    {
        self.table.oldest_send()
    }

    /// Returns the greatest time that was given to a tick, or 0 before the first tick.
    pub fn clock(&self) -> u64
        ensures { result ≡ self.now.state.clock }
    {
        self.clock
    }

    // Returns the first reason to refuse a request with this body.
    #[tactic(auto, unfolding(crate::specs::refusal_of))]
    fn refusal(&self, body: &[u8]) -> Option<SubmitFault>
        ensures { result
            ≡ refusal_of table_size body.now (length self.now.state.waiting) self.now.state.next_ticket }
    {
        if body.len() > LONGEST_BODY {
            Some(SubmitFault::TooLong)
        } else if self.open_count() == PLACES {
            Some(SubmitFault::TableFull)
        } else if self.next_ticket == u64::MAX {
            Some(SubmitFault::TicketsSpent)
        } else {
            None
        }
    }
}

// Returns the answer that a datagram carries, if it carries one.
#[tactic(auto, unfolding(crate::specs::answer_in_datagram))]
fn read_answer(from: Peer, datagram: &[u8]) -> Option<Answer<'_>>
    ensures { option_map answer_seen result ≡ answer_in_datagram (station from) datagram.now }
{
    let carried = open_datagram(from, datagram)?;
    let apdu = read_apdu(carried.apdu)?;
    answer_from(carried.peer, apdu)
}

// Returns the answer that an APDU is, if it is one.
fn answer_from(peer: Peer, apdu: Apdu<'_>) -> Option<Answer<'_>>
    ensures { option_map answer_seen result ≡ answer_in_apdu (station peer) (message apdu.entry) }
{
    let answer = |invoke_id, service, outcome| Answer {
        peer,
        invoke_id,
        service,
        outcome,
    };
    match apdu {
        Apdu::SimpleAck { id, service } => Some(answer(id, Some(service), Outcome::Simple)),
        Apdu::ComplexAck {
            part: None,
            id,
            service,
            body,
        } => Some(answer(id, Some(service), Outcome::Complex(body))),
        Apdu::ComplexAck { id, service, .. } => {
            Some(answer(id, Some(service), Outcome::Segmented))
        }
        Apdu::Error { id, service, body } => Some(answer(id, Some(service), error_outcome(body))),
        Apdu::Reject { id, reason } => Some(answer(id, None, Outcome::Reject(reason))),
        Apdu::Abort {
            server: true,
            id,
            reason,
        } => Some(answer(id, None, Outcome::Abort(reason))),
        _ => None,
    }
}

// Returns how an Error with this body ends a request.
fn error_outcome(body: &[u8]) -> Outcome<'_>
    ensures { outcome_seen result ≡ error_outcome (error_of body.now) }
{
    match read_error(body) {
        Some((class, code)) => Outcome::Error { class, code },
        None => Outcome::BadError,
    }
}
