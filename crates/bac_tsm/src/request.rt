//! An open request, with the datagram that it is sent as.

ghost use Rattle.std.specs.Prelude.{length, suc, ◌<◌, ◌≡◌, ◌≤◌};
ghost use Rattle.bac_pdu.specs.{longest_body, station};
ghost use Rattle.bac_tsm.specs.{client_rules, due_entry, is_due, octets_of, Inner.begun};

use crate::config::Config;
use crate::due::DueEntry;
use crate::limits::LONGEST_DATAGRAM;
use arrayvec::ArrayVec;
use bac_pdu::{Apdu, Peer, wrap_within, write_apdu};
use bac_wire::Frame;
use std::marker::Model;

// A datagram that is kept to be sent.
type Datagram = ArrayVec<u8, LONGEST_DATAGRAM>;

// The code of the longest APDU that a client accepts, 1476 octets (clause 20.1.2.5).
const GREATEST_APDU_CODE: u8 = 5;

/// The parts of a new request: its ticket, its peer, its service, its invoke id, and the clock at which it is sent.
#[derive(Clone, Copy)]
pub(crate) struct Asked {
    pub(crate) ticket: u64,
    pub(crate) peer: Peer,
    pub(crate) service: u8,
    pub(crate) invoke_id: u8,
    pub(crate) clock: u64,
}

/// An open request, with the clock when it was last sent and how many times it was sent again.
#[derive(Drop)]
pub(crate) struct OpenRequest {
    pub(crate) ticket: u64,
    pub(crate) peer: Peer,
    pub(crate) service: u8,
    pub(crate) invoke_id: u8,
    pub(crate) last_sent: u64,
    pub(crate) resends: u8,
    pub(crate) datagram: Datagram,
}

impl Model for OpenRequest {
    ghost use Rattle.{bac_pdu.specs.Peer.station, bac_tsm.specs.Machine.Waiting};

    ghost Value = { Waiting };

    ghost view = { λ r. record {
      request = record {
        ticket = r.ticket;
        peer = station r.peer;
        service = r.service;
        invoke_id = r.invoke_id;
        octets = r.datagram.items;
      };
      last_sent = r.last_sent;
      resends = r.resends;
    } };
}

// A blank for the slots of a list that hold no request.
impl Default for OpenRequest {
    ghost is_default = { λ r. r.request.ticket ≡ 0 };

    fn default() -> Self {
        OpenRequest {
            ticket: 0,
            peer: Peer {
                ip: 0,
                port: 0,
                route: None,
            },
            service: 0,
            invoke_id: 0,
            last_sent: 0,
            resends: 0,
            datagram: Datagram::new(),
        }
    }
}

impl OpenRequest {
    /// Makes this a new request with this body, and writes its datagram in the frame.
    pub(crate) fn begin(&mut self, asked: Asked, body: &[u8], frame: &mut Frame)
        requires { length body.now ≤ longest_body }
        ensures { self.new ≡ begun asked body.now }
    {
        self.ticket = asked.ticket;
        self.peer = asked.peer;
        self.service = asked.service;
        self.invoke_id = asked.invoke_id;
        self.last_sent = asked.clock;
        self.resends = 0;
        write_request(&mut self.datagram, asked, body, frame);
    }

    /// Returns the ticket.
    pub(crate) fn ticket(&self) -> u64
        ensures { result ≡ self.now.request.ticket }
    {
        self.ticket
    }

    /// Returns the invoke id.
    pub(crate) fn invoke_id(&self) -> u8
        ensures { result ≡ self.now.request.invoke_id }
    {
        self.invoke_id
    }

    /// Returns whether the timeout has passed since the request was last sent.
    pub(crate) fn is_due(&self, clock: u64, config: Config) -> bool
        ensures { result ≡ is_due (client_rules config.timeout config.retries) clock self.now }
    {
        clock.saturating_sub(self.last_sent) >= u64::from(config.timeout)
    }

    /// Returns what becomes of the request when it is due.
    pub(crate) fn due_entry(&self, config: Config) -> DueEntry
        ensures { result ≡ due_entry (client_rules config.timeout config.retries) self.now }
    {
        if self.resends < config.retries {
            DueEntry::Resend(self.ticket)
        } else {
            DueEntry::TimedOut(self.ticket)
        }
    }

    /// Records that the request is sent again now.
    pub(crate) fn send_again(&mut self, clock: u64, config: Config)
        requires { self.old.resends < config.retries }
        ensures { self.new ≡ record { request = self.old.request; last_sent = clock; resends = suc self.old.resends } }
    {
        self.last_sent = clock;
        self.resends += 1;
    }
}

// Writes the datagram of a request into the octets (clause 20.1.2, after the headers of Annex J and clause 6), by way
// of the frame. There is room for any route.
fn write_request(datagram: &mut Datagram, asked: Asked, body: &[u8], frame: &mut Frame)
    requires { length body.now ≤ longest_body }
    ensures { datagram.new.items ≡ octets_of (station asked.peer) asked.service body.now asked.invoke_id }
{
    let request = Apdu::Confirmed {
        part: None,
        code: GREATEST_APDU_CODE,
        id: asked.invoke_id,
        service: asked.service,
        body,
    };
    frame.clear();
    write_apdu(frame, &request).unwrap();
    wrap_within(asked.peer, true, frame).unwrap();
    datagram.clear();
    datagram.try_extend_from_slice(frame.as_slice()).unwrap();
}
