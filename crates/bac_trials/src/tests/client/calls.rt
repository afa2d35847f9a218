//! Single calls, and limits.

use crate::tests::client::{ANSWER, VALUE, read};
use crate::tests::{CONTROLLER, READ_PROPERTY, USUAL, is_asking, request, routed};
use bac_pdu::Peer;
use bac_tsm::{Client, Config, DueEntry, Ended, Outcome, SubmitFault};

#[test]
fn a_read_and_its_answer(rt: HostRuntime) {
    let mut client = Client::new(USUAL, 0);
    assert!(&rt; read(&mut client) == Ok(0) && is_asking(&client));
    let (ticket, outcome) = (0, Outcome::Complex(VALUE));
    assert!(&rt; client.datagram(CONTROLLER, ANSWER) == Some(Ended { ticket, outcome }));
    assert!(&rt; client.datagram(CONTROLLER, ANSWER).is_none());
    assert!(&rt; client.to_send(0).is_none() && client.number_of(0).is_none());
    assert!(&rt; client.open_count() == 0);
}

/// The requests that are due at each of these ticks, with the usual settings.
const TICKS: [(u64, &[DueEntry]); 7] = [
    (2999, &[]),
    (3000, &[DueEntry::Resend(0)]),
    (6000, &[DueEntry::Resend(0)]),
    (5, &[]),
    (9000, &[DueEntry::Resend(0)]),
    (12000, &[DueEntry::TimedOut(0)]),
    (15000, &[]),
];

#[test]
fn ticks_send_again_and_end(rt: HostRuntime) {
    let mut client = Client::new(USUAL, 0);
    let _ = read(&mut client);
    for (now, due) in &TICKS {
        assert!(&rt; client.tick(*now).as_slice() == *due, "{now}");
    }
    assert!(&rt; client.clock() == 15000 && client.open_count() == 0);
    assert!(&rt; Config::new(0, 3).is_none() && Config::new(1, 0).is_some());
}

/// Returns the length of the datagram to this peer with the longest body; a body with one octet more is refused.
fn longest(peer: Peer) -> Option<usize> {
    let mut client = Client::new(USUAL, 0);
    if client.submit(peer, READ_PROPERTY, &[7; 477]) != Err(SubmitFault::TooLong)
        || client.submit(peer, READ_PROPERTY, &[7; 476]) != Ok(0)
    {
        return None;
    }
    Some(client.to_send(0)?.1.len())
}

#[test]
fn the_longest_body_and_datagram(rt: HostRuntime) {
    let far = routed(CONTROLLER, 5, &[1, 2, 3, 4, 5, 6, 7]);
    assert!(&rt; longest(CONTROLLER) == Some(486) && longest(far) == Some(497));
}

/// Returns whether the request with this ticket is open with the next higher invoke id, as it was sent.
fn is_open(client: &Client, ticket: u8) -> bool {
    let invoke_id = ticket.wrapping_add(1);
    let sent = request(invoke_id);
    client.to_send(u64::from(ticket)) == Some((CONTROLLER, sent.as_slice()))
        && client.number_of(u64::from(ticket)) == Some(invoke_id)
}

#[test]
fn sixty_four_places_and_the_last_ticket(rt: HostRuntime) {
    let mut client = Client::new(USUAL, 0);
    for ticket in 0..64_u8 {
        assert!(&rt; read(&mut client) == Ok(u64::from(ticket)), "{ticket}");
    }
    assert!(&rt; read(&mut client) == Err(SubmitFault::TableFull) && client.open_count() == 64);
    for ticket in 0..64_u8 {
        assert!(&rt; is_open(&client, ticket), "{ticket}");
    }
    assert!(&rt; client.to_send(64).is_none());
    assert!(&rt; read(&mut Client::new(USUAL, u64::MAX)) == Err(SubmitFault::TicketsSpent));
}
