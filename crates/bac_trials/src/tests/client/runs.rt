//! Whole runs.

use crate::tests::client::notebook::Notebook;
use crate::tests::client::{ANSWER, VALUE, read};
use crate::tests::{BODY, CONTROLLER, READ_PROPERTY, USUAL};
use bac_tsm::Event::{self, Tick as At};
use bac_tsm::{Client, Ended, Note, Outcome, SubmitFault, run};

const ASK: Event<'static> = Event::Ask(CONTROLLER, READ_PROPERTY, &BODY);

const LONG: Event<'static> = Event::Ask(CONTROLLER, READ_PROPERTY, &[7; 477]);

const DATA: Event<'static> = Event::Data(CONTROLLER, ANSWER);

/// The sends of the first request and of the second.
const OLDER: &[u8] = b"\x81\x0a\x00\x11\x01\x04\x00\x05\x01\x0c\x0c\x00\x00\x00\x05\x19\x55";

const YOUNGER: &[u8] = b"\x81\x0a\x00\x11\x01\x04\x00\x05\x02\x0c\x0c\x00\x00\x00\x05\x19\x55";

/// The sends of the requests with these tickets; 0, 5 and 7 are the first of a run.
const OF_0: Note<'static> = Note::Sent(0, CONTROLLER, OLDER);

const OF_5: Note<'static> = Note::Sent(5, CONTROLLER, OLDER);

const OF_6: Note<'static> = Note::Sent(6, CONTROLLER, YOUNGER);

const OF_7: Note<'static> = Note::Sent(7, CONTROLLER, OLDER);

const OF_8: Note<'static> = Note::Sent(8, CONTROLLER, YOUNGER);

/// Returns the end of the request with this ticket by its answer, and the end of the first one without an answer.
fn done(ticket: u64) -> Note<'static> {
    let outcome = Outcome::Complex(VALUE);
    Note::Done(Ended { ticket, outcome })
}

const OVER: Note<'static> = Note::TimedOut(0);

const LATE: Note<'static> = Note::Dropped;

const FAULT: Note<'static> = Note::Refused(SubmitFault::TooLong);

/// Runs the events. Returns `None` if a watcher with this room does not keep the first of these notes, at these
/// positions, or is wrong about dropping one, or if the client has another number of open requests, or another clock,
/// at the end.
fn run_watched<'n>(
    room: usize,
    (first, events): (u64, &[Event<'_>]),
    notes: &'n [(usize, Note<'n>)],
    (open, clock): (usize, u64),
) -> Option<Client> {
    let mut book = Notebook {
        wanted: notes,
        room,
        taken: 0,
        has_others: false,
        has_dropped: false,
    };
    let client = run(USUAL, first, events, &mut book);
    if !book.is_right() || client.open_count() != open || client.clock() != clock {
        return None;
    }
    Some(client)
}

#[test]
fn no_event_and_a_read_and_its_answers(rt: HostRuntime) {
    assert!(&rt; run_watched(16, (0, &[]), &[], (0, 0)).is_some());
    let events = [ASK, At(2999), DATA, DATA, At(6000)];
    let notes = [(0, OF_0), (2, done(0)), (3, LATE)];
    assert!(&rt; run_watched(16, (0, &events), &notes, (0, 6000)).is_some());
}

// One leap of the clock sends once, and the next wait counts from the leap.
#[test]
fn a_leap_of_the_clock(rt: HostRuntime) {
    let [before, due, leap, back] = [At(2999), At(3000), At(60000), At(5)];
    let [wait, again, over] = [At(62999), At(63000), At(66000)];
    let events = [ASK, before, due, leap, back, wait, again, over];
    let notes = [(0, OF_0), (2, OF_0), (3, OF_0), (6, OF_0), (7, OVER)];
    assert!(&rt; run_watched(16, (0, &events), &notes, (0, 66000)).is_some());
}

/// Returns whether the client accepts a read, with the ticket 1 and the invoke id 2.
fn takes_another(client: Option<Client>) -> bool {
    let Some(mut client) = client else {
        return false;
    };
    read(&mut client) == Ok(1) && client.number_of(1) == Some(2)
}

// The client is the same without the watcher, however few notes the watcher keeps.
#[test]
fn retries_and_watchers_of_few_notes(rt: HostRuntime) {
    let events = [ASK, At(2999), At(3000), At(6000), At(9000), At(12000)];
    let notes = [(0, OF_0), (2, OF_0), (3, OF_0), (4, OF_0), (5, OVER)];
    for room in &[0, 2, 4, 5, 16] {
        let client = run_watched(*room, (0, &events), &notes, (0, 12000));
        assert!(&rt; takes_another(client), "{room}");
    }
}

// The younger of two requests is due before the older, but its note comes second.
#[test]
fn two_are_due_at_one_tick(rt: HostRuntime) {
    let events = [ASK, At(1000), ASK, At(3000), At(6000)];
    let notes = [(0, OF_7), (2, OF_8), (3, OF_7), (4, OF_7), (4, OF_8)];
    assert!(&rt; run_watched(16, (7, &events), &notes, (2, 6000)).is_some());
}

/// Returns whether the client has the younger request open, and gives the next request the next ticket and invoke id.
fn goes_on(client: Option<Client>) -> bool {
    let Some(mut client) = client else {
        return false;
    };
    client.number_of(5).is_none()
        && client.number_of(6) == Some(2)
        && client.to_send(6) == Some((CONTROLLER, YOUNGER))
        && client.tick(9006).as_slice().is_empty()
        && client.tick(9007).as_slice().len() == 1
        && read(&mut client) == Ok(7)
        && client.number_of(7) == Some(3)
}

// A refusal, two requests, the end of the older, and the retries of the younger.
#[test]
fn what_is_kept_without_notes(rt: HostRuntime) {
    let events = [At(7), ASK, LONG, ASK, DATA, DATA, At(3007), At(6007)];
    let (first, fault, younger) = ((1, OF_5), (2, FAULT), (3, OF_6));
    let (end, late, again, last) = ((4, done(5)), (5, LATE), (6, OF_6), (7, OF_6));
    let notes = [first, fault, younger, end, late, again, last];
    for room in &[2, 16] {
        let client = run_watched(*room, (5, &events), &notes, (1, 6007));
        assert!(&rt; goes_on(client), "{room}");
    }
}
