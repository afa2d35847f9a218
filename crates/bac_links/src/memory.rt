//! A link in memory.
ghost use Rattle.std.specs.Option.{option_flatten, option_map, option_to_list};
ghost use Rattle.std.specs.Prelude.{[], false, if◌then◌else◌, IfNone, IfOk, IfSome, is_err, IsTrue, length, List};
ghost use Rattle.std.specs.Prelude.{map, MatchOption, None, OnErr, OnOk, slice_get, Some, ◌++◌, ◌∷◌, ◌≡◌};
ghost use Rattle.{std.specs.Result.result_ok, bac_pdu.specs.station, bac_links.specs.{account_of, account_with}};
ghost use Rattle.bac_links.specs.{behind_wait, Gains, heard_by, heard_next, Offered, posted, Scene, scene_of_kept};
ghost use Rattle.bac_links.specs.{scene_of_step, sending_of, sent_by, Timed, unrouted, Waited, HasPlayed.HasPlayed};

use crate::datagram::Datagram;
use crate::history::{EntryNote, History};
use crate::link::{Link, LinkFault};
use bac_pdu::Peer;
use std::alloc::{AllocError, Allocator, Global};

/// One receive of a link in memory.
#[derive(Clone, Copy, Debug)]
pub enum Step<'a> {
    /// Nothing comes, and this is the time then.
    Quiet(u64),
    /// A datagram comes at this time. A datagram of more than 2,047 octets is ignored, and a route of its peer is
    /// dropped.
    Packet(u64, Peer, &'a [u8]),
    /// The receive fails, and the time does not change.
    Broken,
}

// A step with octets of its own.
#[derive(Drop)]
enum Kept<A: Allocator> {
    Quiet(u64),
    Packet(u64, Peer, Vec<u8, A>),
    Broken,
}

// A send that succeeded.
#[derive(Drop)]
struct Record<A: Allocator> {
    time: u64,
    to: Peer,
    octets: Vec<u8, A>,
}

/// A link that plays the steps from which it was made, and records its sends. Its time is 0 at first. Once all steps
/// are played, each wait passes in silence.
#[derive(Drop)]
pub struct MemoryLink<A: Allocator = Global> {
    alloc: A,
    // The steps, and the number of the next one, which is past the end once all are played.
    steps: Vec<Kept<A>, A>,
    next: usize,
    time: u64,
    sent: Vec<Record<A>, A>,
    fail_send: Option<u32>,
    failed: bool,
    // The calls of the link, with their answers.
    history: History,
    ghost stands: { ∥ HasPlayed (map scene_of_kept steps.items) history.items next time
        (map sending_of sent.items) ∥₁ },
}

impl<A: Allocator + Copy> MemoryLink<A> {
    /// Returns a link with these steps. The send with the number `fail_send`, from 0, fails. If it is an offer, it is
    /// refused, and the next one is not.
    ///
    /// # Errors
    ///
    /// `LinkFault` if there is no memory for the steps.
    pub fn new(alloc: A, steps: &[Step<'_>], fail_send: Option<u32>) -> Result<Self, LinkFault>
        ensures made { IfOk result (λ link. ⟦<MemoryLink<A> as Link>⟧.seen link
            ≡ account_of (map scene_of_step steps.now) []) }
        ensures fails_at { IfOk result (λ link. link.fail_send ≡ fail_send) }
        ensures sound { IfOk result (λ link. ⟦<MemoryLink<A> as Link>⟧.has_failed link ≡ false) }
    {
        Ok(MemoryLink {
            alloc,
            steps: keep_all(alloc, steps).map_err(|_| LinkFault)?,
            next: 0,
            time: 0,
            sent: Vec::new(alloc),
            fail_send,
            failed: false,
            history: History::new(),
        })
    }
}

impl<A: Allocator> MemoryLink<A> {
    /// Returns the send with this number among those that succeeded, from 0, with its time.
    pub fn sent(&self, n: usize) -> Option<(u64, Peer, &[u8])>
        ensures { MatchOption result
            (slice_get (sent_by (account_with self.now.steps.items self.now.history.items)) n ≡ None)
            (λ (time, to, octets). slice_get (sent_by (account_with self.now.steps.items self.now.history.items)) n
            ≡ Some (record { time = time; to = station to; octets = octets.now })) }
    {
        sending(&self.sent, n)
    }

    /// Ends the link, and returns its calls and answers.
    pub(crate) fn into_history(self) -> History
        ensures { result ≡ self.history }
    {
        self.history
    }
}

impl<A: Allocator + Copy> Link for MemoryLink<A> {
    ghost Origin = { List Scene };

    ghost seen = { λ link. account_with link.steps.items link.history.items };

    ghost has_failed = { λ link. link.failed };

    /// Fails if it has the number that was given to `new`, or if there is no memory for its record.
    fn send(&mut self, to: Peer, octets: &[u8]) -> Result<(), LinkFault>
        requires { self.old.failed ≡ false }
        ensures fault { self.new.failed ≡ is_err result }
        ensures told { Gains (posted result (station to) octets.now)
            (account_with self.old.steps.items self.old.history.items)
            (account_with self.new.steps.items self.new.history.items) }
        ensures its_number { self.old.fail_send
            ≡ Some (length (sent_by (account_with self.old.steps.items self.old.history.items)))
            → IsTrue (is_err result) }
        ensures fails_at { self.new.fail_send ≡ self.old.fail_send }
    {
        let sent = keep_sent(
            self.alloc,
            &mut self.sent,
            self.fail_send,
            self.time,
            to,
            octets,
        );
        self.failed = sent.is_err();
        self.history.push(&EntryNote::Sent(&sent, to, octets));
        sent
    }

    /// Refuses the datagram if it has the number that was given to `new`, or if there is no memory for its record.
    /// After a refusal no number fails any more.
    fn offer(&mut self, to: Peer, octets: &[u8]) -> bool
        requires { self.old.failed ≡ false }
        ensures fault { self.new.failed ≡ false }
        ensures told { Gains (Offered (station to) octets.now result)
            (account_with self.old.steps.items self.old.history.items)
            (account_with self.new.steps.items self.new.history.items) }
        ensures its_number { self.old.fail_send
            ≡ Some (length (sent_by (account_with self.old.steps.items self.old.history.items))) → result ≡ false }
        ensures fails_at { self.new.fail_send ≡ (if result then self.old.fail_send else None) }
    {
        let sent = keep_sent(
            self.alloc,
            &mut self.sent,
            self.fail_send,
            self.time,
            to,
            octets,
        );
        let taken = sent.is_ok();
        if !taken {
            self.fail_send = None;
        }
        self.history.push(&EntryNote::Offered(taken, to, octets));
        taken
    }

    fn receive(&mut self, wait_ms: u32, datagram: &mut Datagram) -> Result<Option<Peer>, LinkFault>
        requires { self.old.failed ≡ false }
        ensures fault { self.new.failed ≡ is_err result }
        ensures plain { IfOk result (λ heard. IfSome heard (λ from. from.route ≡ None)) }
        ensures kept { IfNone (option_flatten (result_ok result)) (datagram.new ≡ datagram.old) }
        ensures told { Gains (Waited wait_ms (heard_by result datagram.new))
            (account_with self.old.steps.items self.old.history.items)
            (account_with self.new.steps.items self.new.history.items) }
        ensures fails_at { self.new.fail_send ≡ self.old.fail_send }
    {
        let step = step_at(&self.steps, self.next);
        let heard = play(step, wait_ms, &mut self.time, datagram);
        self.next = self.next.saturating_add(1);
        self.failed = heard.is_err();
        let note = EntryNote::Waited(wait_ms, &heard, datagram);
        self.history.push(&note);
        heard
    }

    fn now(&mut self) -> u64
        ensures fault { self.new.failed ≡ self.old.failed }
        ensures told { Gains (Timed result) (account_with self.old.steps.items self.old.history.items)
            (account_with self.new.steps.items self.new.history.items) }
        ensures fails_at { self.new.fail_send ≡ self.old.fail_send }
    {
        self.history.push(&EntryNote::Timed(self.time));
        self.time
    }

    fn failed(&self) -> bool {
        self.failed
    }
}

// Returns the steps with copies of their octets.
fn keep_all<A: Allocator + Copy>(
    alloc: A,
    steps: &[Step<'_>],
) -> Result<Vec<Kept<A>, A>, AllocError>
    ensures { IfOk result (λ kept. map scene_of_kept kept.items ≡ map scene_of_step steps.now) }
{
    let mut kept = Vec::new(alloc);
    for step in steps {
        kept.push(keep(alloc, step)?)?;
    }
    Ok(kept)
}

// Returns the step with a copy of its octets.
fn keep<A: Allocator>(alloc: A, step: &Step<'_>) -> Result<Kept<A>, AllocError>
    ensures { IfOk result (λ kept. scene_of_kept kept ≡ scene_of_step step.now) }
{
    Ok(match step {
        Step::Quiet(time) => Kept::Quiet(*time),
        Step::Packet(time, from, octets) => {
            Kept::Packet(*time, *from, Vec::from_slice(alloc, octets)?)
        }
        Step::Broken => Kept::Broken,
    })
}

// Returns the contents of the record with this number.
fn sending<A: Allocator>(sent: &[Record<A>], n: usize) -> Option<(u64, Peer, &[u8])>
    ensures { MatchOption result (slice_get (map sending_of sent.now) n ≡ None)
        (λ (time, to, octets). slice_get (map sending_of sent.now) n
        ≡ Some (record { time = time; to = station to; octets = octets.now })) }
{
    let record = sent.get(n)?;
    Some((record.time, record.to, record.octets.as_slice()))
}

// Records a datagram as sent at this time, unless it has the number of the send that fails, or there is no memory.
fn keep_sent<A: Allocator + Copy>(
    alloc: A,
    sent: &mut Vec<Record<A>, A>,
    fail_send: Option<u32>,
    time: u64,
    to: Peer,
    octets: &[u8],
) -> Result<(), LinkFault>
    ensures ok { OnOk result (map sending_of sent.new.items ≡ map sending_of sent.old.items
        ++ record { time = time; to = station to; octets = octets.now } ∷ []) }
    ensures err { OnErr result (map sending_of sent.new.items ≡ map sending_of sent.old.items) }
    ensures its_number { fail_send ≡ Some (length sent.old.items) → IsTrue (is_err result) }
{
    let number = sent.len() as u64;
    if fail_send.map(u64::from) == Some(number) {
        return Err(LinkFault);
    }
    let octets = Vec::from_slice(alloc, octets).map_err(|_| LinkFault)?;
    sent.push(Record { time, to, octets })
        .map_err(|_| LinkFault)?;
    Ok(())
}

// Returns the step with this number, its octets lent.
fn step_at<A: Allocator>(steps: &[Kept<A>], number: usize) -> Option<Step<'_>>
    ensures { option_map scene_of_step result ≡ slice_get (map scene_of_kept steps.now) number }
{
    Some(match steps.get(number)? {
        Kept::Quiet(at) => Step::Quiet(*at),
        Kept::Packet(at, from, octets) => Step::Packet(*at, *from, octets.as_slice()),
        Kept::Broken => Step::Broken,
    })
}

// Plays this step, if there is one: returns what the wait receives, and sets the time.
fn play(
    step: Option<Step<'_>>,
    wait_ms: u32,
    time: &mut u64,
    datagram: &mut Datagram,
) -> Result<Option<Peer>, LinkFault>
    ensures heard { heard_by result datagram.new ≡ heard_next (option_to_list (option_map scene_of_step step.entry)) }
    ensures time { time.new
        ≡ (behind_wait wait_ms (option_to_list (option_map scene_of_step step.entry)) time.old).time }
    ensures plain { IfOk result (λ heard. IfSome heard (λ from. from.route ≡ None)) }
    ensures kept { IfNone (option_flatten (result_ok result)) (datagram.new ≡ datagram.old) }
{
    match step {
        None => {
            *time = time.saturating_add(u64::from(wait_ms));
            Ok(None)
        }
        Some(Step::Quiet(at)) => {
            *time = at;
            Ok(None)
        }
        Some(Step::Packet(at, from, octets)) => {
            *time = at;
            if datagram.set(octets) {
                Ok(Some(without_route(from)))
            } else {
                Ok(None)
            }
        }
        Some(Step::Broken) => Err(LinkFault),
    }
}

// Returns the peer's address and port.
fn without_route(peer: Peer) -> Peer
    ensures same { station result ≡ unrouted (station peer) }
    ensures plain { result.route ≡ None }
{
    Peer {
        ip: peer.ip,
        port: peer.port,
        route: None,
    }
}
