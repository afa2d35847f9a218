//! Turns of a run: each passes received datagrams and the time to the client, and sends the client's datagrams. All
//! this is printed as the lines of a script, with the client's notes as remarks.

ghost use Rattle.std.specs.{List.flat_map, Option.{option_map, option_to_list}};
ghost use Rattle.std.specs.Prelude.{[], codes, decimal, Err, false, if◌then◌else◌, IfErr, IfOk, List, true, ℕ};
ghost use Rattle.std.specs.Prelude.{◌++◌, ◌∷◌, ◌≡◌, ◌≤◌};
ghost use Rattle.{bac_pdu.specs.station, bac_print.specs.{has_failed, held, Prints, writer_of}};
ghost use Rattle.bac_tsm.specs.{due_notes, Client.end_seen, Machine.datagram_notes, Seen.note_seen};
ghost use Rattle.bac_links.specs.{most_turns, Silence};
ghost use Rattle.bac_run.specs.{Aim, arrival_line, closing_text, due_in, Fresh, has_line, heard_at, is_of_link};
ghost use Rattle.bac_run.specs.{is_reached, most_open, open_in, passed_at, remark, remarks, rest_text, Rests};
ghost use Rattle.bac_run.specs.{seek_text, sends_in, settings_line, settled, time_line, Turns, unsent_text, wait_at};
ghost use Rattle.bac_run.specs.{whole_line, write_failed};
ghost use Rattle.bac_run.specs.Inner.{begins_turn, done, ends_turn, heard_until, hearing, IsOfWait, looking};
ghost use Rattle.bac_run.specs.Inner.{MovesClock, outside, started, telling_in, to_hand, told_in};
ghost use Rattle.bac_run.specs.Inner.Went.{Went};

use crate::fault::RunFault;
use crate::setup::Setup;
use bac_links::{Datagram, Link, ToolFault, most_turns, turn_wait};
use bac_pdu::Peer;
use bac_print::{Page, WriteFailed};
use bac_script::{print_datagram, print_note};
use bac_tsm::{Client, Config, DueEntry, Ended, Note};
use std::io::Write;

// After this many waits in a row the client gets the time anyway.
const LONGEST_ROW: u32 = 256;

// The octets of the longest datagram that has a line: `data `, 21 octets of a peer, a space, and two digits for each
// octet.
const LONGEST_TOLD: usize = 2_034;

// The state of a run, without its streams.
#[derive(Drop)]
pub(crate) struct Runner {
    pub setup: Setup,
    pub client: Client,
    pub datagram: Datagram,
    // How many waits are over since the client last got the time: 0 if that was in the last turn. While answers are
    // expected it is at least 1, so that the next turn only looks.
    pub since_told: u32,
}

// The end of a wait.
#[derive(Clone, Copy)]
pub(crate) enum Until {
    // At most this many requests are open, and no datagram is left to hear; or no request is open.
    FewOpen(usize),
    // The client has the time of the last turn.
    TimeTold,
    // The client has this time or a later one.
    ClockAt(u64),
}

impl Runner {
    /// Takes turns until the wait is over.
    pub fn wait<L: Link, W: Write>(
        &mut self,
        until: Until,
        link: &mut L,
        page: &mut Page<'_, W>,
    ) -> Result<(), RunFault>
        requires { L.has_failed link.old ≡ false }
        ensures fault { L.has_failed link.new ≡ is_of_link result }
        ensures went { Went W.contents self.old self.new page.old page.new (L.seen link.old) (L.seen link.new)
            (λ later. started self.old (Turns until most_turns ∷ later)) (λ later. started self.new later) result [] }
        ensures not_written { result ≡ Err write_failed → has_failed (writer_of page.new) ≡ true }
        ensures reached { IfOk result (λ _. is_reached self.new.client self.new.since_told (Turns until 0) ≡ true) }
        ensures kept { open_in self.new.client ≤ open_in self.old.client }
        ensures cause { IfErr result IsOfWait }
    {
        let mut left = most_turns();
        'turns: while !self.has_reached(until) {
            if left == 0 {
                return Err(RunFault::Link(ToolFault::TurnsSpent));
            }
            let told = self.turn(link, page)?;
            left = left_after(told, left - 1);
        }
        Ok(())
    }

    /// Reads the time for a request. If no request is open, the client gets it. Otherwise, if the client's last time is
    /// older than a tenth of the timeout, turns are taken until the client gets a time.
    pub fn refresh_time<L: Link, W: Write>(
        &mut self,
        link: &mut L,
        page: &mut Page<'_, W>,
    ) -> Result<(), RunFault>
        requires { L.has_failed link.old ≡ false }
        ensures fault { L.has_failed link.new ≡ is_of_link result }
        ensures went { Went W.contents self.old self.new page.old page.new (L.seen link.old) (L.seen link.new)
            (λ later. started self.old (Fresh ∷ later)) (λ later. started self.new later) result [] }
        ensures not_written { result ≡ Err write_failed → has_failed (writer_of page.new) ≡ true }
        ensures kept { open_in self.new.client ≤ open_in self.old.client }
        ensures cause { IfErr result IsOfWait }
    {
        let now = link.now();
        if self.client.open_count() == 0 {
            self.tell_time(now, link, page);
            return Ok(());
        }
        let late = u64::from(self.setup.config.timeout / 10);
        if now.saturating_sub(self.client.clock()) <= late {
            return Ok(());
        }
        self.since_told = self.since_told.max(1);
        self.wait(Until::TimeTold, link, page)
    }

    /// Reads the time, and takes turns until the client gets a time that is this many milliseconds later.
    pub fn rest<L: Link, W: Write>(
        &mut self,
        time: u32,
        link: &mut L,
        page: &mut Page<'_, W>,
    ) -> Result<(), RunFault>
        requires { L.has_failed link.old ≡ false }
        ensures fault { L.has_failed link.new ≡ is_of_link result }
        ensures went { Went W.contents self.old self.new page.old page.new (L.seen link.old) (L.seen link.new)
            (λ later. started self.old (Rests time ∷ later)) (λ later. started self.new later) result [] }
        ensures not_written { result ≡ Err write_failed → has_failed (writer_of page.new) ≡ true }
        ensures cause { IfErr result IsOfWait }
    {
        let now = link.now();
        let until = now.saturating_add(u64::from(time));
        self.wait(Until::ClockAt(until), link, page)
    }

    // Returns whether the wait is over.
    fn has_reached(&self, until: Until) -> bool
        ensures { result ≡ is_reached self.now.client self.now.since_told (Turns until 0) }
    {
        match until {
            Until::FewOpen(most) => self.client.open_count() <= self.most_open(most),
            Until::TimeTold => self.since_told == 0,
            Until::ClockAt(time) => self.client.clock() >= time,
        }
    }

    // Returns how many requests may be open at the end of a wait for at most this many: none if datagrams may be left
    // to hear.
    fn most_open(&self, most: usize) -> usize
        ensures { result ≡ most_open most self.now.since_told }
    {
        if self.since_told == 0 { most } else { 0 }
    }

    // Returns how long a turn that begins now waits, in milliseconds: at most until the first open request is due. It
    // is 0 if a wait is over since the client last got the time, or if answers are expected.
    fn longest_wait(&self, now: u64) -> u32
        ensures { result ≡ wait_at self.now.setup.config.timeout self.now.client self.now.since_told now }
    {
        if self.since_told > 0 {
            return 0;
        }
        let timeout = self.setup.config.timeout;
        turn_wait(timeout).min(due_in(timeout, now, self.client.oldest_send()))
    }

    // Writes all output, unless the turn only looks.
    fn let_out<W: Write>(&self, page: &mut Page<'_, W>)
        ensures printed { Prints W.contents page.old page.new [] }
        ensures out { self.now.since_told ≡ 0 → held page.new ≡ [] }
    {
        if self.since_told == 0 {
            page.turn_in();
        }
    }

    // Takes one turn: output is written before a wait, the time is read, and then comes the wait. Datagrams that were
    // in the socket when the time was read are received before the client gets this time. Returns whether the client
    // got a later time.
    fn turn<L: Link, W: Write>(
        &mut self,
        link: &mut L,
        page: &mut Page<'_, W>,
    ) -> Result<bool, RunFault>
        requires { L.has_failed link.old ≡ false }
        ensures fault { L.has_failed link.new ≡ is_of_link result }
        ensures went { Went W.contents self.old self.new page.old page.new (L.seen link.old) (L.seen link.new)
            (begins_turn self.old) (ends_turn self.new result) result [] }
        ensures not_written { result ≡ Err write_failed → has_failed (writer_of page.new) ≡ true }
        ensures kept { open_in self.new.client ≤ open_in self.old.client }
        ensures moves { IfOk result (λ told. MovesClock told self.old.client self.new.client) }
        ensures cause { IfErr result IsOfWait }
    {
        self.let_out(page);
        if page.failed() {
            return Err(RunFault::from(WriteFailed));
        }
        let now = link.now();
        if self.hear(now, link, page)? {
            return Ok(false);
        }
        Ok(self.tell_time(now, link, page))
    }

    // Passes the client the datagram that the link receives in the turn's wait, if there is one. Returns true if the
    // client does not get the turn's time yet: a datagram came, and others may follow; or a wait is over, and the time
    // is old.
    fn hear<L: Link, W: Write>(
        &mut self,
        now: u64,
        link: &mut L,
        page: &mut Page<'_, W>,
    ) -> Result<bool, RunFault>
        requires link { L.has_failed link.old ≡ false }
        requires sound { has_failed (writer_of page.old) ≡ false }
        requires out { self.old.since_told ≡ 0 → held page.old ≡ [] }
        ensures fault { L.has_failed link.new ≡ is_of_link result }
        ensures went { Went W.contents self.old self.new page.old page.new (L.seen link.old) (L.seen link.new)
            (λ aims. looking self.old (now, aims)) (λ aims. hearing self.new result (now, aims)) result [] }
        ensures not_written { result ≡ Err write_failed → has_failed (writer_of page.new) ≡ true }
        ensures kept { open_in self.new.client ≤ open_in self.old.client }
        ensures still { MovesClock false self.old.client self.new.client }
        ensures cause { IfErr result IsOfWait }
    {
        let wait_ms = self.longest_wait(now);
        let from = match link.receive(wait_ms, &mut self.datagram) {
            Ok(Some(from)) => from,
            Ok(None) => return Ok(self.passes(wait_ms)),
            Err(_) => return Err(RunFault::Link(ToolFault::ReceiveFailed)),
        };
        let octets = self.datagram.as_slice();
        if !has_line(octets.len()) {
            return Ok(self.defers());
        }
        print_arrival(page, from, octets);
        remark_end(page, self.client.datagram(from, octets));
        Ok(self.defers())
    }

    // Counts a wait that received nothing. Returns true if the client does not get the time yet, but after a look.
    fn passes(&mut self, wait_ms: u32) -> bool
        ensures same { self.new ≡ record self.old { since_told = self.new.since_told } }
        ensures passes { (time : ℕ) (aims : List Aim)
            → settled (passed_at (outside self.old aims) time wait_ms Silence) ≡ heard_until self.new result time aims }
    {
        wait_ms > 0 && self.defers()
    }

    // Counts a wait. Returns true if the client does not get the time yet: too few waits are over.
    fn defers(&mut self) -> bool
        ensures same { self.new ≡ record self.old { since_told = self.new.since_told } }
        ensures defers { (time : ℕ) (aims : List Aim)
            → settled (heard_at (outside self.old aims) time) ≡ heard_until self.new result time aims }
    {
        self.since_told = self.since_told.saturating_add(1);
        self.since_told < LONGEST_ROW
    }

    // Gives the client the time if it is later than the last, and sends what is due then. Returns whether it was later.
    fn tell_time<L: Link, W: Write>(
        &mut self,
        now: u64,
        link: &mut L,
        page: &mut Page<'_, W>,
    ) -> bool
        requires { L.has_failed link.old ≡ false }
        ensures sound { L.has_failed link.new ≡ false }
        ensures went { Went W.contents self.old self.new page.old page.new (L.seen link.old) (L.seen link.new)
            (telling_in self.old now) (told_in self.new result) done [] }
        ensures kept { open_in self.new.client ≤ open_in self.old.client }
        ensures moves { MovesClock result self.old.client self.new.client }
        ensures told { self.new.since_told ≡ 0 }
    {
        self.since_told = 0;
        if now <= self.client.clock() {
            return false;
        }
        let due = self.client.tick(now);
        print_time(page, now);
        remark_due(page, &self.client, due.as_slice());
        self.send_due(due.as_slice(), link, page);
        true
    }

    // Sends the datagrams that are due.
    fn send_due<L: Link, W: Write>(&self, due: &[DueEntry], link: &mut L, page: &mut Page<'_, W>)
        requires { L.has_failed link.old ≡ false }
        ensures sound { L.has_failed link.new ≡ false }
        ensures went { Went W.contents self.now self.now page.old page.new (L.seen link.old) (L.seen link.new)
            (λ later. to_hand self.now (sends_in (flat_map (due_notes self.now.client.state) due.now), later))
            (started self.now) done [] }
    {
        for entry in due {
            self.send_any(self.client.due(*entry), link, page);
        }
    }

    /// Sends the datagram of a note, if the note is on a send.
    pub fn send_any<L: Link, W: Write>(
        &self,
        note: Option<Note<'_>>,
        link: &mut L,
        page: &mut Page<'_, W>,
    )
        requires { L.has_failed link.old ≡ false }
        ensures sound { L.has_failed link.new ≡ false }
        ensures went { Went W.contents self.now self.now page.old page.new (L.seen link.old) (L.seen link.new)
            (λ (later, aims). to_hand self.now
            (sends_in (option_to_list (option_map note_seen note.entry)) ++ later, aims))
            (to_hand self.now) done [] }
    {
        if let Some((to, octets)) = datagram_in(note) {
            self.send(to, octets, link, page);
        }
    }

    /// Sends a datagram. If the system refuses it, it is lost, and a remark says so.
    pub fn send<L: Link, W: Write>(
        &self,
        to: Peer,
        octets: &[u8],
        link: &mut L,
        page: &mut Page<'_, W>,
    )
        requires { L.has_failed link.old ≡ false }
        ensures sound { L.has_failed link.new ≡ false }
        ensures went { Went W.contents self.now self.now page.old page.new (L.seen link.old) (L.seen link.new)
            (λ (later, aims). to_hand self.now ((station to, octets.now) ∷ later, aims)) (to_hand self.now) done [] }
    {
        if !link.offer(to, octets) {
            remark_unsent(page, to, octets);
        }
    }
}

/// Prints the settings of the client.
#[tactic(auto, using(bac_print::proofs::Printed::printing))]
pub(crate) fn print_settings<W: Write>(page: &mut Page<'_, W>, config: Config)
    ensures { Prints W.contents page.old page.new (settings_line config.timeout config.retries) }
{
    page.print(b"client ");
    page.print_number(config.timeout.into());
    page.print(b" ");
    print_retries(page, config.retries);
}

/// Prints a line of the input. A last line without a line feed gets one, and before that one more carriage return if
/// the line ends with one.
#[tactic(auto, using(bac_print::proofs::Printed::printing))]
pub(crate) fn print_line<W: Write>(page: &mut Page<'_, W>, line: &[u8])
    ensures { Prints W.contents page.old page.new (whole_line line.now) }
{
    page.print(line);
    match line.last() {
        Some(b'\n') => {}
        Some(b'\r') => page.print(b"\r\n"),
        _ => page.print(b"\n"),
    }
}

/// Prints a remark: this Who-Is was sent.
#[tactic(auto, using(bac_print::proofs::Printed::printing))]
pub(crate) fn remark_seek<W: Write>(page: &mut Page<'_, W>, to: Peer, octets: &[u8])
    ensures { Prints W.contents page.old page.new (codes "# " ++ seek_text (station to) octets.now) }
{
    page.print(b"# who ");
    print_datagram(page, to, octets);
}

// Prints a remark: this datagram was refused.
#[tactic(auto, using(bac_print::proofs::Printed::printing))]
fn remark_unsent<W: Write>(page: &mut Page<'_, W>, to: Peer, octets: &[u8])
    ensures { Prints W.contents page.old page.new (codes "# " ++ unsent_text (station to) octets.now) }
{
    page.print(b"# unsent ");
    print_datagram(page, to, octets);
}

/// Prints a remark: this wait is over.
#[tactic(auto, using(bac_print::proofs::Printed::printing))]
pub(crate) fn remark_rest<W: Write>(page: &mut Page<'_, W>, time: u32)
    ensures { Prints W.contents page.old page.new (codes "# " ++ rest_text time) }
{
    page.print(b"# wait ");
    page.print_number(time.into());
    page.print(b"\n");
}

/// Prints the closing remark of a journal.
#[tactic(auto, using(bac_print::proofs::Printed::printing))]
pub(crate) fn remark_closing<W: Write>(page: &mut Page<'_, W>)
    ensures { Prints W.contents page.old page.new (codes "# " ++ closing_text) }
{
    page.print(b"# end of the run\n");
}

/// Prints a note as a remark.
#[tactic(auto, using(bac_print::proofs::Printed::printing))]
pub(crate) fn remark<W: Write>(page: &mut Page<'_, W>, note: Note<'_>)
    ensures { Prints W.contents page.old page.new (remark (note_seen note.entry)) }
{
    page.print(b"# ");
    print_note(page, note);
}

/// Prints a note as a remark, if there is one.
#[tactic(auto, using(bac_print::proofs::Printed::printing, std::proofs::lemmas::Grind::common_steps))]
pub(crate) fn remark_any<W: Write>(page: &mut Page<'_, W>, note: Option<Note<'_>>)
    ensures { Prints W.contents page.old page.new (remarks (option_to_list (option_map note_seen note.entry))) }
{
    if let Some(note) = note {
        remark(page, note);
    }
}

// Returns how long it takes from this time until the first open request is due, if it was last sent then. If none is
// open, a turn ends before that.
fn due_in(timeout: u32, now: u64, sent: Option<u64>) -> u32
    ensures { result ≡ due_in timeout now sent }
{
    match sent {
        None => turn_wait(timeout),
        Some(sent) => {
            let passed = now.saturating_sub(sent).min(u64::from(timeout));
            timeout - passed as u32
        }
    }
}

// Returns the datagram of a note on a send, and its receiver.
fn datagram_in(note: Option<Note<'_>>) -> Option<(Peer, &[u8])>
    ensures { option_to_list (option_map (λ to. (station to.0, to.1.now)) result)
        ≡ sends_in (option_to_list (option_map note_seen note.entry)) }
{
    match note? {
        Note::Sent(_, to, octets) => Some((to, octets)),
        Note::Refused(_) | Note::Done(_) | Note::Dropped | Note::TimedOut(_) => None,
    }
}

// Returns how many turns are left after a turn: all again if the client got a time, otherwise this many.
fn left_after(told: bool, left: u32) -> u32
    ensures { result ≡ (if told then most_turns else left) }
{
    if told { most_turns() } else { left }
}

// Returns whether a datagram of this length has a line in a script.
fn has_line(octets: usize) -> bool
    ensures { result ≡ has_line octets }
{
    octets > 0 && octets <= LONGEST_TOLD
}

// Prints the line of a datagram.
#[tactic(auto, using(bac_print::proofs::Printed::printing))]
fn print_arrival<W: Write>(page: &mut Page<'_, W>, from: Peer, octets: &[u8])
    ensures { Prints W.contents page.old page.new (arrival_line (station from) octets.now) }
{
    page.print(b"data ");
    print_datagram(page, from, octets);
}

// Prints the line of a time.
#[tactic(auto, using(bac_print::proofs::Printed::printing))]
fn print_time<W: Write>(page: &mut Page<'_, W>, now: u64)
    ensures { Prints W.contents page.old page.new (time_line now) }
{
    page.print(b"tick ");
    page.print_number(now);
    page.print(b"\n");
}

// Prints the result of a datagram as a remark.
#[tactic(auto, using(bac_print::proofs::Printed::printing, std::proofs::lemmas::Grind::common_steps))]
fn remark_end<W: Write>(page: &mut Page<'_, W>, ended: Option<Ended<'_>>)
    ensures { Prints W.contents page.old page.new (remarks (datagram_notes (option_map end_seen ended.entry))) }
{
    remark(page, ended.map_or(Note::Dropped, Note::Done));
}

// Prints remarks on the requests that were due, in their order.
#[tactic(auto, using(bac_print::proofs::Printed::printing, std::proofs::lemmas::Grind::common_steps, std::proofs::lemmas::List::take_more))]
fn remark_due<W: Write>(page: &mut Page<'_, W>, client: &Client, due: &[DueEntry])
    ensures { Prints W.contents page.old page.new (remarks (flat_map (due_notes client.now.state) due.now)) }
{
    for entry in due {
        remark_any(page, client.due(*entry));
    }
}

// Prints the retries of a client, and its first ticket.
#[tactic(auto, using(bac_print::proofs::Printed::printing))]
fn print_retries<W: Write>(page: &mut Page<'_, W>, retries: u8)
    ensures { Prints W.contents page.old page.new (decimal retries ++ codes " 0\n") }
{
    page.print_number(retries.into());
    page.print(b" 0\n");
}
