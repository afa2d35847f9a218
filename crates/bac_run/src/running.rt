//! A run of many requests over one link.

ghost use Rattle.std.specs.Prelude.{[], Err, false, IfErr, IfOk, IfSome, Ok, true, ◌-◌, ◌<◌, ◌↔◌, ◌∷◌, ◌≡◌, ◌≢◌};
ghost use Rattle.{bac_wire.specs.result_seen, bac_pdu.specs.station, bac_links.specs.most_turns};
ghost use Rattle.bac_script.specs.{declared.tracing.TraceFault.TheVariants.WriteFailed, LineSeen.line_seen};
ghost use Rattle.{bac_tsm.specs.Ask, bac_print.specs.{has_failed, held, Prints, writer_of}, bac_run.specs.acts_of_line};
ghost use Rattle.bac_run.specs.{act_of, aims_for, Asked, Does, ending, Ends, FewOpen, Fresh, is_of_link, IsGood};
ghost use Rattle.bac_run.specs.{IsOver, IsOverAt, open_in, Paused, room_for, Runs, said_of, since_asked, taking};
ghost use Rattle.bac_run.specs.{Turns, whole_line};
ghost use Rattle.bac_run.specs.{Rested, Rests, Inner.{done, IsOfWait, own_seen, RunsOn, started}};
ghost use Rattle.bac_run.specs.{write_failed, declared.own.Own.TheVariants.Seek, Inner.{stopped, Went.Went}};
ghost use Rattle.bac_script.specs.declared.line.LineFault.TheVariants.{Bad};

use crate::fault::RunFault;
use crate::own::{Own, read_own, who_is};
use crate::setup::Setup;
use crate::turns::{
    Runner, Until, print_line, print_settings, remark, remark_any, remark_closing, remark_rest,
    remark_seek,
};
use bac_links::{Datagram, Link};
use bac_pdu::{Peer, WRITE_PROPERTY, WhoIs};
use bac_print::{Checked, Page};
use bac_script::{Chunk, Line, LineFault, LineRoom, Reading, TraceEnd, TraceFault, read_line};
use bac_text::{LONGEST_LINE, Reach};
use bac_tsm::{Client, Event, Note, SubmitFault};
use std::io::{Read, Write};

/// Makes the requests of the reader's lines, and prints their journal.
pub fn run_requests<L: Link, R: Read, W: Write>(
    setup: Setup,
    link: &mut L,
    reader: &mut Checked<R>,
    writer: &mut Checked<W>,
) -> Result<TraceEnd, RunFault>
    requires link { L.has_failed link.old ≡ false }
    requires reader { has_failed reader.old ≡ false }
    requires writer { has_failed writer.old ≡ false }
    ensures runs { Runs R.remaining W.contents setup reader.old reader.new writer.old writer.new (L.seen link.old)
        (L.seen link.new) result }
    ensures link_fault { result ≢ Err write_failed → L.has_failed link.new ≡ is_of_link result }
    ensures write_fault { (has_failed writer.new ≡ true) ↔ (result ≡ Err write_failed) }
{
    let mut page = Page::folding(writer);
    let answer = run_lines(setup, link, reader, &mut page);
    page.finish()?;
    answer
}

// Makes the requests of the lines. At the end some of the journal may still be on the page.
fn run_lines<L: Link, R: Read, W: Write>(
    setup: Setup,
    link: &mut L,
    reader: &mut Checked<R>,
    page: &mut Page<'_, W>,
) -> Result<TraceEnd, RunFault>
    requires link { L.has_failed link.old ≡ false }
    requires reader { has_failed reader.old ≡ false }
    requires page { held page.old ≡ [] }
    ensures fault { L.has_failed link.new ≡ is_of_link result }
    ensures runs { RunsOn R.remaining W.contents setup reader.old reader.new page.old page.new (L.seen link.old)
        (L.seen link.new) result }
    ensures not_written { result ≡ Err write_failed → has_failed (writer_of page.new) ≡ true }
{
    let mut chunk = Chunk::new();
    let mut room = LineRoom::new();
    let mut run = Runner {
        setup,
        client: Client::new(setup.config, 0),
        datagram: Datagram::new(),
        since_told: 0,
    };
    let mut lines = 0;
    print_settings(page, setup.config);
    'lines: loop {
        let next = chunk.next_line(reader, page)?;
        if next.reading == Reading::Failed {
            return Err(run.stop(TraceFault::ReadFailed, link, page));
        }
        if next.length == 0 {
            return run.end(lines, link, page);
        }
        lines += 1;
        run.take_line(chunk.front(next.length), lines, &mut room, link, page)?;
        run.make_room(link, page)?;
        if next.reading == Reading::AtEnd {
            return run.end(lines, link, page);
        }
        chunk.skip(next.length);
    }
}

impl Runner {
    // Does what a line asks for.
    #[tactic(auto, using(std::proofs::lemmas::List::append_assoc))]
    fn take_line<L: Link, W: Write>(
        &mut self,
        line: &[u8],
        number: u64,
        room: &mut LineRoom,
        link: &mut L,
        page: &mut Page<'_, W>,
    ) -> Result<(), RunFault>
        requires link { L.has_failed link.old ≡ false }
        requires room { open_in self.old.client < self.old.setup.window }
        ensures fault { L.has_failed link.new ≡ is_of_link result }
        ensures went { Went W.contents self.old self.new page.old page.new (L.seen link.old) (L.seen link.new)
            (λ later. started self.old (aims_for (acts_of_line line.now) self.old.setup.window number line.now later))
            (λ later. started self.new (taking self.old.setup.window number later)) result [] }
        ensures not_written { result ≡ Err write_failed → has_failed (writer_of page.new) ≡ true }
        ensures over { IfErr result (λ fault. IsOverAt fault self.new.client) }
        ensures good { IfOk result (λ _. IsGood line.now) }
    {
        let bad = TraceFault::BadLine(number);
        match read_short_line(line, room) {
            Ok(Line::Blank) => self.pause(link, page),
            Ok(Line::Remark) => Ok(()),
            Ok(Line::Happens(Event::Ask(peer, service, body))) => {
                self.ask(line, peer, service, body, link, page)
            }
            Ok(Line::LongWrite(_)) => {
                self.refresh_time(link, page)?;
                print_line(page, line);
                remark(page, Note::Refused(SubmitFault::TooLong));
                Ok(())
            }
            Ok(Line::Client(..) | Line::Ask(_) | Line::Happens(Event::Data(..) | Event::Tick(_))) =>
                { Err(self.stop(bad, link, page)) }
            Err(LineFault::Bad) => self.take_own(line, number, link, page),
            Err(LineFault::TooLong) => Err(self.stop(TraceFault::LineTooLong(number), link, page)),
        }
    }

    // Does what a line `who` or `wait` asks for. Any other line is bad.
    #[tactic(auto, using(std::proofs::lemmas::List::append_assoc))]
    fn take_own<L: Link, W: Write>(
        &mut self,
        line: &[u8],
        number: u64,
        link: &mut L,
        page: &mut Page<'_, W>,
    ) -> Result<(), RunFault>
        requires link { L.has_failed link.old ≡ false }
        requires bad { said_of line.now ≡ Err Bad }
        ensures fault { L.has_failed link.new ≡ is_of_link result }
        ensures went { Went W.contents self.old self.new page.old page.new (L.seen link.old) (L.seen link.new)
            (λ later. started self.old (aims_for (acts_of_line line.now) self.old.setup.window number line.now later))
            (λ later. started self.new (taking self.old.setup.window number later)) result [] }
        ensures not_written { result ≡ Err write_failed → has_failed (writer_of page.new) ≡ true }
        ensures over { IfErr result (λ fault. IsOverAt fault self.new.client) }
        ensures good { IfOk result (λ _. IsGood line.now) }
    {
        match read_own(line) {
            Some(Own::Seek(reach, who)) => self.seek(reach, who, link, page),
            Some(Own::Rest(time)) => self.sit_out(time, link, page),
            None => Err(self.stop(TraceFault::BadLine(number), link, page)),
        }
    }

    // Sends a Who-Is, once.
    #[tactic(auto, using(std::proofs::lemmas::List::append_assoc))]
    fn seek<L: Link, W: Write>(
        &mut self,
        reach: Reach,
        who: WhoIs,
        link: &mut L,
        page: &mut Page<'_, W>,
    ) -> Result<(), RunFault>
        requires link { L.has_failed link.old ≡ false }
        requires network { IfSome reach.network (λ network. 0 < network) }
        ensures fault { L.has_failed link.new ≡ is_of_link result }
        ensures went { Went W.contents self.old self.new page.old page.new (L.seen link.old) (L.seen link.new)
            (λ later. started self.old (Fresh ∷ Does (act_of (own_seen (Seek reach who))) ∷ later))
            (λ later. started self.new later) result [] }
        ensures not_written { result ≡ Err write_failed → has_failed (writer_of page.new) ≡ true }
        ensures cause { IfErr result IsOfWait }
    {
        self.refresh_time(link, page)?;
        let datagram = who_is(reach, who);
        remark_seek(page, reach.to, datagram.as_slice());
        self.send(reach.to, datagram.as_slice(), link, page);
        Ok(())
    }

    // Waits this many milliseconds, whatever is open.
    #[tactic(auto, using(std::proofs::lemmas::List::append_assoc))]
    fn sit_out<L: Link, W: Write>(
        &mut self,
        time: u32,
        link: &mut L,
        page: &mut Page<'_, W>,
    ) -> Result<(), RunFault>
        requires { L.has_failed link.old ≡ false }
        ensures fault { L.has_failed link.new ≡ is_of_link result }
        ensures went { Went W.contents self.old self.new page.old page.new (L.seen link.old) (L.seen link.new)
            (λ later. started self.old (Rests time ∷ Does (Rested time) ∷ later)) (λ later. started self.new later)
            result [] }
        ensures not_written { result ≡ Err write_failed → has_failed (writer_of page.new) ≡ true }
        ensures cause { IfErr result IsOfWait }
    {
        self.rest(time, link, page)?;
        remark_rest(page, time);
        Ok(())
    }

    // Waits until no request is open, as a line without words asks.
    fn pause<L: Link, W: Write>(
        &mut self,
        link: &mut L,
        page: &mut Page<'_, W>,
    ) -> Result<(), RunFault>
        requires { L.has_failed link.old ≡ false }
        ensures fault { L.has_failed link.new ≡ is_of_link result }
        ensures went { Went W.contents self.old self.new page.old page.new (L.seen link.old) (L.seen link.new)
            (λ later. started self.old (Turns (FewOpen 0) most_turns ∷ Does Paused ∷ later))
            (λ later. started self.new later) result [] }
        ensures not_written { result ≡ Err write_failed → has_failed (writer_of page.new) ≡ true }
        ensures cause { IfErr result IsOfWait }
    {
        self.wait(Until::FewOpen(0), link, page)?;
        page.print(b"\n");
        Ok(())
    }

    // Makes a request to the peer with the client, and sends it.
    #[tactic(auto, using(std::proofs::lemmas::List::append_assoc))]
    fn ask<L: Link, W: Write>(
        &mut self,
        line: &[u8],
        peer: Peer,
        service: u8,
        body: &[u8],
        link: &mut L,
        page: &mut Page<'_, W>,
    ) -> Result<(), RunFault>
        requires link { L.has_failed link.old ≡ false }
        requires room { open_in self.old.client < self.old.setup.window }
        ensures fault { L.has_failed link.new ≡ is_of_link result }
        ensures went { Went W.contents self.old self.new page.old page.new (L.seen link.old) (L.seen link.new)
            (λ later. started self.old (Fresh ∷ Does (Asked line.now (Ask (station peer) service body.now))
            ∷ room_for self.old.setup.window ∷ later))
            (λ later. started self.new (room_for self.old.setup.window ∷ later)) result [] }
        ensures not_written { result ≡ Err write_failed → has_failed (writer_of page.new) ≡ true }
        ensures cause { IfErr result IsOfWait }
    {
        self.refresh_time(link, page)?;
        if !may_ask(service, page) {
            return Err(RunFault::Script(TraceFault::WriteFailed));
        }
        self.submit(line, peer, service, body, link, page);
        Ok(())
    }

    // Prints the line of a request, makes the request to the peer with the client, and sends it.
    fn submit<L: Link, W: Write>(
        &mut self,
        line: &[u8],
        peer: Peer,
        service: u8,
        body: &[u8],
        link: &mut L,
        page: &mut Page<'_, W>,
    )
        requires link { L.has_failed link.old ≡ false }
        requires room { open_in self.old.client < self.old.setup.window }
        requires out { service ≡ 15 → (has_failed (writer_of page.old) ≡ false) × (held page.old ≡ []) }
        ensures sound { L.has_failed link.new ≡ false }
        ensures went { Went W.contents self.old self.new page.old page.new (L.seen link.old) (L.seen link.new)
            (λ later. started self.old (Does (Asked line.now (Ask (station peer) service body.now))
            ∷ room_for self.old.setup.window ∷ later))
            (λ later. started self.new (room_for self.old.setup.window ∷ later)) done [] }
    {
        print_request(page, service, line);
        let answer = self.client.submit(peer, service, body);
        self.since_told = self.since_asked();
        match answer {
            Ok(ticket) => {
                let note = self.client.sent(ticket);
                remark_any(page, note);
                self.send_any(note, link, page);
            }
            Err(fault) => remark(page, Note::Refused(fault)),
        }
    }

    // Returns how many waits are over once a request was made. If there is no room for one more, and others are open,
    // their answers may have come: it is at least 1, so that the next turn looks for them before it waits.
    fn since_asked(&self) -> u32
        ensures { result ≡ since_asked (self.now.setup.window - 1) self.now.client self.now.since_told }
    {
        let most = self.setup.window - 1;
        if self.client.open_count() > most.max(1) {
            self.since_told.max(1)
        } else {
            self.since_told
        }
    }

    // Waits until one more request may be open. Before that no line is read.
    fn make_room<L: Link, W: Write>(
        &mut self,
        link: &mut L,
        page: &mut Page<'_, W>,
    ) -> Result<(), RunFault>
        requires { L.has_failed link.old ≡ false }
        ensures fault { L.has_failed link.new ≡ is_of_link result }
        ensures went { Went W.contents self.old self.new page.old page.new (L.seen link.old) (L.seen link.new)
            (λ later. started self.old (room_for self.old.setup.window ∷ later))
            (λ later. started self.new later) result [] }
        ensures not_written { result ≡ Err write_failed → has_failed (writer_of page.new) ≡ true }
        ensures room { IfOk result (λ _. open_in self.new.client < self.new.setup.window) }
        ensures cause { IfErr result IsOfWait }
    {
        self.wait(Until::FewOpen(self.setup.window - 1), link, page)
    }

    // Waits until no request is open, and then stops with this fault, or with a fault of the wait.
    fn stop<L: Link, W: Write>(
        &mut self,
        fault: TraceFault,
        link: &mut L,
        page: &mut Page<'_, W>,
    ) -> RunFault
        requires link { L.has_failed link.old ≡ false }
        requires other { fault ≢ WriteFailed }
        ensures fault { L.has_failed link.new ≡ is_of_link (stopped result) }
        ensures went { Went W.contents self.old self.new page.old page.new (L.seen link.old) (L.seen link.new)
            (λ later. started self.old (ending (Err fault) later)) (λ later. started self.new later) (stopped result)
            [] }
        ensures not_written { result ≡ write_failed → has_failed (writer_of page.new) ≡ true }
        ensures over { IsOverAt result self.new.client }
    {
        match self.wait(Until::FewOpen(0), link, page) {
            Ok(()) => RunFault::Script(fault),
            Err(other) => other,
        }
    }

    // Waits until no request is open, and then closes the journal and ends after this many lines.
    fn end<L: Link, W: Write>(
        &mut self,
        lines: u64,
        link: &mut L,
        page: &mut Page<'_, W>,
    ) -> Result<TraceEnd, RunFault>
        requires { L.has_failed link.old ≡ false }
        ensures fault { L.has_failed link.new ≡ is_of_link result }
        ensures went { Went W.contents self.old self.new page.old page.new (L.seen link.old) (L.seen link.new)
            (λ later. started self.old (ending (Ok (record { lines = lines })) later))
            (λ later. started self.new (Ends (Ok (record { lines = lines })) ∷ later)) result [] }
        ensures lines { IfOk result (λ end. end.lines ≡ lines) }
        ensures not_written { result ≡ Err write_failed → has_failed (writer_of page.new) ≡ true }
        ensures over { IsOver result self.new.client }
        ensures cause { IfErr result IsOfWait }
    {
        match self.wait(Until::FewOpen(0), link, page) {
            Ok(()) => {
                remark_closing(page);
                Ok(TraceEnd { lines })
            }
            Err(fault) => Err(fault),
        }
    }
}

// Returns whether a request of this service may be made. Before a write all output is written; if that fails, the write
// may not be made.
fn may_ask<W: Write>(service: u8, page: &mut Page<'_, W>) -> bool
    ensures printed { Prints W.contents page.old page.new [] }
    ensures sound { result ≡ true → service ≡ 15 → has_failed (writer_of page.new) ≡ false }
    ensures out { service ≡ 15 → held page.new ≡ [] }
    ensures not_written { result ≡ false → has_failed (writer_of page.new) ≡ true }
{
    if service != WRITE_PROPERTY {
        return true;
    }
    page.turn_in();
    !page.failed()
}

// Prints the line of a request. The line of a write is written at once, so that it is recorded before the write is
// sent.
fn print_request<W: Write>(page: &mut Page<'_, W>, service: u8, line: &[u8])
    ensures { Prints W.contents page.old page.new (whole_line line.now) }
{
    print_line(page, line);
    if service == WRITE_PROPERTY {
        page.turn_in();
    }
}

// Reads a line. It is too long if its line in the journal would be. A request to 0.0.0.0 is a bad line.
fn read_short_line<'a>(line: &'a [u8], room: &'a mut LineRoom) -> Result<Line<'a>, LineFault>
    ensures { result_seen line_seen result ≡ said_of line.now }
{
    if line.len() == LONGEST_LINE && line.last() == Some(&b'\r') {
        return Err(LineFault::TooLong);
    }
    match read_line(line, false, room) {
        Ok(Line::Happens(Event::Ask(peer, ..))) if peer.ip == 0 => Err(LineFault::Bad),
        Ok(Line::LongWrite(write)) if write.peer.ip == 0 => Err(LineFault::Bad),
        it => it,
    }
}
