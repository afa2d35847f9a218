//! A script, run as it is read.

ghost use Rattle.std.specs.Prelude.{[], Err, false, true, ◌↔◌, ◌≡◌};
ghost use Rattle.bac_print.specs.{has_failed, held, message_text, room_of, writer_of};
ghost use Rattle.{bac_tsm.specs.new_client, bac_script.specs.{fault_at, trace_fault_text, Traces, Inner.RunsOn}};

use crate::input::{Chunk, Reading};
use crate::line::{LineFault, LineRoom, read_line};
use crate::running::{run_line, small_device};
use bac_print::{Checked, FaultMessage, Page, WriteFailed};
use bac_tsm::{Client, Config};
use bac_wire::Frame;
use std::io::{Read, Write};
use thiserror::Error;

/// A script that ran to its end.
#[derive(Clone, Copy, Debug, PartialEq, Eq)]
pub struct TraceEnd {
    /// The number of lines, skipped ones included.
    pub lines: u64,
}

/// Why a script stopped. The text of the lines before was printed, as far as the writer took it.
#[derive(Clone, Copy, Debug, PartialEq, Eq, Error)]
#[error("{}", self.message())]
pub enum TraceFault {
    /// The line with this number, from 1, is not in the language. This is the fault of the script's author.
    BadLine(u64),
    /// The line with this number, from 1, has more than 4,096 octets. This is the fault of the script's author.
    LineTooLong(u64),
    /// The reader failed, or its reads are spent. This is not a fault of the script.
    ReadFailed,
    /// The writer failed, or took no octet. This is not a fault of the script.
    WriteFailed,
}

impl TraceFault {
    /// Returns the message.
    pub fn message(&self) -> FaultMessage
        ensures { message_text result ≡ trace_fault_text self.now }
    {
        match self {
            TraceFault::BadLine(line) => FaultMessage::Numbered("line ", *line, ": bad line"),
            TraceFault::LineTooLong(line) => FaultMessage::Numbered("line ", *line, ": too long"),
            TraceFault::ReadFailed => FaultMessage::Text("reading failed"),
            TraceFault::WriteFailed => FaultMessage::Text("writing failed"),
        }
    }
}

impl From<WriteFailed> for TraceFault {
    ghost use Rattle.bac_script.specs.declared.tracing.TraceFault.TheVariants.{WriteFailed};

    ghost from_gives = { λ _ fault. fault ≡ WriteFailed };

    fn from(_failed: WriteFailed) -> TraceFault {
        TraceFault::WriteFailed
    }
}

/// Runs each line of a script on a client and a device. The text is written before each read.
pub fn trace<R: Read, W: Write>(
    reader: &mut Checked<R>,
    writer: &mut Checked<W>,
) -> Result<TraceEnd, TraceFault>
    requires reader { has_failed reader.old ≡ false }
    requires writer { has_failed writer.old ≡ false }
    ensures script { Traces R.remaining W.contents reader.old reader.new writer.old writer.new result }
    ensures write_failed { (has_failed writer.new ≡ true) ↔ (result ≡ Err TraceFault.WriteFailed) }
{
    let mut page = Page::new(writer);
    let answer = run_script(reader, &mut page);
    page.finish()?;
    answer
}

// Runs each line of a script. The text is written before each read; at the end some of it may still be on the page.
fn run_script<R: Read, W: Write>(
    reader: &mut Checked<R>,
    page: &mut Page<'_, W>,
) -> Result<TraceEnd, TraceFault>
    requires reader { has_failed reader.old ≡ false }
    requires page { held page.old ≡ [] }
    requires unfolded { room_of page.old ≡ None }
    ensures script { RunsOn R.remaining W.contents reader.old reader.new page.old page.new result }
    ensures write_failed { result ≡ Err TraceFault.WriteFailed → has_failed (writer_of page.new) ≡ true }
{
    let mut chunk = Chunk::new();
    let mut room = LineRoom::new();
    let mut reply = Frame::new();
    let mut client = usual_client();
    let mut device = small_device();
    let mut is_first = true;
    let mut lines = 0;
    loop {
        let next = chunk.next_line(reader, page)?;
        if next.reading == Reading::Failed {
            return Err(TraceFault::ReadFailed);
        }
        if next.length == 0 {
            return Ok(TraceEnd { lines });
        }
        lines += 1;
        let line = match read_line(chunk.front(next.length), is_first, &mut room) {
            Ok(line) => line,
            Err(fault) => return Err(fault_in_line(fault, lines)),
        };
        is_first = is_first && line.is_skipped();
        run_line(&mut client, &mut device, line, &mut reply, page);
        if next.reading == Reading::AtEnd {
            return Ok(TraceEnd { lines });
        }
        chunk.skip(next.length);
    }
}

// Returns the client of a script without settings: its timeout is three seconds, and it sends up to three times again.
fn usual_client() -> Client
    ensures { result ≡ new_client 3000 3 0 }
{
    let config = Config {
        timeout: 3_000,
        retries: 3,
    };
    Client::new(config, 0)
}

// Returns the fault of the line with this number.
fn fault_in_line(fault: LineFault, number: u64) -> TraceFault
    ensures { result ≡ fault_at number fault }
{
    match fault {
        LineFault::Bad => TraceFault::BadLine(number),
        LineFault::TooLong => TraceFault::LineTooLong(number),
    }
}
