//! The end of the program, and its message.
ghost use Rattle.std.specs.Prelude.{option_map, ◌≡◌};
ghost use Rattle.{bac_print.specs.has_failed, bac_words.specs.Telling.told_by};
ghost use Rattle.bac_tools.specs.{fault_status, fault_told, IsTold, on_error, on_output, once_given, report_of};
ghost use Rattle.bac_tools.specs.{run_report, run_status_of, status_of, tool_report, trace_report, trace_status_of};
ghost use Rattle.bac_tools.specs.{unread_report, usage_status_of};

use crate::telling::print_telling;
use bac_links::{Exit, LinkFault, ToolFault};
use bac_print::{Checked, FaultMessage, Page};
use bac_run::RunFault;
use bac_script::{TraceEnd, TraceFault};
use bac_words::{Telling, UsageFault};
use std::io::{self, ErrorKind, Write};
use thiserror::Error;

/// The faults that the program reports.
#[derive(Debug, Drop, Error)]
#[error("{}", self.telling())]
pub enum Fault {
    /// The words are not UTF-8.
    NoText,
    /// The words give no job, for this reason. Help that was asked for is one of them.
    Usage(UsageFault),
    /// No socket was available.
    Link(LinkFault),
    /// A tool failed.
    Tool(ToolFault),
    /// A script stopped.
    Trace(TraceFault),
    /// A run of many requests stopped.
    Run(RunFault),
}

/// The status with which the program ends, and the fault that it reports.
#[derive(Debug, Drop)]
pub struct Report {
    /// The status, 0 to 4.
    pub status: u8,
    /// The fault, or `None` if there is nothing to report.
    pub fault: Option<Fault>,
}

impl Fault {
    /// Returns the status with which the program ends if it reports this fault.
    pub fn status(&self) -> u8
        ensures { result ≡ fault_status self.now }
    {
        match self {
            Fault::NoText => 2,
            Fault::Usage(fault) => usage_status(fault),
            Fault::Link(_) => 3,
            Fault::Tool(fault) => status(&Err(*fault)),
            Fault::Trace(fault) => trace_status(&Err(*fault)),
            Fault::Run(fault) => run_status(&Err(*fault)),
        }
    }

    /// Returns the message of the fault.
    pub fn telling(&self) -> Telling<'_>
        ensures { told_by result ≡ fault_told self.now }
    {
        Telling::Line(match self {
            Fault::NoText => FaultMessage::Text("words that are not UTF-8"),
            Fault::Usage(fault) => return fault.telling(),
            Fault::Link(fault) => fault.message(),
            Fault::Tool(fault) => fault.message(),
            Fault::Trace(fault) => fault.message(),
            Fault::Run(fault) => fault.message(),
        })
    }
}

impl Report {
    /// Returns the text for standard output: help that was asked for.
    pub fn on_output(&self) -> Option<Telling<'_>>
        ensures { option_map told_by result ≡ on_output self.now.fault }
    {
        match &self.fault {
            Some(Fault::Usage(UsageFault::Help(text))) => Some(Telling::Text(text)),
            _ => None,
        }
    }

    /// Returns the text for standard error: any other fault.
    pub fn on_error(&self) -> Option<Telling<'_>>
        ensures { option_map told_by result ≡ on_error self.now.fault }
    {
        match &self.fault {
            None | Some(Fault::Usage(UsageFault::Help(_))) => None,
            Some(fault) => Some(fault.telling()),
        }
    }

    /// Writes help that was asked for to standard output, and the message of any other fault to standard error. If the
    /// help could not be written, the returned report has that fault.
    pub(crate) fn told<W: Write, E: Write>(
        self,
        writer: &mut Checked<W>,
        errors: &mut Checked<E>,
    ) -> Report
        ensures help { IsTold W.contents writer.old writer.new (on_output self.fault) }
        ensures report { result ≡ once_given self.fault (has_failed writer.new) self }
        ensures fault { IsTold E.contents errors.old errors.new (on_error result.fault) }
    {
        tell(self.on_output(), writer);
        let report = self.after_output(writer.failed());
        tell(report.on_error(), errors);
        report
    }

    /// Returns the report after standard output was given its text. If the output failed and was to have help, the
    /// report has that fault.
    pub fn after_output(self, failed: bool) -> Report
        ensures { result ≡ once_given self.fault failed self }
    {
        match &self.fault {
            Some(Fault::Usage(UsageFault::Help(_))) if failed => {
                Report::from(Err(ToolFault::WriteFailed))
            }
            _ => self,
        }
    }
}

/// Writes the message, unless the writer fails.
pub fn tell<W: Write>(telling: Option<Telling<'_>>, writer: &mut Checked<W>)
    ensures { IsTold W.contents writer.old writer.new (option_map told_by telling.entry) }
{
    if let Some(telling) = telling {
        let mut page = Page::new(writer);
        print_telling(telling, &mut page);
        let _ = page.finish();
    }
}

/// Returns the status after a tool: 0 if it ended well, 1 if it did not, 3 after a fault.
pub fn status(answer: &Result<Exit, ToolFault>) -> u8
    ensures { result ≡ status_of answer.now }
{
    match answer {
        Ok(Exit::Good) => 0,
        Ok(Exit::Bad) => 1,
        Err(_) => 3,
    }
}

/// Returns the status after a script: 0 at its end, 2 after a line that is bad or too long, 3 if a read or a write
/// failed.
pub fn trace_status(answer: &Result<TraceEnd, TraceFault>) -> u8
    ensures { result ≡ trace_status_of answer.now }
{
    match answer {
        Ok(_) => 0,
        Err(TraceFault::BadLine(_) | TraceFault::LineTooLong(_)) => 2,
        Err(TraceFault::ReadFailed | TraceFault::WriteFailed) => 3,
    }
}

/// Returns the status after many requests: 0 at the end of the input, 3 if the link failed, and otherwise as after a
/// script.
pub fn run_status(answer: &Result<TraceEnd, RunFault>) -> u8
    ensures { result ≡ run_status_of answer.now }
{
    match answer {
        Ok(_) => 0,
        Err(RunFault::Script(fault)) => trace_status(&Err(*fault)),
        Err(RunFault::Link(_)) => 3,
    }
}

/// Returns the status after words that give no job: 0 if help was asked for, 4 if there is no memory, otherwise 2.
pub fn usage_status(fault: &UsageFault) -> u8
    ensures { result ≡ usage_status_of fault.now }
{
    match fault {
        UsageFault::Help(_) => 0,
        UsageFault::Memory => 4,
        _ => 2,
    }
}

impl From<Result<Exit, ToolFault>> for Report {
    ghost from_gives = { λ answer report. report ≡ tool_report answer };

    fn from(answer: Result<Exit, ToolFault>) -> Report {
        Report {
            status: status(&answer),
            fault: answer.err().map(Fault::Tool),
        }
    }
}

impl From<Result<TraceEnd, TraceFault>> for Report {
    ghost from_gives = { λ answer report. report ≡ trace_report answer };

    fn from(answer: Result<TraceEnd, TraceFault>) -> Report {
        Report {
            status: trace_status(&answer),
            fault: answer.err().map(Fault::Trace),
        }
    }
}

impl From<Result<TraceEnd, RunFault>> for Report {
    ghost from_gives = { λ answer report. report ≡ run_report answer };

    fn from(answer: Result<TraceEnd, RunFault>) -> Report {
        Report {
            status: run_status(&answer),
            fault: answer.err().map(Fault::Run),
        }
    }
}

impl From<Fault> for Report {
    ghost from_gives = { λ fault report. report ≡ report_of fault };

    fn from(fault: Fault) -> Report {
        Report {
            status: fault.status(),
            fault: Some(fault),
        }
    }
}

impl From<io::Error> for Report {
    ghost use Rattle.std.specs.IoError.{error_kind};

    ghost from_gives = { λ error report. report ≡ unread_report (error_kind error) };

    // Returns the report that the words of the program could not be read.
    fn from(error: io::Error) -> Report {
        Report::from(match error.kind() {
            ErrorKind::OutOfMemory => Fault::Usage(UsageFault::Memory),
            _ => Fault::NoText,
        })
    }
}
