//! Why a run of many requests stopped.
ghost use Rattle.std.specs.Prelude.{◌≡◌};
ghost use Rattle.{bac_print.specs.message_text, bac_run.specs.run_fault_text};

use bac_links::ToolFault;
use bac_print::{FaultMessage, WriteFailed};
use bac_script::TraceFault;
use thiserror::Error;

/// Why a run stopped.
#[derive(Clone, Copy, Debug, PartialEq, Eq, Error)]
#[error("{}", self.message())]
pub enum RunFault {
    /// A line is bad, or a read or a write failed.
    Script(TraceFault),
    /// The link failed, or the turns of a wait are spent.
    Link(ToolFault),
}

impl RunFault {
    /// Returns the message.
    pub fn message(&self) -> FaultMessage
        ensures { message_text result ≡ run_fault_text self.now }
    {
        match self {
            RunFault::Script(fault) => fault.message(),
            RunFault::Link(fault) => fault.message(),
        }
    }
}

impl From<WriteFailed> for RunFault {
    ghost use Rattle.bac_run.specs.Fault.{write_failed};

    ghost from_gives = { λ _ fault. fault ≡ write_failed };

    fn from(_failed: WriteFailed) -> RunFault {
        RunFault::Script(TraceFault::WriteFailed)
    }
}
