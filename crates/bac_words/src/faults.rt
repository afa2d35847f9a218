//! Why the words give no job.

ghost use Rattle.std.specs.Prelude.{◌≡◌};
ghost use Rattle.bac_words.specs.{told_by, usage_of, usage_told, declared.faults.UsageFault.TheVariants.Memory};
ghost use Rattle.bac_words.specs.Inner.{fault_from};

use crate::telling::Telling;
use bac_print::FaultMessage;
use bac_text::PairFault;
use clap::error::ErrorKind;
use std::alloc::AllocError;
use thiserror::Error;

/// Why the words give no job: the user's fault, except `Memory` and `Help`.
#[derive(Debug, Drop, Error)]
#[error("{}", self.telling())]
pub enum UsageFault {
    /// There is no memory for the words, which is nobody's fault.
    Memory,
    /// The words ask for help, and this is the help. It is not a fault.
    Help(clap::Error),
    /// `clap` does not accept the words, for this reason.
    Words(clap::Error),
    /// The word of `--mac` is not a peer, or is one with a route.
    BadMac,
    /// The index is neither a number nor `-1`.
    BadIndex,
    /// The pair with this number, from 1, is not a tag and a value of that type, or its value is missing.
    BadValue(u64),
    /// The body would be longer than a client sends.
    BodyTooLong,
}

impl UsageFault {
    /// Returns the message of the fault.
    pub fn telling(&self) -> Telling<'_>
        ensures { told_by result ≡ usage_told self.now }
    {
        Telling::Line(match self {
            UsageFault::Memory => FaultMessage::Text("out of memory"),
            UsageFault::Help(text) | UsageFault::Words(text) => return Telling::Text(text),
            UsageFault::BadMac => FaultMessage::Text("bad mac"),
            UsageFault::BadIndex => FaultMessage::Text("bad index"),
            UsageFault::BadValue(number) => FaultMessage::Numbered("bad value ", *number, ""),
            UsageFault::BodyTooLong => FaultMessage::Text("body too long"),
        })
    }
}

impl From<AllocError> for UsageFault {
    ghost from_gives = { λ _ f. f ≡ Memory };

    fn from(_error: AllocError) -> UsageFault {
        UsageFault::Memory
    }
}

impl From<clap::Error> for UsageFault {
    ghost from_gives = { λ e f. f ≡ fault_from e };

    fn from(error: clap::Error) -> UsageFault {
        match error.kind() {
            ErrorKind::OutOfMemory => UsageFault::Memory,
            ErrorKind::DisplayHelp => UsageFault::Help(error),
            _ => UsageFault::Words(error),
        }
    }
}

impl From<PairFault> for UsageFault {
    ghost from_gives = { λ e f. f ≡ usage_of e };

    fn from(fault: PairFault) -> UsageFault {
        match fault {
            PairFault::Bad(number) => UsageFault::BadValue(number),
            PairFault::TooLong => UsageFault::BodyTooLong,
        }
    }
}
