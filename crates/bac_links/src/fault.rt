//! Why a tool could not go on.
ghost use Rattle.std.specs.Prelude.{◌≡◌};
ghost use Rattle.{bac_print.specs.message_text, bac_links.specs.{tool_fault_text, WriteFailed}};

use bac_print::{FaultMessage, WriteFailed as NotWritten};
use thiserror::Error;

/// Why a tool could not go on.
#[derive(Clone, Copy, Debug, PartialEq, Eq, Error)]
#[error("{}", self.message())]
pub enum ToolFault {
    /// The link failed to send.
    SendFailed,
    /// The link failed to receive.
    ReceiveFailed,
    /// All 65,536 turns went by without an end.
    TurnsSpent,
    /// The writer failed, or took no octet.
    WriteFailed,
}

impl ToolFault {
    /// Returns the message.
    pub fn message(&self) -> FaultMessage
        ensures { message_text result ≡ tool_fault_text self.now }
    {
        FaultMessage::Text(match self {
            ToolFault::SendFailed => "sending failed",
            ToolFault::ReceiveFailed => "receiving failed",
            ToolFault::TurnsSpent => "turns spent",
            ToolFault::WriteFailed => "writing failed",
        })
    }
}

impl From<NotWritten> for ToolFault {
    ghost from_gives = { λ _ fault. fault ≡ WriteFailed };

    fn from(_: NotWritten) -> Self {
        ToolFault::WriteFailed
    }
}
