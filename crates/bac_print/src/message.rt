//! The message of a fault.
ghost use Rattle.std.specs.Prelude.{Some};
ghost use Rattle.bac_print.specs.{message_text, Prints};

use crate::page::Page;
use std::fmt;
use std::io::Write;

/// The message of a fault. It needs no memory.
#[derive(Debug, Drop)]
pub enum FaultMessage {
    /// A fixed text.
    Text(&'static str),
    /// A number between two texts.
    Numbered(&'static str, u64, &'static str),
}

impl fmt::Display for FaultMessage {
    ghost output = { λ message. Some (message_text message) };

    fn fmt<W: fmt::Write>(&self, f: &mut fmt::Formatter<W>) -> fmt::Result {
        match self {
            FaultMessage::Text(text) => write!(f, "{text}"),
            FaultMessage::Numbered(before, number, after) => write!(f, "{before}{number}{after}"),
        }
    }
}

impl<W: Write> Page<'_, W> {
    /// Prints the message.
    #[tactic(auto, using(crate::proofs::printing))]
    pub fn print_message(&mut self, message: FaultMessage)
        ensures { Prints W.contents self.old self.new (message_text message) }
    {
        match message {
            FaultMessage::Text(text) => self.print(text.as_bytes()),
            FaultMessage::Numbered(before, number, after) => {
                self.print(before.as_bytes());
                self.print_number(number);
                self.print(after.as_bytes());
            }
        }
    }
}
