//! The message of a fault.
ghost use Rattle.bac_words.specs.{telling_octets};

use bac_print::FaultMessage;
use std::fmt;

/// The message of a fault. It allocates no memory.
#[derive(Debug, Drop)]
pub enum Telling<'f> {
    /// A text of `clap`: help, or why it does not accept the words.
    Text(&'f clap::Error),
    /// A message of this program.
    Line(FaultMessage),
}

impl fmt::Display for Telling<'_> {
    ghost output = { telling_octets };

    fn fmt<W: fmt::Write>(&self, f: &mut fmt::Formatter<W>) -> fmt::Result {
        match self {
            Telling::Text(text) => write!(f, "{text}"),
            Telling::Line(message) => write!(f, "{message}"),
        }
    }
}
