//! Laws of the public types and constants: the limits that the code names, clones, and what `==` compares. Each
//! function has an empty body, and its clauses are the laws.

ghost use Rattle.std.specs.Prelude.{◌≡◌};
ghost use Rattle.{bac_wire.specs.{EqualsBy, MakesCopies}, bac_tsm.specs.{end_seen, outcome_seen, table_size}};

use crate::client::SubmitFault;
use crate::config::Config;
use crate::due::DueEntry;
use crate::event::{Event, Note};
use crate::limits::PLACES;
use crate::outcome::{Ended, Outcome};

/// The limit in the code is the limit in the definitions.
pub fn constants_are_limits()
    ensures places { PLACES ≡ table_size }
{}

/// A clone equals its original, and allocates no memory.
pub fn clones<'a>()
    ensures fault { MakesCopies ⟦<SubmitFault as Clone>⟧.is_clone ⟦<SubmitFault as Clone>⟧.is_infallible }
    ensures config { MakesCopies ⟦<Config as Clone>⟧.is_clone ⟦<Config as Clone>⟧.is_infallible }
    ensures event { MakesCopies ⟦<Event<'a> as Clone>⟧.is_clone ⟦<Event<'a> as Clone>⟧.is_infallible }
    ensures note { MakesCopies ⟦<Note<'a> as Clone>⟧.is_clone ⟦<Note<'a> as Clone>⟧.is_infallible }
    ensures outcome { MakesCopies ⟦<Outcome<'a> as Clone>⟧.is_clone ⟦<Outcome<'a> as Clone>⟧.is_infallible }
    ensures end { MakesCopies ⟦<Ended<'a> as Clone>⟧.is_clone ⟦<Ended<'a> as Clone>⟧.is_infallible }
    ensures entry { MakesCopies ⟦<DueEntry as Clone>⟧.is_clone ⟦<DueEntry as Clone>⟧.is_infallible }
{}

/// `==` compares all that a fault or an entry says. For an outcome or an end it also compares the lent octets, but not
/// where they lie.
pub fn equals<'a>()
    ensures fault { EqualsBy (λ fault. fault) ⟦<SubmitFault as PartialEq>⟧.eq }
    ensures entry { EqualsBy (λ entry. entry) ⟦<DueEntry as PartialEq>⟧.eq }
    ensures outcome { EqualsBy outcome_seen ⟦<Outcome<'a> as PartialEq>⟧.eq }
    ensures end { EqualsBy end_seen ⟦<Ended<'a> as PartialEq>⟧.eq }
{}
