//! A list that exists in proofs alone: it needs no memory, and its methods do nothing.
ghost use Rattle.std.specs.{Borrow.ftrue, Coded.coded_list, Prelude.{[], ◌++◌, ◌∷◌, ◌≡◌, List}};

use std::marker::{Model, PhantomData};

/// The items so far, in order. Clauses read them as `items`: values of `T`, which no code needs to make.
#[derive(Drop)]
pub struct GhostList<T> {
    of: PhantomData<T>,
    pub ghost items: { List T } by { coded_list T.code },
}

impl<T> Model for GhostList<T> {
    ghost also_owns = { λ _. ftrue };
}

/// A note of a value of `T`. It may borrow the value.
pub trait NoteOf<T> {
    ghost tells: { Self → T };
}

impl<T> GhostList<T> {
    /// Returns an empty list.
    pub fn new() -> Self
        ensures { result ≡ record { of = record {}; items = [] } }
    {
        GhostList { of: PhantomData }
    }

    /// Appends the item of this note.
    pub fn push<N: NoteOf<T>>(&mut self, note: &N)
        ensures { self.new.items ≡ self.old.items ++ N.tells note.now ∷ [] }
    {
        *self = self.and(note);
    }

    // Returns the list with the item of this note appended. It is private, so that no list is continued in two ways.
    fn and<N: NoteOf<T>>(&self, _note: &N) -> Self
        ensures { result.items ≡ self.now.items ++ N.tells _note.now ∷ [] }
    {
        GhostList { of: PhantomData }
    }
}
