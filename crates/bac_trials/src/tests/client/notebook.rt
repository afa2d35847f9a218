//! A watcher that compares each note with the expected one, as long as it has room.

ghost use Rattle.std.proofs.{Common.{◌∙◌, ap, sym}, lemmas.List.length-append, Math.Nat.{add-zero, add_assoc}};
ghost use Rattle.std.specs.Prelude.{◌+◌, ◌≡◌, length};

use bac_tsm::{Note, Watcher};

/// Takes up to `room` notes, and sets `has_others` if it drops one. In its ghost definition it was told the notes that
/// it took.
#[derive(Drop)]
pub(crate) struct Notebook<'a> {
    pub(crate) wanted: &'a [(usize, Note<'a>)],
    pub(crate) room: usize,
    pub(crate) taken: usize,
    pub(crate) has_others: bool,
    pub(crate) has_dropped: bool,
}

impl Notebook<'_> {
    /// Returns whether it took exactly the expected notes that it has room for, and says correctly whether it dropped
    /// one.
    pub(crate) fn is_right(&self) -> bool {
        let count = self.wanted.len();
        let has_dropped = self.room < count;
        self.taken == count.min(self.room) && self.has_dropped == has_dropped && !self.has_others
    }
}

fn is_same(note: &Note<'_>, other: &Note<'_>) -> bool {
    match (*note, *other) {
        (Note::Sent(a, from, x), Note::Sent(b, to, y)) => a == b && from == to && x == y,
        (Note::Refused(fault), Note::Refused(other)) => fault == other,
        (Note::Done(ended), Note::Done(other)) => ended == other,
        (Note::Dropped, Note::Dropped) => true,
        (Note::TimedOut(ticket), Note::TimedOut(other)) => ticket == other,
        _ => false,
    }
}

impl Watcher for Notebook<'_> {
    ghost is_told = { λ old new told. new.taken ≡ old.taken + length told };

    ghost has_dropped = { λ book. book.has_dropped };

    fn note(&mut self, at: usize, what: &Note<'_>) {
        if self.taken >= self.room {
            self.has_dropped = true;
            return;
        }
        match self.wanted.get(self.taken) {
            Some((place, note)) if *place == at && is_same(note, what) => {}
            _ => self.has_others = true,
        }
        self.taken += 1;
    }

    ghost told_nothing = { λ book. sym (add-zero book.taken) };

    ghost told_more = { λ first second third told more one two. two ∙ ap (λ n. n + length more) one
        ∙ add_assoc first.taken (length told) (length more)
        ∙ ap (λ n. first.taken + n) (sym (length-append told more)) };
}
