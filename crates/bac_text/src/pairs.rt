//! The words of a property's value: tags and values in turn.
ghost use Rattle.std.specs.Prelude.{[], ◌∷◌, ◌≡◌, length, MatchOption, MatchResult};
ghost use Rattle.bac_text.specs.{Bad, words_behind, Inner.region_of};

use crate::value_words::{ValueFault, append_pair};
use crate::words::WordSource;
use bac_wire::Frame;

/// Why the values of words cannot be written.
#[derive(Clone, Copy, Debug, PartialEq, Eq)]
pub enum PairFault {
    /// The pair with this number, from 1, is not a tag and a value of that type, or its value is missing.
    Bad(u64),
    /// There is no room for the octets of the values.
    TooLong,
}

/// Appends the values of the words to the region, one after another. A word that cannot be read is found however long
/// the others are.
///
/// # Errors
///
/// `Bad` with the number of the first pair whose words are not a tag and a value of that type, or whose value is
/// missing, or with 1 if there is no word; otherwise `TooLong` if a frame has no room for the values.
#[tactic(auto, using(crate::proofs::progress))]
pub(crate) fn read_pairs<'a, S: WordSource<'a>>(
    words: &mut S,
    region: &mut Frame,
) -> Result<(), PairFault>
    ensures value { MatchResult result
        (λ _. region_of (S.left words.old) ≡ Ok region.new)
        (λ fault. region_of (S.left words.old) ≡ Err fault) }
    ensures left { S.left words.new ≡ words_behind result (S.left words.old) }
{
    words.are_countable();
    region.clear();
    let mut is_too_long = false;
    let mut number: u64 = 1;
    while let Some((tag, word)) = next_pair(words, number)? {
        match append_pair(region, tag, word) {
            Ok(()) => {}
            Err(ValueFault::TooLong) => is_too_long = true,
            Err(ValueFault::Bad) => return Err(PairFault::Bad(number)),
        }
        number += 1;
    }
    if is_too_long {
        return Err(PairFault::TooLong);
    }
    // Each value has at least one octet, so an empty region means that there was no pair.
    if region.is_empty() {
        return Err(PairFault::Bad(1));
    }
    Ok(())
}

// Returns the next tag and the word after it, if a word is left.
fn next_pair<'a, S: WordSource<'a>>(
    words: &mut S,
    number: u64,
) -> Result<Option<(&'a [u8], &'a [u8])>, PairFault>
    ensures { MatchResult result
        (λ found. MatchOption found ((S.left words.old ≡ []) × (S.left words.new ≡ []))
        (λ pair. S.left words.old ≡ pair.0.now ∷ pair.1.now ∷ S.left words.new))
        (λ fault. (fault ≡ Bad number) × (length (S.left words.old) ≡ 1) × (S.left words.new ≡ [])) }
{
    let Some(tag) = words.next_word() else {
        return Ok(None);
    };
    let word = words.next_word().ok_or(PairFault::Bad(number))?;
    Ok(Some((tag, word)))
}
