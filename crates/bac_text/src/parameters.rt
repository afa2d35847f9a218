//! The parameters of a request, from words.
ghost use Rattle.std.specs.Prelude.{◌≡◌};
ghost use Rattle.bac_text.specs.{priority_from, write_index_of};

use crate::numbers::read_number;

/// Returns the number of an element, or `None` if the word is `-1`.
pub fn read_write_index(word: &[u8]) -> Option<Option<u32>>
    ensures { result ≡ write_index_of word.now }
{
    if word == b"-1".as_slice() {
        return Some(None);
    }
    let index = read_number(word, u32::MAX.into())?;
    Some(Some(index as u32))
}

/// Returns the priority, if the number is not 0.
pub fn priority_from(number: u8) -> Option<u8>
    ensures { result ≡ priority_from number }
{
    match number {
        0 => None,
        _ => Some(number),
    }
}
