//! Words that are read one after another.
ghost use Rattle.std.specs.Prelude.{[], ◌<◌, ◌^◌, ◌∷◌, ◌≡◌, ◌≤◌, drop, IfSome, length, List, MatchOption, not};
ghost use Rattle.std.specs.Prelude.{option_map, position, ℕ};
ghost use Rattle.bac_text.specs.{Words.{is_blank, next_as, number_up_to, words_of}, Inner.Words.IsFirstNumber};

use crate::numbers::{leading_number, read_number};
use crate::search::{Delimiter, position_of_end};
use std::marker::Model;

/// Words that are read one after another.
pub trait WordSource<'a> {
    /// The words that are left.
    ghost left: { Self → List (List ℕ) };

    /// Takes the next word.
    fn next_word(&mut self) -> Option<&'a [u8]>
        ensures { MatchOption result ((left self.old ≡ []) × (left self.new ≡ []))
            (λ word. left self.old ≡ word.now ∷ left self.new) };

    /// Does nothing. Its clause says that there are fewer than 2^64 words.
    fn are_countable(&self)
        ensures { length (left self.now) < 2 ^ 64 };
}

/// The words of a text that are left: runs of octets other than space and tab.
#[derive(Drop)]
pub struct Words<'a> {
    rest: &'a [u8],
}

impl<'a> Model for Words<'a> {
    ghost use Rattle.std.specs.Prelude.{List, ℕ};
    ghost use Rattle.bac_text.specs.{words_of};

    ghost Value = { List (List ℕ) };

    ghost view = { λ text. words_of text.rest.now };
}

impl<'a> Words<'a> {
    /// Returns the words of the text.
    pub fn new(text: &'a [u8]) -> Self
        ensures { result ≡ words_of text.now }
    {
        Words { rest: text }
    }

    /// Takes the next word and reads it as a number, if it is decimal digits and at most `most`. A word that is not
    /// such a number is skipped too.
    pub fn next_number(&mut self, most: u64) -> Option<u64>
        ensures value { next_as (number_up_to most) self.old ≡ option_map (λ number. (number, self.new)) result }
        ensures most { IfSome result (λ number. number ≤ most) }
        ensures taken { self.new ≡ drop 1 self.old }
    {
        if let Some((number, rest)) = first_number(self.rest) {
            self.rest = rest;
            return if u64::from(number) > most {
                None
            } else {
                Some(u64::from(number))
            };
        }
        let word = self.next_word()?;
        read_number(word, most)
    }

    /// Returns the same words, to be read a second time.
    pub fn again(&self) -> Self
        ensures { result ≡ self.now }
    {
        Words { rest: self.rest }
    }
}

impl<'a> WordSource<'a> for Words<'a> {
    ghost left = { λ words. words };

    fn next_word(&mut self) -> Option<&'a [u8]> {
        match first_word(self.rest) {
            Some((word, rest)) => {
                self.rest = rest;
                Some(word)
            }
            None => {
                self.rest = &[];
                None
            }
        }
    }

    #[tactic(auto, using(crate::proofs::words_fewer))]
    fn are_countable(&self) {
        let _text = self.rest;
    }
}

pub(crate) fn is_blank(octet: u8) -> bool
    ensures { result ≡ is_blank octet }
{
    octet == b' ' || octet == b'\t'
}

// Returns the first word and the octets after it.
#[tactic(auto, using(crate::proofs::first_words))]
fn first_word(text: &[u8]) -> Option<(&[u8], &[u8])>
    ensures { MatchOption result (words_of text.now ≡ [])
        (λ found. words_of text.now ≡ found.0.now ∷ words_of found.1.now) }
{
    let start = word_start(text)?;
    let text = &text[start..];
    let end = position_of_end(text, Delimiter::Blank).unwrap_or(text.len());
    Some(text.split_at(end))
}

// Returns the number in the first word, if it has at most five digits, and the octets after it.
#[inline(always)]
fn first_number(text: &[u8]) -> Option<(u32, &[u8])>
    ensures { IfSome result (λ found. IsFirstNumber text.now found.0 found.1.now) }
{
    let start = word_start(text)?;
    let text = &text[start..];
    let (number, count) = leading_number(text, 5);
    if count == 0 || count < text.len() && !is_blank(text[count]) {
        return None;
    }
    Some((number, &text[count..]))
}

fn word_start(text: &[u8]) -> Option<usize>
    ensures { result ≡ position (λ octet. not (is_blank octet)) text.now }
{
    text.iter().position(|octet| !is_blank(*octet))
}
