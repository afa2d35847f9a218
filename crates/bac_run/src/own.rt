//! The lines of a run that a script does not have: `who` sends a Who-Is once, and `wait` waits.

ghost use Rattle.std.specs.Prelude.{IfSome, option_map, ◌<◌, ◌≡◌};
ghost use Rattle.{bac_text.specs.Reach.reach_seen, bac_run.specs.{limits_of, own_by, own_of, rest_of}};
ghost use Rattle.bac_run.specs.{seek_octets, seek_of, Inner.{IsSendable, own_seen}};

use bac_pdu::{Apdu, WHO_IS, WhoIs, wrap_across, wrap_within, write_apdu, write_whois};
use bac_script::line_text;
use bac_text::{Reach, WordSource, Words, reach_in, read_number};
use bac_wire::Frame;

// The greatest instance of an object.
const LAST_INSTANCE: u64 = 4_194_303;

// The longest wait, in milliseconds.
const LONGEST_REST: u64 = 60_000;

/// The meaning of a line `who` or `wait`.
#[derive(Clone, Copy)]
pub(crate) enum Own {
    /// A Who-Is.
    Seek(Reach, WhoIs),
    /// A wait of this many milliseconds.
    Rest(u32),
}

/// Reads a line `who` or `wait`.
pub(crate) fn read_own(line: &[u8]) -> Option<Own>
    ensures value { option_map own_seen result ≡ own_of line.now }
    ensures some { IfSome result IsSendable }
{
    let Ok(text) = line_text(line) else {
        return None;
    };
    read_own_words(Words::new(text))
}

/// Returns the datagram of a Who-Is. There is always room for it.
pub(crate) fn who_is(reach: Reach, who: WhoIs) -> Frame
    requires { IfSome reach.network (λ network. 0 < network) }
    ensures { result ≡ seek_octets (reach_seen reach) who }
{
    let mut frame = Frame::new();
    let _ = write_apdu(
        &mut frame,
        &Apdu::Unconfirmed {
            service: WHO_IS,
            body: &[],
        },
    );
    let _ = write_whois(&mut frame, &who);
    let _ = match reach.network {
        None => wrap_within(reach.to, false, &mut frame),
        Some(network) => wrap_across(network, &mut frame),
    };
    frame
}

fn read_own_words(mut words: Words<'_>) -> Option<Own>
    ensures value { option_map own_seen result ≡ own_by words.entry }
    ensures some { IfSome result IsSendable }
{
    let name = words.next_word()?;
    if name == b"who".as_slice() {
        return read_seek(words);
    }
    if name == b"wait".as_slice() {
        return read_rest(words);
    }
    None
}

fn read_seek(mut words: Words<'_>) -> Option<Own>
    ensures value { option_map own_seen result ≡ seek_of words.entry }
    ensures some { IfSome result IsSendable }
{
    let word = words.next_word()?;
    let reach = reach_in(word)?;
    if reach.to.ip == 0 {
        return None;
    }
    let who = read_limits(words)?;
    Some(Own::Seek(reach, who))
}

fn read_limits(mut words: Words<'_>) -> Option<WhoIs>
    ensures { result ≡ limits_of words.entry }
{
    let Some(word) = words.next_word() else {
        return Some(WhoIs::All);
    };
    let low = read_number(word, LAST_INSTANCE)? as u32;
    let high = words.next_number(LAST_INSTANCE)? as u32;
    if low > high || words.next_word().is_some() {
        return None;
    }
    Some(WhoIs::Range { low, high })
}

fn read_rest(mut words: Words<'_>) -> Option<Own>
    ensures value { option_map own_seen result ≡ rest_of words.entry }
    ensures some { IfSome result IsSendable }
{
    let time = words.next_number(LONGEST_REST)?;
    if words.next_word().is_some() {
        return None;
    }
    Some(Own::Rest(time as u32))
}
