//! The lines of a script.

ghost use Rattle.std.specs.{Prelude.{[], IfSome, MatchOption, MatchResult, option_map, ◌≡◌}, Str.is_utf8};
ghost use Rattle.bac_pdu.specs.{IsPriority, station};
ghost use Rattle.bac_text.specs.{plain_peer_of, Address.peer_of, Parameters.write_index_of, Words.{next_as, octets_of}};
ghost use Rattle.{bac_wire.specs.{identifier, result_seen}, bac_script.specs.{arrival_of, arrival_seen, Happens}};
ghost use Rattle.bac_script.specs.{index_in, is_nothing, line_seen, priority_of, property_in, reading_of, said};
ghost use Rattle.bac_script.specs.{said_by, settings_of, text_of_line, tick_of, writing_of, Inner.IsLeft};

use crate::long_write::LongWrite;
use bac_pdu::{Peer, READ_PROPERTY, ReadRequest, WRITE_PROPERTY};
use bac_text::{
    BodyRoom, Delimiter, LONGEST_DATAGRAM, LONGEST_LINE, PairFault, WordSource, Words, peer_in,
    plain_peer_in, position_of_end, priority_from, read_datagram, read_number, read_write_index,
};
use bac_tsm::{Config, Event};
use bac_wire::ObjectId;
use std::str;

/// The meaning of a line. Its octets are in the room that was lent to read it.
#[derive(Drop)]
pub enum Line<'a> {
    /// The line has no words.
    Blank,
    /// The line is a remark.
    Remark,
    /// The client's settings and its first ticket.
    Client(Config, u64),
    /// An event of the client.
    Happens(Event<'a>),
    /// A request to write whose service body is too long to be sent.
    LongWrite(LongWrite<'a>),
    /// A datagram for the device.
    Ask(Received<'a>),
}

impl Line<'_> {
    /// Returns whether the line is blank or a remark.
    pub fn is_skipped(&self) -> bool
        ensures { result ≡ is_nothing (line_seen self.now) }
    {
        matches!(self, Line::Blank | Line::Remark)
    }
}

/// A datagram, and its sender.
#[derive(Clone, Copy)]
pub struct Received<'a> {
    pub from: Peer,
    pub datagram: &'a [u8],
}

/// Room for the octets of a line, which is used again for the next line.
#[derive(Drop)]
pub struct LineRoom {
    datagram: [u8; LONGEST_DATAGRAM],
    body: BodyRoom,
}

impl LineRoom {
    pub fn new() -> Self {
        LineRoom {
            datagram: [0; LONGEST_DATAGRAM],
            body: BodyRoom::new(),
        }
    }
}

/// Why a line can't be run.
#[derive(Clone, Copy, PartialEq, Eq)]
pub enum LineFault {
    /// The line is not in the language.
    Bad,
    /// The line has more octets than a line may have.
    TooLong,
}

/// Returns the meaning of a line, which may end with a line feed. `is_first` says whether all lines before it were
/// blank or remarks.
#[inline(always)]
pub fn read_line<'a>(
    line: &'a [u8],
    is_first: bool,
    room: &'a mut LineRoom,
) -> Result<Line<'a>, LineFault>
    ensures { result_seen line_seen result ≡ said is_first line.now }
{
    let text = line_text(line)?;
    if !is_text(text) {
        return Err(LineFault::Bad);
    }
    read_words(Words::new(text), is_first, room).ok_or(LineFault::Bad)
}

/// Returns the octets of a line without its line feed and a carriage return before that.
pub fn line_text(line: &[u8]) -> Result<&[u8], LineFault>
    ensures { MatchResult result (λ text. text_of_line line.now ≡ Ok text.now)
        (λ fault. text_of_line line.now ≡ Err fault) }
{
    let (text, is_ended) = match line {
        [text @ .., b'\n'] => (text, true),
        _ => (line, false),
    };
    if text.len() > LONGEST_LINE {
        return Err(LineFault::TooLong);
    }
    match text {
        [shorter @ .., b'\r'] if is_ended => Ok(shorter),
        _ => Ok(text),
    }
}

// Returns whether the octets are UTF-8. Most lines are all ASCII, which is checked first because it is faster.
fn is_text(octets: &[u8]) -> bool
    ensures { result ≡ is_utf8 octets.now }
{
    match position_of_end(octets, Delimiter::PastAscii) {
        None => true,
        Some(_) => str::from_utf8(octets).is_ok(),
    }
}

#[inline(always)]
fn read_words<'a>(mut words: Words<'a>, is_first: bool, room: &'a mut LineRoom) -> Option<Line<'a>>
    ensures { option_map line_seen result ≡ said_by is_first words.entry }
{
    let Some(name) = words.next_word() else {
        return Some(Line::Blank);
    };
    if name.first() == Some(&b'#') {
        return Some(Line::Remark);
    }
    if is_first && name == b"client".as_slice() {
        return read_settings(words);
    }
    if name == b"read".as_slice() {
        return read_reading(words, room);
    }
    if name == b"write".as_slice() {
        return read_writing(words, room);
    }
    if name == b"data".as_slice() {
        let arrival = read_arrival(words, room)?;
        return Some(Line::Happens(Event::Data(arrival.from, arrival.datagram)));
    }
    if name == b"tick".as_slice() {
        return read_tick(words);
    }
    if name == b"ask".as_slice() {
        return read_arrival(words, room).map(Line::Ask);
    }
    None
}

fn read_settings(mut words: Words<'_>) -> Option<Line<'_>>
    ensures { option_map line_seen result ≡ settings_of words.entry }
{
    let timeout = words.next_number(u32::MAX.into())?;
    let retries = words.next_number(u8::MAX.into())?;
    let ticket = words.next_number(u64::MAX)?;
    let config = Config::new(timeout as u32, retries as u8)?;
    ended(words)?;
    Some(Line::Client(config, ticket))
}

fn read_reading<'a>(mut words: Words<'_>, room: &'a mut LineRoom) -> Option<Line<'a>>
    ensures { option_map line_seen result ≡ option_map Happens (reading_of words.entry) }
{
    let peer = next_peer(&mut words)?;
    let (object, property) = next_property(&mut words)?;
    let index = next_index(&mut words)?;
    ended(words)?;
    let request = ReadRequest {
        object,
        property,
        index,
    };
    let body = room.body.body_of_read(&request);
    Some(Line::Happens(Event::Ask(peer, READ_PROPERTY, body)))
}

fn read_writing<'a>(mut words: Words<'a>, room: &'a mut LineRoom) -> Option<Line<'a>>
    ensures { option_map line_seen result ≡ option_map Happens (writing_of words.entry) }
{
    let peer = next_peer(&mut words)?;
    let (object, property) = next_property(&mut words)?;
    let priority = next_priority(&mut words)?;
    let index = next_write_index(&mut words)?;
    let pairs = words.again();
    match room
        .body
        .body_of_write(object, property, index, priority, &mut words)
    {
        Ok(body) => Some(Line::Happens(Event::Ask(peer, WRITE_PROPERTY, body))),
        Err(PairFault::TooLong) => Some(Line::LongWrite(LongWrite {
            peer,
            object,
            property,
            index,
            priority,
            words: pairs,
        })),
        Err(PairFault::Bad(_)) => None,
    }
}

#[inline(always)]
fn read_arrival<'a>(mut words: Words<'_>, room: &'a mut LineRoom) -> Option<Received<'a>>
    ensures { option_map arrival_seen result ≡ arrival_of words.entry }
{
    let from = next_plain_peer(&mut words)?;
    let datagram = next_datagram(&mut words, &mut room.datagram)?;
    ended(words)?;
    Some(Received { from, datagram })
}

fn read_tick(mut words: Words<'_>) -> Option<Line<'_>>
    ensures { option_map line_seen result ≡ option_map Happens (tick_of words.entry) }
{
    let now = words.next_number(u64::MAX)?;
    ended(words)?;
    Some(Line::Happens(Event::Tick(now)))
}

#[inline(always)]
fn next_peer(words: &mut Words<'_>) -> Option<Peer>
    ensures { MatchOption result (next_as peer_of words.old ≡ None)
        (λ peer. next_as peer_of words.old ≡ Some (station peer, words.new)) }
{
    let word = words.next_word()?;
    peer_in(word)
}

// Returns the property of an object that the next three words name.
fn next_property(words: &mut Words<'_>) -> Option<(ObjectId, u32)>
    ensures { MatchOption result (property_in words.old ≡ None)
        (λ named. property_in words.old ≡ Some ((identifier named.0, named.1), words.new)) }
{
    let kind = words.next_number(1_023)?;
    let instance = words.next_number(4_194_303)?;
    let property = words.next_number(4_194_303)?;
    let object = ObjectId::new(kind as u16, instance as u32)?;
    Some((object, property as u32))
}

// Returns the number of an element, if a word is left.
fn next_index(words: &mut Words<'_>) -> Option<Option<u32>>
    ensures { MatchOption result (index_in words.old ≡ None) (λ index. index_in words.old ≡ Some (index, words.new)) }
{
    let Some(word) = words.next_word() else {
        return Some(None);
    };
    let index = read_number(word, u32::MAX.into())?;
    Some(Some(index as u32))
}

// Returns the priority, if the number is not 0.
fn next_priority(words: &mut Words<'_>) -> Option<Option<u8>>
    ensures value { MatchOption result (next_as priority_of words.old ≡ None)
        (λ priority. next_as priority_of words.old ≡ Some (priority, words.new)) }
    ensures priority { IfSome result (λ priority. IfSome priority IsPriority) }
{
    let number = words.next_number(16)?;
    Some(priority_from(number as u8))
}

// Returns the number of an element, if the word is not -1.
fn next_write_index(words: &mut Words<'_>) -> Option<Option<u32>>
    ensures { MatchOption result (next_as write_index_of words.old ≡ None)
        (λ index. next_as write_index_of words.old ≡ Some (index, words.new)) }
{
    let word = words.next_word()?;
    read_write_index(word)
}

#[inline(always)]
fn next_plain_peer(words: &mut Words<'_>) -> Option<Peer>
    ensures { MatchOption result (next_as plain_peer_of words.old ≡ None)
        (λ peer. next_as plain_peer_of words.old ≡ Some (station peer, words.new)) }
{
    let word = words.next_word()?;
    plain_peer_in(word)
}

#[inline(always)]
fn next_datagram<'a>(
    words: &mut Words<'_>,
    room: &'a mut [u8; LONGEST_DATAGRAM],
) -> Option<&'a [u8]>
    ensures { MatchOption result (next_as octets_of words.old ≡ None)
        (λ datagram. next_as octets_of words.old ≡ Some (datagram.now, words.new)) }
{
    let word = words.next_word()?;
    read_datagram(word, room)
}

// Returns Some if no word is left.
fn ended(mut words: Words<'_>) -> Option<()>
    ensures { MatchOption result (IsLeft words.entry) (λ _. words.entry ≡ []) }
{
    match words.next_word() {
        Some(_) => None,
        None => Some(()),
    }
}
