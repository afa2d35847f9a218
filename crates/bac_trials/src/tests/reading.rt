//! Every part of every datagram goes through the readers of tags, values and regions, also with octets changed. The
//! expected counts come from `tests/site/count_tags.py`, an independent reader of the same grammar.

use crate::tests::datagrams::DATAGRAMS;
use crate::tests::octets;
use bac_wire::{Shape, read_tag, read_value, region};
use bac_work::begin;

/// The octets that each octet is changed to: the edges of a length, and octets that begin tags.
static CHANGES: [u8; 8] = [0x00, 0x05, 0x0e, 0x3f, 0x65, 0xfd, 0xfe, 0xff];

/// The number of parts; of their tags, with the sums of numbers, counts and octets; of their values, with their octets;
/// and of their regions, with theirs. All are at the front of the parts.
type Tally = [u64; 9];

fn tag_at(part: &[u8]) -> [u64; 4] {
    let Some((tag, size)) = read_tag(part) else {
        return [0; 4];
    };
    let count = match tag.shape {
        Shape::App(count) | Shape::Context(count) => count,
        Shape::Opening | Shape::Closing => 0,
    };
    [1, u64::from(tag.number), u64::from(count), size as u64]
}

/// Returns 1 and the size, or zeros if there is no size.
fn counted(size: Option<usize>) -> [u64; 2] {
    match size {
        Some(size) => [1, size as u64],
        None => [0; 2],
    }
}

/// Adds the counts of the octets from each place on.
fn add_rests(tally: &mut Tally, octets: &[u8]) {
    for start in 0..octets.len() {
        let part = &octets[start..];
        let [tags, numbers, counts, length] = tag_at(part);
        let [values, long] = counted(read_value(part).map(|(_, size)| size));
        let [regions, wide] = counted(region(part, &mut begin()));
        let found = [
            1, tags, numbers, counts, length, values, long, regions, wide,
        ];
        for (sum, more) in tally.iter_mut().zip(found) {
            *sum = sum.wrapping_add(more);
        }
    }
}

fn add_prefixes(tally: &mut Tally, datagram: &[u8]) {
    for end in 0..=datagram.len() {
        add_rests(tally, &datagram[..end]);
    }
}

fn add_changes(tally: &mut Tally, datagram: &mut [u8]) {
    for place in 0..datagram.len() {
        let kept = datagram[place];
        for octet in &CHANGES {
            datagram[place] = *octet;
            add_rests(tally, datagram);
        }
        datagram[place] = kept;
    }
}

/// The tally over the parts of all datagrams, whole and cut.
const OF_PREFIXES: Tally = [
    26578, 25759, 35581, 4295035125, 27442, 6338, 8261, 349, 3102,
];

/// The tally over all datagrams, with one octet changed at a time; `COUNTS` is the sum of the counts in the tags.
const COUNTS: u64 = 600255309028;

const OF_CHANGED: Tally = [
    409752, 396668, 712270, COUNTS, 435357, 99538, 170573, 50023, 556069,
];

#[test]
fn prefixes_and_changed_octets(rt: HostRuntime) {
    let mut of_prefixes = [0; 9];
    let mut of_changed = [0; 9];
    for text in DATAGRAMS.split(' ') {
        let mut datagram = octets(&rt, text);
        add_prefixes(&mut of_prefixes, datagram.as_slice());
        add_changes(&mut of_changed, datagram.as_mut_slice());
    }
    assert_eq!(&rt; of_prefixes, OF_PREFIXES);
    assert_eq!(&rt; of_changed, OF_CHANGED);
}
