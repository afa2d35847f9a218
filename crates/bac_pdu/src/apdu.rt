//! APDUs, read and written.

ghost use Rattle.std.specs.Prelude.{[], length, OnOk, option_map, ◌++◌, ◌<◌, ◌∷◌, ◌≡◌};
ghost use Rattle.{bac_wire.specs.Appends, bac_pdu.specs.{announced_size, apdu_of, complex_ack_of, confirmed_of}};
ghost use Rattle.bac_pdu.specs.{IsWritable, laid_out, message, part_flags, part_octets, parts_at};

use crate::bits::has_bit;
use crate::writing::whole_or_nothing;
use arrayvec::ArrayVec;
use bac_wire::{Frame, Full};

/// An APDU (clause 20.1). `id` is the invoke id, and `service` is the number of the service choice.
///
/// `part` is given if the APDU is one part of a longer message; `code` is that of the longest APDU that the requester
/// accepts.
#[derive(Clone, Copy, Debug, PartialEq, Eq)]
pub enum Apdu<'a> {
    Confirmed {
        part: Option<Part>,
        code: u8,
        id: u8,
        service: u8,
        body: &'a [u8],
    },
    Unconfirmed {
        service: u8,
        body: &'a [u8],
    },
    SimpleAck {
        id: u8,
        service: u8,
    },
    ComplexAck {
        part: Option<Part>,
        id: u8,
        service: u8,
        body: &'a [u8],
    },
    /// A SegmentACK, of which only the type is read.
    SegmentAck,
    Error {
        id: u8,
        service: u8,
        body: &'a [u8],
    },
    Reject {
        id: u8,
        reason: u8,
    },
    Abort {
        /// Whether the answering side sent it.
        server: bool,
        id: u8,
        reason: u8,
    },
}

/// The place of an APDU among the parts of a longer message (clause 5.2).
#[derive(Clone, Copy, Debug, PartialEq, Eq)]
pub struct Part {
    /// Whether more parts follow.
    pub more: bool,
    /// The number of this part, in a cycle of 256.
    pub sequence: u8,
    /// How many parts the sender sends before it waits for a SegmentACK.
    pub window: u8,
}

/// Returns the APDU in the octets. `None` if there are no octets, if the type is unknown, or if the layout is cut off.
///
/// Bits and octets that the layout of the type does not name are ignored.
#[tactic(auto, unfolding(crate::specs::apdu_of))]
#[inline(always)]
pub fn read_apdu(octets: &[u8]) -> Option<Apdu<'_>>
    ensures value { option_map message result ≡ apdu_of octets.now }
{
    let [first, rest @ ..] = octets else {
        return None;
    };
    match (*first >> 4, rest) {
        (0, _) => read_confirmed(*first, rest),
        (1, [service, body @ ..]) => Some(Apdu::Unconfirmed {
            service: *service,
            body,
        }),
        (2, [id, service, ..]) => Some(Apdu::SimpleAck {
            id: *id,
            service: *service,
        }),
        (3, _) => read_complex_ack(*first, rest),
        (4, _) => Some(Apdu::SegmentAck),
        (5, [id, service, body @ ..]) => Some(Apdu::Error {
            id: *id,
            service: *service,
            body,
        }),
        (6, [id, reason, ..]) => Some(Apdu::Reject {
            id: *id,
            reason: *reason,
        }),
        (7, [id, reason, ..]) => Some(Apdu::Abort {
            server: has_bit(*first, 0),
            id: *id,
            reason: *reason,
        }),
        _ => None,
    }
}

/// Appends the APDU, with 0 in each bit that readers ignore. It must not be a SegmentACK, and a code must be below 16.
/// Returns `Full`, with the frame unchanged, only if there is no room for the APDU.
#[inline(always)]
pub fn write_apdu(frame: &mut Frame, apdu: &Apdu<'_>) -> Result<(), Full>
    requires { IsWritable (message apdu.now) }
    ensures appended { Appends frame.old (laid_out (message apdu.now)) frame.new result }
    ensures read_back { OnOk result (apdu_of (laid_out (message apdu.now)) ≡ Some (message apdu.now)) }
{
    append_apdu(frame, apdu)
}

/// The octets of the longest service body that a client sends. With the four octets before it in a request (clause
/// 20.1.2) they make an APDU of 480 octets. Code 3 announces this length, and it fits a frame of ARCNET (clause
/// 20.1.2.5).
pub const LONGEST_BODY: usize = 476;

/// Returns the octets of the longest APDU that a code announces (clause 20.1.2.5) in its low four bits. Codes above 5
/// count as 0.
pub fn announced(code: u8) -> u16
    ensures { result ≡ announced_size code }
{
    match code & 15 {
        1 => 128,
        2 => 206,
        3 => 480,
        4 => 1024,
        5 => 1476,
        _ => 50,
    }
}

// Reads the rest of a Confirmed-Request.
fn read_confirmed(first: u8, octets: &[u8]) -> Option<Apdu<'_>>
    ensures { option_map message result ≡ confirmed_of first octets.now }
{
    let [second, id, rest @ ..] = octets else {
        return None;
    };
    let (part, service, body) = read_parts(first, rest)?;
    Some(Apdu::Confirmed {
        part,
        code: *second & 15,
        id: *id,
        service,
        body,
    })
}

// Reads the rest of a ComplexACK.
fn read_complex_ack(first: u8, octets: &[u8]) -> Option<Apdu<'_>>
    ensures { option_map message result ≡ complex_ack_of first octets.now }
{
    let [id, rest @ ..] = octets else {
        return None;
    };
    let (part, service, body) = read_parts(first, rest)?;
    Some(Apdu::ComplexAck {
        part,
        id: *id,
        service,
        body,
    })
}

// Reads the part, the service and the body.
#[tactic(auto, unfolding(crate::specs::parts_at))]
fn read_parts(first: u8, octets: &[u8]) -> Option<(Option<Part>, u8, &[u8])>
    ensures { option_map (λ x. (x.0, x.1, x.2.now)) result ≡ parts_at first octets.now }
{
    if !has_bit(first, 3) {
        let [service, body @ ..] = octets else {
            return None;
        };
        return Some((None, *service, body));
    }
    let [sequence, window, service, body @ ..] = octets else {
        return None;
    };
    let part = Part {
        more: has_bit(first, 2),
        sequence: *sequence,
        window: *window,
    };
    Some((Some(part), *service, body))
}

#[inline(always)]
fn append_apdu(frame: &mut Frame, apdu: &Apdu<'_>) -> Result<(), Full>
    requires { IsWritable (message apdu.now) }
    ensures { Appends frame.old (laid_out (message apdu.now)) frame.new result }
{
    match apdu {
        Apdu::Confirmed {
            part,
            code,
            id,
            service,
            body,
        } => {
            let head = head_of(&[flags_of(*part), *code, *id], *part, *service);
            append_both(frame, head.as_slice(), body)
        }
        Apdu::Unconfirmed { service, body } => append_both(frame, &[0x10, *service], body),
        Apdu::SimpleAck { id, service } => frame.append(&[0x20, *id, *service]),
        Apdu::ComplexAck {
            part,
            id,
            service,
            body,
        } => {
            let head = head_of(&[0x30 + flags_of(*part), *id], *part, *service);
            append_both(frame, head.as_slice(), body)
        }
        // A SegmentACK is excluded by the precondition.
        Apdu::SegmentAck => Ok(()),
        Apdu::Error { id, service, body } => append_both(frame, &[0x50, *id, *service], body),
        Apdu::Reject { id, reason } => frame.append(&[0x60, *id, *reason]),
        Apdu::Abort { server, id, reason } => frame.append(&[
            0x70 + u8::from(*server),
            *id,
            *reason,
        ]),
    }
}

fn flags_of(part: Option<Part>) -> u8
    ensures value { result ≡ part_flags part }
    ensures fits { result < 16 }
{
    match part {
        Some(Part { more: true, .. }) => 12,
        Some(Part { more: false, .. }) => 8,
        None => 0,
    }
}

// Returns the octets before the body of a message that can have a part.
#[inline(always)]
fn head_of(begin: &[u8], part: Option<Part>, service: u8) -> ArrayVec<u8, 6>
    requires { length begin.now < 4 }
    ensures value { result.items ≡ begin.now ++ (part_octets part ++ service ∷ []) }
{
    let mut head = ArrayVec::new();
    head.try_extend_from_slice(begin).unwrap();
    if let Some(part) = part {
        head.push(part.sequence);
        head.push(part.window);
    }
    head.push(service);
    head
}

// Appends the head and the body. If there is no room for both, nothing is appended.
#[tactic(auto, using(bac_wire::proofs::TagLaws::in_parts))]
fn append_both(frame: &mut Frame, head: &[u8], body: &[u8]) -> Result<(), Full>
    ensures { Appends frame.old (head.now ++ body.now) frame.new result }
{
    let start = frame.len();
    frame.append(head)?;
    let appended = frame.append(body);
    whole_or_nothing(frame, start, appended)
}
