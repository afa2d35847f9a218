//! Who-Is and I-Am, read and written.

ghost use Rattle.std.specs.Prelude.{OnOk, option_map, ◌≡◌};
ghost use Rattle.bac_wire.specs.{Appends, identifier, IsShortest, Inner.Writing.AppendsFront};
ghost use Rattle.bac_pdu.specs.{asks, i_am_octets, introduction, introduction_of, IsIAmBody, IsWhoIsBody};
ghost use Rattle.bac_pdu.specs.{who_is_octets, who_is_of, Inner.HasLimits};

use crate::property::number_and_rest;
use crate::value::{enumerated_and_rest, identifier_and_rest, unsigned_and_rest};
use crate::writing::{append_number, whole_or_nothing};
use bac_wire::{Frame, Full, ObjectId, Value, write_value};

/// The object type of devices (clause 21).
pub const DEVICE: u16 = 8;

// The numbers of the parameters of Who-Is.
const LOW_LIMIT: u8 = 0;

const HIGH_LIMIT: u8 = 1;

/// Which devices are asked to answer (clause 16.10): all, or those with an instance between two limits, both included.
///
/// If low is above high, no device is asked.
#[derive(Clone, Copy, Debug, PartialEq, Eq)]
pub enum WhoIs {
    All,
    Range { low: u32, high: u32 },
}

impl WhoIs {
    /// Returns whether the device with this instance is asked.
    pub fn asks(self, instance: u32) -> bool
        ensures { result ≡ asks self instance }
    {
        match self {
            WhoIs::All => true,
            WhoIs::Range { low, high } => low <= instance && instance <= high,
        }
    }
}

/// The contents of an I-Am (clause 16.10).
#[derive(Clone, Copy, Debug, PartialEq, Eq)]
pub struct IAm {
    /// The device, an object of type 8.
    pub device: ObjectId,
    /// The octets of the longest APDU that the device accepts.
    pub max_apdu: u64,
    /// The number of the segmentation that the device supports; 3 means no segmentation.
    pub segmentation: u32,
    /// The number of the device's vendor.
    pub vendor: u64,
}

/// Returns which devices the body of a Who-Is asks for. `None` if the body is not whole.
#[tactic(auto, unfolding(crate::specs::who_is_of))]
pub fn read_whois(body: &[u8]) -> Option<WhoIs>
    ensures value { result ≡ who_is_of body.now }
{
    if body.is_empty() {
        return Some(WhoIs::All);
    }
    let (low, rest) = number_and_rest(LOW_LIMIT, body)?;
    let (high, rest) = number_and_rest(HIGH_LIMIT, rest)?;
    if !rest.is_empty() {
        return None;
    }
    Some(WhoIs::Range { low, high })
}

/// Returns the contents of the body of an I-Am. `None` if the body is not whole, or if the object is not a device.
#[tactic(auto, unfolding(crate::specs::introduction_of))]
pub fn read_iam(body: &[u8]) -> Option<IAm>
    ensures value { option_map introduction result ≡ introduction_of body.now }
{
    let (device, rest) = identifier_and_rest(body)?;
    let (max_apdu, rest) = unsigned_and_rest(rest)?;
    let (segmentation, rest) = enumerated_and_rest(rest)?;
    let (vendor, rest) = unsigned_and_rest(rest)?;
    if device.kind() != DEVICE || !rest.is_empty() {
        return None;
    }
    Some(IAm {
        device,
        max_apdu,
        segmentation,
        vendor,
    })
}

/// Appends the body of a Who-Is, each number in its fewest octets. Returns `Full`, with the frame unchanged, only if
/// there is no room for it.
#[tactic(auto, using(crate::proofs::limits_back, crate::proofs::who_is_shortest, std::proofs::lemmas::Result::on_ok_weaker))]
pub fn write_whois(frame: &mut Frame, who: &WhoIs) -> Result<(), Full>
    ensures appended { Appends frame.old (who_is_octets who.now) frame.new result }
    ensures shortest { OnOk result (IsShortest IsWhoIsBody (who_is_octets who.now) who.now) }
    ensures read_back { OnOk result (who_is_of (who_is_octets who.now) ≡ Some who.now) }
{
    let start = frame.len();
    let appended = append_limits(frame, who);
    whole_or_nothing(frame, start, appended)
}

/// Appends the body of an I-Am, each number in its fewest octets. The object must be a device. Returns `Full`, with the
/// frame unchanged, only if there is no room for it.
pub fn write_iam(frame: &mut Frame, i_am: &IAm) -> Result<(), Full>
    requires { (identifier i_am.now.device).kind ≡ 8 }
    ensures appended { Appends frame.old (i_am_octets (introduction i_am.now)) frame.new result }
    ensures shortest { OnOk result
        (IsShortest IsIAmBody (i_am_octets (introduction i_am.now)) (introduction i_am.now)) }
    ensures read_back { OnOk result
        (introduction_of (i_am_octets (introduction i_am.now)) ≡ Some (introduction i_am.now)) }
{
    let start = frame.len();
    let appended = append_introduction(frame, i_am);
    whole_or_nothing(frame, start, appended)
}

// Appends the body of a Who-Is. If there is no room, the beginning of it may stay.
fn append_limits(frame: &mut Frame, who: &WhoIs) -> Result<(), Full>
    ensures appended { AppendsFront frame.old (who_is_octets who.now) frame.new result }
    ensures known { OnOk result (HasLimits who.now) }
{
    match who {
        WhoIs::All => frame.append(&[]),
        WhoIs::Range { low, high } => {
            append_number(frame, LOW_LIMIT, *low)?;
            append_number(frame, HIGH_LIMIT, *high)
        }
    }
}

// Appends the body of an I-Am. If there is no room, the beginning of it may stay.
#[tactic(auto, using(bac_wire::proofs::TagLaws::in_parts))]
fn append_introduction(frame: &mut Frame, i_am: &IAm) -> Result<(), Full>
    requires { (identifier i_am.now.device).kind ≡ 8 }
    ensures appended { AppendsFront frame.old (i_am_octets (introduction i_am.now)) frame.new result }
    ensures shortest { OnOk result
        (IsShortest IsIAmBody (i_am_octets (introduction i_am.now)) (introduction i_am.now)) }
{
    write_value(frame, &Value::Object(i_am.device))?;
    write_value(frame, &Value::Unsigned(i_am.max_apdu))?;
    write_value(frame, &Value::Enumerated(i_am.segmentation))?;
    write_value(frame, &Value::Unsigned(i_am.vendor))
}
