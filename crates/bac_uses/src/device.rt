//! A device with one valve, and the effect of a datagram on it.

ghost use Rattle.std.specs.{Option.option_map, Prelude.{[], Some, ◌∷◌, ◌≡◌}};
ghost use Rattle.bac_pdu.specs.{station};
ghost use Rattle.bac_device.specs.{device_after, Device.present_after, Reply.{reply_to, writes_after}};
ghost use Rattle.bac_uses.specs.Heating.{heating, valve};

use bac_device::{Device, DeviceInfo, Point};
use bac_pdu::Peer;
use bac_wire::{Frame, ObjectId};
use bac_work::begin;

/// Passes the device any datagram from any sender. Returns the receiver of the reply in the frame, if there is one, and
/// the valve's present value after it.
pub fn answered(from: Peer, datagram: &[u8], frame: &mut Frame) -> (Option<Peer>, u32)
    // The reply is that of the definition.
    ensures reply { option_map (λ peer. (station peer, frame.new)) result.0
        ≡ reply_to heating (valve ∷ []) [] (station from) datagram.now }
    // The valve has the value that this datagram writes, if the device accepts the write, and otherwise 0.
    ensures valve { Some result.1 ≡ present_after (valve ∷ [])
        (writes_after heating (valve ∷ []) [] (station from) datagram.now) valve.object }
{
    let mut device = one_valve();
    let to = device.answer(from, datagram, frame, &mut begin());
    let valve = device.present(ObjectId::new(1, 1).unwrap()).unwrap();
    (to, valve)
}

// Returns a device with one valve. None of these calls can fail, so no caller has to check.
#[tactic(auto, unfolding(bac_device::specs::Device::add_point, bac_device::specs::Point::description_of, bac_device::specs::Kind::kind_of))]
fn one_valve() -> Device
    ensures { result ≡ device_after heating (valve ∷ []) [] }
{
    let mut device = Device::new(DeviceInfo::new(1234, "Heating").unwrap());
    let valve = Point {
        id: ObjectId::new(1, 1).unwrap(),
        name: "Valve",
        start: 0,
        extra: 98,
    };
    device.add(&valve).unwrap();
    device
}
