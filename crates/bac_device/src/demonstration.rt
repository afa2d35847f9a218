//! The demonstration device.

ghost use Rattle.std.specs.Prelude.{[], ◌+◌, ◌<◌, ◌^◌, ◌≡◌, IsSome, length};
ghost use Rattle.bac_device.specs.{demo_points, description_of, device_after, device_room, row, Inner.with_row};

use crate::device::Device;
use crate::info::DeviceInfo;
use crate::point::{Point, StandingPoint};
use bac_wire::ObjectId;

/// Returns a device with the eleven demonstration points: three analog inputs, and a point of each other type. Give it
/// a name that none of them has.
#[tactic(auto, unfolding(crate::specs::description_of, crate::specs::kind_of))]
pub fn demo(info: DeviceInfo) -> Device
    ensures { result ≡ device_after info demo_points [] }
{
    let mut device = Device::new(info);
    // Type, instance, name, start and extra. The starts are 72.3 and 21.0, the units degrees Fahrenheit (64) and
    // Celsius (62), percent (98) and none (95).
    append_row(&mut device, 0, 5, "Outdoor temperature", 0x4290_999a, 64);
    append_row(
        &mut device,
        0,
        35,
        "01234567890123456789012345678901234",
        0,
        95,
    );
    append_row(
        &mut device,
        0,
        36,
        "012345678901234567890123456789012345",
        0,
        95,
    );
    append_row(&mut device, 1, 1, "Valve", 0, 98);
    append_row(&mut device, 2, 2, "Setpoint", 0x41a8_0000, 62);
    append_row(&mut device, 3, 3, "Door", 0, 0);
    append_row(&mut device, 4, 4, "Fan", 0, 0);
    append_row(&mut device, 5, 5, "Occupied", 0, 0);
    append_row(&mut device, 13, 1, "Mode seen", 1, 3);
    append_row(&mut device, 14, 1, "Mode", 1, 3);
    append_row(&mut device, 19, 1, "Season", 1, 4);
    device
}

// Adds one more point, which must be one that a device can have.
#[tactic(auto, unfolding(crate::specs::Inner::with_row))]
fn append_row(device: &mut Device, kind: u16, instance: u32, name: &str, start: u32, extra: u32)
    requires kind { kind < 1024 }
    requires instance { instance < 2 ^ 22 }
    requires point { IsSome (description_of (row kind instance name.now start extra)) }
    requires room { length device.old.standings < device_room }
    ensures after { device.new ≡ with_row device.old (row kind instance name.now start extra) }
    ensures longer { length device.new.standings ≡ length device.old.standings + 1 }
{
    let id = ObjectId::new(kind, instance).unwrap();
    let point = Point {
        id,
        name,
        start,
        extra,
    };
    device.append(StandingPoint::new(&point).unwrap());
}
