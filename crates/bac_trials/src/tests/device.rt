//! Points of a device.

use crate::tests::small_device;
use bac_device::{AddFault, Device, DeviceInfo, POINTS, Point};
use bac_wire::ObjectId;

/// A point: its type, instance, name, start and extra.
type Row<'a> = (u16, u32, &'a str, u32, u32);

type Added = Result<(), AddFault>;

/// Returns the device's result of adding this point.
fn added(device: &mut Device, (kind, instance, name, start, extra): Row<'_>) -> Option<Added> {
    let id = ObjectId::new(kind, instance)?;
    Some(device.add(&Point {
        id,
        name,
        start,
        extra,
    }))
}

/// Points, and the small device's result of adding each.
static POINTS_ADDED: [(Row<'static>, Added); 23] = [
    ((0, 6, "Indoor temperature", 0, 62), Ok(())),
    ((0, 5, "Indoor temperature", 0, 62), Err(AddFault::Twice)),
    ((0, 5, "Valve", 0, 62), Err(AddFault::Twice)),
    ((0, 6, "Valve", 0, 62), Err(AddFault::NameTwice)),
    ((0, 6, "Small device", 0, 62), Err(AddFault::NameTwice)),
    ((19, 2, "Year", 1, 0), Err(AddFault::BadPoint)),
    ((19, 2, "Year", 0, 4), Err(AddFault::BadPoint)),
    ((19, 2, "Year", 5, 4), Err(AddFault::BadPoint)),
    ((5, 2, "Empty", 0, 1), Err(AddFault::BadPoint)),
    ((4, 2, "Pump", 2, 0), Err(AddFault::BadPoint)),
    ((8, 2, "Device", 0, 0), Err(AddFault::BadPoint)),
    ((0, 4_194_303, "Nothing", 0, 0), Err(AddFault::BadPoint)),
    ((0, 6, "", 0, 0), Err(AddFault::BadPoint)),
    ((0, 6, LONGEST_NAME, u32::MAX, u32::MAX), Ok(())),
    ((0, 6, LONGER_NAME, 0, 0), Err(AddFault::BadPoint)),
    ((0, 4_194_302, "Last", 0, 0), Ok(())),
    ((0, 5, "", 0, 62), Err(AddFault::Twice)),
    ((8, 1234, "Valve", 0, 0), Err(AddFault::NameTwice)),
    ((8, 1234, "Device", 0, 0), Err(AddFault::BadPoint)),
    ((0, 6, "valve", 0, 62), Ok(())),
    ((3, 6, "Gate", 1, 1), Ok(())),
    ((3, 6, "Gate", 1, 2), Err(AddFault::BadPoint)),
    ((13, 6, "Stage", 3, 3), Ok(())),
];

/// A name of 64 octets, and one of 65.
const LONGEST_NAME: &str = "0123456789012345678901234567890123456789012345678901234567890123";

const LONGER_NAME: &str = "01234567890123456789012345678901234567890123456789012345678901234";

#[test]
fn refused_points(rt: HostRuntime) {
    for (row, outcome) in &POINTS_ADDED {
        let answer = match small_device() {
            Some(mut device) => added(&mut device, *row),
            None => None,
        };
        let (kind, instance, name, ..) = *row;
        assert!(&rt; answer == Some(*outcome), "{kind} {instance} {name}");
    }
}

/// Returns a device with 31 analog inputs, each with a different name.
fn with_inputs() -> Option<Device> {
    let mut device = Device::new(DeviceInfo::new(1, "x")?);
    for number in 0..31_u8 {
        let pair = [b'0' + number / 8, b'a' + number % 8];
        let name = std::str::from_utf8(&pair).ok()?;
        let _ = added(&mut device, (0, u32::from(number), name, 0, 0))?;
    }
    Some(device)
}

/// Returns the results of a device with 31 points if two more are added, and then the first of them again.
fn answers_at_the_end() -> Option<[Added; 3]> {
    let mut device = with_inputs()?;
    let before = added(&mut device, (0, 98, "last", 0, 0))?;
    let after = added(&mut device, (0, 99, "one more", 0, 0))?;
    Some([before, after, added(&mut device, (0, 98, "last", 0, 0))?])
}

#[test]
fn device_infos_and_thirty_three_points(rt: HostRuntime) {
    assert!(&rt; DeviceInfo::new(4_194_303, "x").is_none() && DeviceInfo::new(1, "").is_none());
    assert!(&rt; DeviceInfo::new(4_194_302, "x").is_some() && POINTS == 32);
    assert!(&rt;
        answers_at_the_end() == Some([Ok(()), Err(AddFault::TooMany), Err(AddFault::TooMany)])
    );
}

fn present(kind: u16, instance: u32) -> Option<u32> {
    small_device()?.present(ObjectId::new(kind, instance)?)
}

/// Returns whether the small device has this place, and it is NULL.
fn is_null(kind: u16, instance: u32, priority: u8) -> Option<bool> {
    let object = ObjectId::new(kind, instance)?;
    Some(small_device()?.place(object, priority)?.is_none())
}

#[test]
fn places(rt: HostRuntime) {
    assert!(&rt; present(0, 99).is_none() && present(0, 5) == Some(0x4290_999a));
    assert!(&rt; is_null(1, 1, 0).is_none() && is_null(1, 1, 17).is_none());
    assert!(&rt; is_null(1, 1, 1) == Some(true) && is_null(0, 5, 1).is_none());
}
