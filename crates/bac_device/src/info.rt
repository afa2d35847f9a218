//! The instance and the name of a device.

ghost use Rattle.std.specs.Prelude.{IfSome, IsSome, ◌↔◌, ◌≡◌};
ghost use Rattle.{bac_wire.specs.identifier, bac_device.specs.{device_object, is_device, IsInfo}};

use crate::numbers::NO_INSTANCE;
use crate::point::NAME_OCTETS;
use arrayvec::ArrayString;
use bac_pdu::DEVICE;
use bac_wire::ObjectId;
use std::marker::Model;

/// The identity of a device: the instance of its device object, and its name.
#[derive(Drop)]
pub struct DeviceInfo {
    instance: u32,
    name: ArrayString<NAME_OCTETS>,
}

impl Model for DeviceInfo {
    ghost use Rattle.std.specs.Prelude.{◌<◌};
    ghost use Rattle.bac_device.specs.{no_instance, Info.Info};

    ghost Value = { Info };

    ghost view = { λ i. record { instance = i.instance; name = i.name.bytes } };

    ghost invariant = { λ i. i.instance < no_instance };
}

impl DeviceInfo {
    /// Returns the identity with this instance and name. `None` if the instance is more than 4194302, or if the name
    /// has no octet or more than 64.
    pub fn new(instance: u32, name: &str) -> Option<Self>
        ensures valid { IsSome result ↔ IsInfo (record { instance = instance; name = name.now }) }
        ensures value { IfSome result (λ info. info ≡ record { instance = instance; name = name.now }) }
    {
        if instance >= NO_INSTANCE || name.is_empty() {
            return None;
        }
        let name = ArrayString::from(name).ok()?;
        Some(DeviceInfo { instance, name })
    }

    /// Returns the device object.
    pub(crate) fn object(&self) -> ObjectId
        ensures { identifier result ≡ device_object self.now }
    {
        ObjectId::new(DEVICE, self.instance).unwrap()
    }

    /// Returns whether the object is the device: with its own instance, or the one that stands for every device.
    pub(crate) fn is_object(&self, object: ObjectId) -> bool
        ensures { result ≡ is_device self.now (identifier object) }
    {
        object.kind() == DEVICE
            && (object.instance() == self.instance || object.instance() == NO_INSTANCE)
    }

    /// Returns the instance of the device's object.
    pub(crate) fn instance(&self) -> u32
        ensures { result ≡ self.now.instance }
    {
        self.instance
    }

    /// Returns the name of the device.
    pub(crate) fn name(&self) -> &str
        ensures { result.now ≡ self.now.name }
    {
        self.name.as_str()
    }
}
