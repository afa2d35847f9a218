//! Which writes the device accepts.

ghost use Rattle.std.specs.Prelude.{IfOk, IfSome, ◌≡◌};
ghost use Rattle.bac_pdu.specs.{IsPriority, Property.order};
ghost use Rattle.{bac_wire.specs.result_seen, bac_device.specs.Inner.write_seen};
ghost use Rattle.bac_device.specs.Access as spec;

use crate::device::Device;
use crate::failure::Failure;
use crate::point::StandingPoint;
use crate::write::PlaceWrite;
use bac_pdu::WriteRequest;

// The priority of a write that names none (clause 19.2).
const LEAST_URGENT: u8 = 16;

// The priority that is kept for minimum on and off times (clause 19.2).
const MINIMUM_TIMES: u8 = 6;

impl Device {
    /// Returns the write that a request orders, if the device accepts it; otherwise the failure.
    #[tactic(auto, unfolding(crate::specs::accepted_write))]
    pub(crate) fn accepted_write(&self, request: &WriteRequest<'_>) -> Result<PlaceWrite, Failure>
        requires { IfSome request.now.priority IsPriority }
        ensures { result_seen write_seen result ≡ spec.accepted_write self.now (order request.now) }
    {
        let Some(point) = self.commanded_point(request.object, request.property) else {
            let property = self.property(request.object, request.property)?;
            if request.index.is_some() && !property.is_array() {
                return Err(Failure::NotAnArray);
            }
            return Err(Failure::WriteDenied);
        };
        // A present value is not an array.
        if request.index.is_some() {
            return Err(Failure::NotAnArray);
        }
        ordered_write(point, request)
    }
}

// Returns the write that a request orders of a point.
#[tactic(auto, unfolding(crate::specs::ordered_write))]
fn ordered_write(point: &StandingPoint, request: &WriteRequest<'_>) -> Result<PlaceWrite, Failure>
    requires { IfSome request.now.priority IsPriority }
    ensures { result_seen write_seen result ≡ spec.ordered_write point.now (order request.now) }
{
    let priority = urgency(request.priority)?;
    let value = point.value_in(request.value)?;
    Ok(PlaceWrite {
        object: request.object,
        priority,
        value,
    })
}

// Returns the priority of a write: the least urgent if it names none, and never the reserved one.
fn urgency(priority: Option<u8>) -> Result<u8, Failure>
    requires { IfSome priority IsPriority }
    ensures value { result ≡ spec.urgency priority }
    ensures urgent { IfOk result IsPriority }
{
    match priority {
        None => Ok(LEAST_URGENT),
        Some(MINIMUM_TIMES) => Err(Failure::WriteDenied),
        Some(priority) => Ok(priority),
    }
}
