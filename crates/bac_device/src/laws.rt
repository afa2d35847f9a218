//! Laws of the definitions that the contracts cite, and of the public types. Each function has an empty body, and
//! its clause is the law.

ghost use Rattle.std.specs.{Option.ForSome, Prelude.{List, Option, ℕ, ◌≡◌}};
ghost use Rattle.{bac_pdu.specs.Station, bac_wire.specs.{EqualsBy, MakesCopies}};
ghost use Rattle.bac_device.specs.{AreDefined, Arrival, Description, device_after, device_room, DeviceState, Holds};
ghost use Rattle.bac_device.specs.{longest_name, points_of, replies_to, RepliesFit, RepliesInTurn, reply_of, ReplyFits};
ghost use Rattle.bac_device.specs.{Write, Info.Info};

use crate::device::{AddFault, POINTS};
use crate::point::{NAME_OCTETS, Point};

/// A device that replies to each datagram of a list in turn has the replies of the definition, and its places are those
/// after the accepted writes.
pub fn replies_in_turn()
    ensures { (device : DeviceState) (arrivals : List Arrival) (replies : List (Option (Station × List ℕ)))
        (after : DeviceState) (writes : List Write) → RepliesInTurn device arrivals replies after → Holds device writes
        → AreDefined device writes arrivals replies after }
{}

/// A device with some points, after some writes, holds these writes.
pub fn writes_are_held()
    ensures { (info : Info) (points : List Description) (writes : List Write)
        → Holds (device_after info points writes) writes }
{}

/// A device with some points, after some writes, has these points.
pub fn points_stay()
    ensures { (info : Info) (points : List Description) (writes : List Write)
        → points_of (device_after info points writes) ≡ points }
{}

/// The APDU of each reply to a confirmed request has no more octets than the request's code announces, or is the Abort
/// 71 id 04. An I-Am has fifteen octets; no size is announced for it. This holds for all replies to any list of
/// datagrams, those of a server and of a script too.
pub fn replies_fit()
    ensures fits { (device : DeviceState) (from : Station) (datagram : List ℕ)
        → ForSome (reply_of device from datagram) (ReplyFits from datagram) }
    ensures in_turn { (info : Info) (points : List Description) (writes : List Write) (arrivals : List Arrival)
        → RepliesFit arrivals (replies_to info points writes arrivals) }
{}

/// The limits in the code are the limits in the definitions.
pub fn limits()
    ensures points { POINTS ≡ device_room }
    ensures name { NAME_OCTETS ≡ longest_name }
{}

/// A clone equals its original, and allocates no memory.
pub fn clones<'a>()
    ensures fault { MakesCopies ⟦<AddFault as Clone>⟧.is_clone ⟦<AddFault as Clone>⟧.is_infallible }
    ensures point { MakesCopies ⟦<Point<'a> as Clone>⟧.is_clone ⟦<Point<'a> as Clone>⟧.is_infallible }
{}

/// `==` tells the four faults apart.
pub fn equals()
    ensures fault { EqualsBy (λ fault. fault) ⟦<AddFault as PartialEq>⟧.eq }
{}
