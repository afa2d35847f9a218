//! The device that introduces itself in a datagram.

ghost use Rattle.std.specs.{Prelude.◌≡◌, Option.option_map};
ghost use Rattle.bac_pdu.specs.{Found.{found_of, found_seen}, Peer.station};

use crate::apdu::{Apdu, read_apdu};
use crate::datagram::open_datagram;
use crate::discovery::{IAm, WhoIs, read_iam};
use crate::peer::Peer;
use crate::service::I_AM;

/// A device that introduced itself, and its address.
#[derive(Debug, Drop)]
pub struct Found {
    /// The sender of its I-Am.
    pub peer: Peer,
    /// The contents of its I-Am.
    pub device: IAm,
}

/// Returns the device that introduces itself in a datagram from this peer, if the Who-Is asks for the device. Otherwise
/// `None`.
#[tactic(auto, unfolding(crate::specs::found_of))]
pub fn read_found(who: WhoIs, from: Peer, datagram: &[u8]) -> Option<Found>
    ensures { option_map found_seen result ≡ found_of who (station from) datagram.now }
{
    let carried = open_datagram(from, datagram)?;
    let Apdu::Unconfirmed {
        service: I_AM,
        body,
    } = read_apdu(carried.apdu)?
    else {
        return None;
    };
    let device = read_iam(body)?;
    if !who.asks(device.device.instance()) {
        return None;
    }
    Some(Found {
        peer: carried.peer,
        device,
    })
}
