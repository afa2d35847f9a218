//! A request, from its parts to the octets of its datagram.

ghost use Rattle.std.specs.Prelude.{None, true, ◌≡◌};
ghost use Rattle.{bac_wire.specs.identifier, bac_pdu.specs.{confirmed, laid_out, read_octets, station, wrapped}};

use bac_pdu::{Apdu, Peer, READ_PROPERTY, ReadRequest, wrap, write_apdu, write_read};
use bac_wire::{Frame, ObjectId};

/// Returns the datagram that asks a peer for the present value (85) of an object, with the invoke id 1. There is room
/// for it in a frame, whatever the object and the route are, so no caller has to check.
pub fn asking(to: Peer, object: ObjectId) -> Frame
    // A reply is expected. The requester of this ReadProperty (12) accepts up to 1476 octets (5) in one part.
    ensures { result ≡ wrapped (station to).route true (laid_out (confirmed None 5 1 12
        (read_octets (record { object = identifier object; property = 85; index = None })))) }
{
    let request = ReadRequest {
        object,
        property: 85,
        index: None,
    };
    let (mut body, mut octets, mut frame) = (Frame::new(), Frame::new(), Frame::new());
    write_read(&mut body, &request).unwrap();
    let apdu = Apdu::Confirmed {
        part: None,
        code: 5,
        id: 1,
        service: READ_PROPERTY,
        body: body.as_slice(),
    };
    write_apdu(&mut octets, &apdu).unwrap();
    wrap(to, true, octets.as_slice(), &mut frame).unwrap();
    frame
}
