//! Two reads of one device, open at once.

ghost use Rattle.std.specs.{List.flat_map, Prelude.{[], ◌∷◌, ◌≡◌}};
ghost use Rattle.{bac_pdu.specs.station, bac_uses.specs.TwoReads.{again_unless, read_of}};

use bac_pdu::{Peer, READ_PROPERTY};
use bac_tsm::{Client, Config, Due};

// The body of a request for the present value (85) of analog input 5.
const VALUE: [u8; 7] = [0x0c, 0x00, 0x00, 0x00, 0x05, 0x19, 85];

// The body of a request for the name (77) of analog input 5.
const NAME: [u8; 7] = [0x0c, 0x00, 0x00, 0x00, 0x05, 0x19, 77];

/// Asks a device for both properties, passes the client any datagram from any sender, and then a time three seconds
/// later. The caller sends the datagrams that `Client::to_send` lends, at once and again.
pub fn two_reads(device: Peer, from: Peer, heard: &[u8]) -> Due
    // Each read is to be sent again exactly if the datagram does not answer it, and none has ended without an answer.
    ensures { result ≡ flat_map (again_unless (station from) heard.now)
        (read_of (station device) 0 85 ∷ read_of (station device) 1 77 ∷ []) }
{
    let config = Config {
        timeout: 3000,
        retries: 3,
    };
    let mut client = Client::new(config, 0);
    let _value = client.submit(device, READ_PROPERTY, &VALUE);
    let _name = client.submit(device, READ_PROPERTY, &NAME);
    let _ended = client.datagram(from, heard);
    client.tick(3000)
}
