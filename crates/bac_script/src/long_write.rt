//! A request to write whose service body is too long to be sent.

ghost use Rattle.std.specs.Prelude.{IsTrue};
ghost use Rattle.{bac_text.specs.whole_body_of, bac_wire.specs.identifier, bac_script.specs.LongBody.is_long};

use bac_pdu::Peer;
use bac_text::Words;
use bac_wire::ObjectId;

/// A request to write that a line asks for, if its service body has more octets than a client sends.
#[derive(Drop)]
pub struct LongWrite<'a> {
    pub peer: Peer,
    pub object: ObjectId,
    pub property: u32,
    pub index: Option<u32>,
    pub priority: Option<u8>,
    pub words: Words<'a>,
    ghost long: { IsTrue (is_long (whole_body_of (identifier object) property index priority words)) },
}
