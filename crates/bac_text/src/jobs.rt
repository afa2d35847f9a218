//! The request of a tool to devices.
use arrayvec::ArrayVec;
use bac_pdu::{LONGEST_BODY, Peer, WhoIs};

/// One request to a device.
#[derive(Drop)]
pub struct Call {
    /// The peer that the request is sent to.
    pub to: Peer,
    /// The milliseconds after which the request is sent again, at least 1.
    pub timeout: u32,
    /// How often the request is sent again.
    pub retries: u8,
    /// The port that the request is sent from; 0 is any.
    pub port: u16,
    /// The body of the service.
    pub body: ArrayVec<u8, LONGEST_BODY>,
}

/// A search for devices.
#[derive(Drop)]
pub struct Search {
    /// The peer that the Who-Is is sent to.
    pub to: Peer,
    /// How long to wait for answers, in milliseconds, at least 1.
    pub timeout: u32,
    /// The port of the search; 0 is any.
    pub port: u16,
    /// The devices that are asked for.
    pub who: WhoIs,
}
