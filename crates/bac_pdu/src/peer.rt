//! The sender or receiver of a datagram.

use crate::route::Route;

/// The sender or receiver of a datagram: an IP address, a port and, for a station of another network, the route from
/// the router there.
///
/// The address 127.0.0.1 is `0x7f00_0001`.
#[derive(Clone, Copy, Debug, PartialEq, Eq)]
pub struct Peer {
    pub ip: u32,
    pub port: u16,
    pub route: Option<Route>,
}
