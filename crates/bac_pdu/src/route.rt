//! The way to a station of another network.

ghost use Rattle.std.specs.Prelude.{◌-◌, ◌<◌, ◌↔◌, ◌≡◌, ◌≤◌, drop, IfSome, IsSome, replicate};

/// The octets of the longest address of a routed station.
pub const ADDRESS_OCTETS: usize = 7;

// The octets that are kept for an address: eight, which are copied as one word.
const ROOM: usize = ADDRESS_OCTETS + 1;

/// The way from a router to a station of another network: the number of the network, and the station's address in it
/// (clause 6.2.2).
///
/// The octets after a shorter address are 0, so that routes are equal if they lead to the same station.
#[derive(Clone, Copy, Debug, PartialEq, Eq)]
pub struct Route {
    network: u16,
    count: u8,
    octets: [u8; ROOM],
    ghost local: { 0 < network },
    ghost global: { network < 65535 },
    ghost shortest: { 1 ≤ count },
    ghost longest: { count ≤ 7 },
    ghost unused: { drop count octets ≡ replicate (8 - count) 0 },
}

impl Route {
    ghost use Rattle.bac_pdu.specs.Peer.{IsRoutable, network_address};

    /// Returns the route to a station. `None` if the network is 0 (the sender's own) or 65535 (all networks), or if the
    /// address has no octet or more than seven.
    pub fn new(network: u16, address: &[u8]) -> Option<Self>
        ensures valid { IsSome result ↔ IsRoutable (record { network = network; address = address.now }) }
        ensures value { IfSome result (λ route. network_address route
            ≡ record { network = network; address = address.now }) }
    {
        if network == 0
            || network == u16::MAX
            || address.is_empty()
            || address.len() > ADDRESS_OCTETS
        {
            return None;
        }
        let mut octets = [0; ROOM];
        octets[..address.len()].copy_from_slice(address);
        Some(Route {
            network,
            count: address.len() as u8,
            octets,
        })
    }

    /// Returns the number of the network, 1 to 65534.
    pub fn network(&self) -> u16
        ensures value { result ≡ (network_address self.now).network }
        ensures fits { IsRoutable (network_address self.now) }
    {
        self.network
    }

    /// Returns the station's address in its network, one to seven octets.
    pub fn address(&self) -> &[u8]
        ensures value { result.now ≡ (network_address self.now).address }
        ensures fits { IsRoutable (network_address self.now) }
    {
        &self.octets[..usize::from(self.count)]
    }
}
