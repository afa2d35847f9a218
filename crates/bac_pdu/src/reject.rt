//! Why a request is rejected.

ghost use Rattle.std.specs.Prelude.{◌≡◌};
ghost use Rattle.bac_pdu.specs.{reason_number};

/// The reason why a confirmed request gets a Reject (clause 18.9). The fault is its sender's. This project chooses
/// which reason a body gets.
#[derive(Clone, Copy, Debug, PartialEq, Eq)]
pub enum RejectReason {
    /// Other octets are in the place of a parameter.
    InvalidTag,
    /// The body ends before a required parameter.
    MissingParameter,
    /// The body is whole except for a priority that is not 1 to 16.
    OutOfRange,
    /// The body is whole, and more octets follow.
    TooMany,
    /// The service is unknown.
    UnknownService,
}

impl RejectReason {
    /// Returns the number of the reason in a Reject.
    pub fn number(self) -> u8
        ensures { result ≡ reason_number self }
    {
        match self {
            RejectReason::InvalidTag => 4,
            RejectReason::MissingParameter => 5,
            RejectReason::OutOfRange => 6,
            RejectReason::TooMany => 7,
            RejectReason::UnknownService => 9,
        }
    }
}
