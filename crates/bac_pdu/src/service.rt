//! The numbers of the services (clause 21, BACnetConfirmedServiceChoice and BACnetUnconfirmedServiceChoice).

/// ReadProperty asks for a property (clause 15.5).
pub const READ_PROPERTY: u8 = 12;

/// WriteProperty orders a value for a property (clause 15.9).
pub const WRITE_PROPERTY: u8 = 15;

/// I-Am introduces a device; it is not confirmed (clause 16.10).
pub const I_AM: u8 = 0;

/// Who-Is asks for devices; it is not confirmed (clause 16.10).
pub const WHO_IS: u8 = 8;
