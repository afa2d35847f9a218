//! Why a property is not read or written, as an Error says it.

ghost use Rattle.std.specs.Prelude.{◌≡◌};
ghost use Rattle.bac_device.specs.{error_class, error_code};

/// Why a property is not read or written (clause 18).
#[derive(Clone, Copy)]
pub(crate) enum Failure {
    UnknownObject,
    UnknownProperty,
    NotAnArray,
    InvalidIndex,
    WriteDenied,
    WrongType,
    OutOfRange,
}

// The error classes.
const OBJECT: u32 = 1;

const PROPERTY: u32 = 2;

impl Failure {
    /// Returns the number of the error class.
    pub(crate) fn class(self) -> u32
        ensures { result ≡ error_class self }
    {
        match self {
            Failure::UnknownObject => OBJECT,
            _ => PROPERTY,
        }
    }

    /// Returns the number of the error code.
    pub(crate) fn code(self) -> u32
        ensures { result ≡ error_code self }
    {
        match self {
            Failure::WrongType => 9,
            Failure::UnknownObject => 31,
            Failure::UnknownProperty => 32,
            Failure::OutOfRange => 37,
            Failure::WriteDenied => 40,
            Failure::InvalidIndex => 42,
            Failure::NotAnArray => 50,
        }
    }
}
