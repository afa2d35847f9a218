//! The bits of an octet.

ghost use Rattle.std.specs.Prelude.{◌<◌, ◌≡◌};
ghost use Rattle.bac_pdu.specs.{bit};

/// Returns whether the bit of this number is set; bit 0 is the lowest.
pub(crate) fn has_bit(octet: u8, number: u8) -> bool
    requires { number < 8 }
    ensures { result ≡ bit number octet }
{
    (octet >> number) & 1 == 1
}
