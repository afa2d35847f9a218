//! The texts of values.
ghost use Rattle.std.specs.{Fmt.signed_decimal, Int.is_in_range, List.flat_map};
ghost use Rattle.std.specs.Prelude.{false, IfSome, is_err, length, option_map, ◌%◌, ◌+◌, ◌<◌, ◌==◌, ◌||◌, ◌≡◌};
ghost use Rattle.bac_wire.specs.{bit_string, boolean, char_string, datum, identifier, object, value_at, values_of};
ghost use Rattle.bac_print.specs.{ack_text, bits_text, datum_text, has_failed, lettered, octet_bits, Prints, quoted};
ghost use Rattle.bac_print.specs.{quoted_octet, region_text, TookOrFailed, Inner.{joined, separator}};

use crate::checked::{Checked, WriteFailed};
use crate::page::Page;
use bac_pdu::read_ack;
use bac_wire::{ObjectId, Value};
use bac_work::begin;
use std::io::Write;

/// Writes the text of a region: the text of its value, or the texts of none or several values in braces, or, if it is
/// not values, `hex ` and its octets.
///
/// # Errors
///
/// `WriteFailed` if the writer failed or took no octet. Then only the beginning of the text was written.
#[tactic(auto, using(crate::proofs::shown))]
pub fn show_value<W: Write>(region: &[u8], writer: &mut Checked<W>) -> Result<(), WriteFailed>
    requires { has_failed writer.old ≡ false }
    ensures text { TookOrFailed W.contents writer.old writer.new (region_text region.now) result }
    ensures failed { has_failed writer.new ≡ is_err result }
{
    let mut page = Page::new(writer);
    page.print_region(region);
    page.finish()
}

impl<W: Write> Page<'_, W> {
    /// Prints the value in the body of a ReadProperty-ACK, or `bad-ack` if the octets are not such a body.
    #[tactic(auto, using(crate::proofs::printing))]
    pub fn print_ack(&mut self, body: &[u8])
        ensures { Prints W.contents self.old self.new (ack_text body.now) }
    {
        match read_ack(body, &mut begin()) {
            Some(ack) => {
                self.print(b"value ");
                self.print_region(ack.value);
            }
            None => self.print(b"bad-ack"),
        }
    }

    /// Prints the values in a region, or its octets if it is not values.
    #[tactic(auto, using(crate::proofs::printed_value))]
    pub fn print_region(&mut self, region: &[u8])
        ensures { Prints W.contents self.old self.new (region_text region.now) }
    {
        match value_and_rest(region) {
            Some((value, [])) => self.print_datum(value),
            _ => self.print_whole_region(region),
        }
    }

    // Prints a region that may have any number of values.
    #[tactic(auto, using(crate::proofs::printed_octets))]
    fn print_whole_region(&mut self, region: &[u8])
        ensures { Prints W.contents self.old self.new (region_text region.now) }
    {
        match count_values(region) {
            Some(1) => self.print_values(region),
            Some(_) => {
                self.print(b"{");
                self.print_values(region);
                self.print(b"}");
            }
            None => {
                self.print(b"hex ");
                self.print_hex(region);
            }
        }
    }

    // Prints values one after another, joined by commas.
    #[tactic(auto, using(crate::proofs::printing_values))]
    fn print_values(&mut self, region: &[u8])
        ensures { IfSome (values_of region.now) (λ values. Prints W.contents self.old self.new (joined values)) }
    {
        let mut rest = region;
        while let Some((value, behind)) = value_and_rest(rest) {
            self.print_datum(value);
            self.print_separator(behind);
            rest = behind;
        }
    }

    // Prints a comma if octets follow.
    #[tactic(auto, using(crate::proofs::no_print))]
    fn print_separator(&mut self, behind: &[u8])
        ensures { Prints W.contents self.old self.new (separator behind.now) }
    {
        match behind {
            [] => {}
            _ => self.print(b","),
        }
    }

    fn print_datum(&mut self, value: Value<'_>)
        ensures { Prints W.contents self.old self.new (datum_text (datum value.entry)) }
    {
        match value {
            Value::Null => self.print(b"null"),
            Value::Bool(value) => self.print_boolean(value),
            Value::Unsigned(number) => self.print_number(number),
            Value::Signed(number) => self.print_signed(number),
            Value::Real(octets) => self.print_hex(&octets),
            Value::Double(octets) => self.print_hex(&octets),
            Value::Octets(octets) => self.print_lettered(b'X', octets),
            Value::Chars(set, text) => self.print_string(set, text),
            Value::Bits(unused, octets) => self.print_bits(unused, octets),
            Value::Enumerated(number) => self.print_number(u64::from(number)),
            Value::Date(octets) => self.print_lettered(b'D', &octets),
            Value::Time(octets) => self.print_lettered(b'T', &octets),
            Value::Object(id) => self.print_object(id),
        }
    }

    fn print_boolean(&mut self, value: bool)
        ensures { Prints W.contents self.old self.new (datum_text (boolean value)) }
    {
        if value {
            self.print(b"true");
        } else {
            self.print(b"false");
        }
    }

    #[tactic(auto, using(crate::proofs::printing, crate::proofs::printing_signed))]
    fn print_signed(&mut self, number: i64)
        ensures { Prints W.contents self.old self.new (signed_decimal number) }
    {
        if number < 0 {
            self.print(b"-");
        }
        self.print_number(number.unsigned_abs());
    }

    #[tactic(auto, using(crate::proofs::printing))]
    fn print_object(&mut self, id: ObjectId)
        ensures { Prints W.contents self.old self.new (datum_text (object (identifier id))) }
    {
        self.print_number(u64::from(id.kind()));
        self.print(b":");
        self.print_number(u64::from(id.instance()));
    }

    // Prints a letter, and the octets in hexadecimal digits between apostrophes.
    #[tactic(auto, using(crate::proofs::printing))]
    fn print_lettered(&mut self, letter: u8, octets: &[u8])
        ensures { Prints W.contents self.old self.new (lettered letter octets.now) }
    {
        self.print(&[letter, b'\'']);
        self.print_hex(octets);
        self.print(b"'");
    }

    #[tactic(auto, using(crate::proofs::printing))]
    fn print_string(&mut self, set: u8, text: &[u8])
        ensures { Prints W.contents self.old self.new (datum_text (char_string set text.now)) }
    {
        if set != 0 {
            self.print_number(u64::from(set));
            self.print(b":");
        }
        self.print_quoted(text);
    }

    #[tactic(auto, using(crate::proofs::printing))]
    fn print_quoted(&mut self, text: &[u8])
        ensures { Prints W.contents self.old self.new (quoted text.now) }
    {
        self.print(b"\"");
        self.print_quoted_octets(text);
        self.print(b"\"");
    }

    #[tactic(auto, using(crate::proofs::printing, crate::proofs::texts_more))]
    fn print_quoted_octets(&mut self, text: &[u8])
        ensures { Prints W.contents self.old self.new (flat_map quoted_octet text.now) }
    {
        for octet in text {
            self.print_quoted_octet(*octet);
        }
    }

    #[tactic(auto, using(crate::proofs::printing))]
    fn print_quoted_octet(&mut self, octet: u8)
        ensures { Prints W.contents self.old self.new (quoted_octet octet) }
    {
        if is_escaped(octet) {
            self.print(&[b'\\', octet]);
        } else if is_printable(octet) {
            self.print(&[octet]);
        } else {
            self.print(b"\\x");
            self.print_hex(&[octet]);
        }
    }

    #[tactic(auto, using(crate::proofs::printing))]
    fn print_bits(&mut self, unused: u8, octets: &[u8])
        ensures { Prints W.contents self.old self.new (datum_text (bit_string unused octets.now)) }
    {
        self.print(b"B'");
        self.print_used_bits(unused, octets);
        self.print(b"'");
    }

    // Prints the bits of the octets, except the unused ones at the end.
    #[tactic(auto, using(crate::proofs::printing, crate::proofs::bits_last, std::proofs::lemmas::List::nil_from_length))]
    fn print_used_bits(&mut self, unused: u8, octets: &[u8])
        ensures { Prints W.contents self.old self.new (bits_text unused octets.now) }
    {
        if let Some((last, others)) = octets.split_last() {
            self.print_whole_octets(others);
            let used = 8_usize.saturating_sub(usize::from(unused));
            self.print(&bit_digits(*last)[..used]);
        }
    }

    // Prints all bits of the octets.
    #[tactic(auto, using(crate::proofs::printing, crate::proofs::texts_more))]
    fn print_whole_octets(&mut self, octets: &[u8])
        ensures { Prints W.contents self.old self.new (flat_map octet_bits octets.now) }
    {
        for octet in octets {
            self.print(&bit_digits(*octet));
        }
    }
}

// Returns the eight bits of an octet as digits, the highest first.
fn bit_digits(octet: u8) -> [u8; 8]
    ensures { result ≡ octet_bits octet }
{
    [
        bit_digit(octet / 128),
        bit_digit(octet / 64),
        bit_digit(octet / 32),
        bit_digit(octet / 16),
        bit_digit(octet / 8),
        bit_digit(octet / 4),
        bit_digit(octet / 2),
        bit_digit(octet),
    ]
}

// Returns the lowest bit of a number as a digit.
fn bit_digit(number: u8) -> u8
    ensures { result ≡ 48 + number % 2 }
{
    b'0' + number % 2
}

// Returns whether an octet of a text in quotes has a backslash before it.
fn is_escaped(octet: u8) -> bool
    ensures { result ≡ (octet == 34 || octet == 92) }
{
    octet == b'"' || octet == b'\\'
}

// Returns whether an octet of a text in quotes may stand for itself.
fn is_printable(octet: u8) -> bool
    ensures { result ≡ is_in_range 32 126 octet }
{
    b' ' <= octet && octet <= b'~'
}

// Returns the number of values if the region is only values.
#[tactic(auto, using(bac_wire::proofs::DatumLaws::counted))]
fn count_values(region: &[u8]) -> Option<usize>
    ensures { result ≡ option_map length (values_of region.now) }
{
    let mut count = 0;
    let mut rest = region;
    while !rest.is_empty() {
        let (_, behind) = value_and_rest(rest)?;
        count += 1;
        rest = behind;
    }
    Some(count)
}

// Returns the first value, and the octets after it.
fn value_and_rest(octets: &[u8]) -> Option<(Value<'_>, &[u8])>
    ensures value { option_map (λ x. (datum x.0, x.1.now)) result ≡ value_at octets.now }
    ensures shorter { IfSome result (λ x. length x.1.now < length octets.now) }
{
    let (value, rest) = bac_wire::value_and_rest(octets)?;
    Some((value, rest))
}
