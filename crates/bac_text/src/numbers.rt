//! Numbers in decimal digits.
ghost use Rattle.std.specs.Prelude.{◌-◌, ◌^◌, ◌≡◌, ◌≤◌, IfSome};
ghost use Rattle.bac_text.specs.{number_up_to, Inner.IsLeading};

/// Returns the number in a word of one or more decimal digits, if it is at most `most`.
pub fn read_number(word: &[u8], most: u64) -> Option<u64>
    ensures value { result ≡ number_up_to most word.now }
    ensures most { IfSome result (λ number. number ≤ most) }
{
    let number = plain_number(word)?;
    if number > most {
        return None;
    }
    Some(number)
}

/// Returns the number in the first digits, and how many these are. At most `most` digits are looked at.
#[inline(always)]
#[tactic(auto, using(crate::proofs::leading_numbers))]
pub(crate) fn leading_number(text: &[u8], most: usize) -> (u32, usize)
    requires { most ≤ 5 }
    ensures { IsLeading text.now most result.0 result.1 }
{
    let mut number = 0;
    let mut count = 0;
    while count < most && count < text.len() && text[count].is_ascii_digit() {
        number = number * 10 + u32::from(text[count] - b'0');
        count += 1;
    }
    (number, count)
}

#[tactic(auto, using(crate::proofs::plain_numbers))]
fn plain_number(word: &[u8]) -> Option<u64>
    ensures { result ≡ number_up_to (2 ^ 64 - 1) word.now }
{
    if word.is_empty() {
        return None;
    }
    let mut number = 0u64;
    for digit in word {
        if !digit.is_ascii_digit() {
            return None;
        }
        number = number
            .checked_mul(10)?
            .checked_add(u64::from(*digit - b'0'))?;
    }
    Some(number)
}
