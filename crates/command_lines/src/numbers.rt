//! Numbers, in decimal digits without a sign or a leading zero.

ghost use Rattle.std.specs.Prelude.{◌≡◌, ◌^◌, ◌&&◌, nat_lt, if◌then◌else◌};
ghost use Rattle.std.specs.Char.{is_ascii_digit};
ghost use Rattle.std.specs.List.{list_all};
ghost use Rattle.script_model.specs.Words.{number_below, decimal_value};

/// The value of these bytes, if they are digits and it is below 2^64.
fn value_of_digits(digits: &[u8]) -> Option<u64>
    ensures { result ≡ (if list_all is_ascii_digit digits.now && nat_lt (decimal_value digits.now) (2 ^ 64) then Some (decimal_value digits.now) else None) }
{
    let mut value = 0u64;
    for digit in digits {
        if !digit.is_ascii_digit() {
            return None;
        }
        value = value
            .checked_mul(10)?
            .checked_add(u64::from(*digit - b'0'))?;
    }
    Some(value)
}

/// The number that a word is, if it is one below 2^64.
pub fn number_u64(word: &[u8]) -> Option<u64>
    ensures { result ≡ number_below (2 ^ 64) word.now }
{
    match word {
        [] | [b'0', _, ..] => None,
        _ => value_of_digits(word),
    }
}

/// The number that a word is, if it is one below 2^32.
pub fn number_u32(word: &[u8]) -> Option<u32>
    ensures { result ≡ number_below (2 ^ 32) word.now }
{
    u32::try_from(number_u64(word)?).ok()
}
