//! Decimal numbers.
ghost use Rattle.std.specs.Prelude.{◌≡◌, ◌+◌, ◌*◌, ℕ};
ghost use Rattle.dep_octets.specs.Octets.{decimal_number, positive_number, capped};

/// What a text says as a decimal number.
#[derive(Clone, Copy)]
pub enum Number {
    /// The text is empty, or has a byte that is no ASCII digit.
    NotDigits,
    /// The number is above the greatest one that was asked for.
    Above,
    /// The number.
    Value(u64),
}

/// Reads the whole text as a decimal number (`1*DIGIT`, RFC 9110, section 8.6) that is at most `max`. It may have
/// any length and begin with zeros; a sign or white space makes it `NotDigits`.
pub fn decimal(text: &[u8], max: u64) -> Number
    ensures { result ≡ decimal_number text.now max }
{
    if text.is_empty() {
        return Number::NotDigits;
    }
    let mut value = Some(0u64);
    for digit in text {
        if !digit.is_ascii_digit() {
            return Number::NotDigits;
        }
        value = with_digit(value, u64::from(*digit - b'0'), max);
    }
    match value {
        Some(value) => Number::Value(value),
        None => Number::Above,
    }
}

/// Returns the decimal number from 1 to `max` that the whole text is, without a leading zero, as in the path
/// of a URL. It is `None` for any other text.
pub fn positive_decimal(text: &[u8], max: u64) -> Option<u64>
    ensures { result ≡ positive_number text.now max }
{
    if text.first() == Some(&b'0') {
        return None;
    }
    match decimal(text, max) {
        Number::Value(number) => Some(number),
        Number::NotDigits | Number::Above => None,
    }
}

// One more digit, where the number stays within the greatest.
fn with_digit(value: Option<u64>, digit: u64, max: u64) -> Option<u64>
    ensures { (n : ℕ) → value ≡ capped max n → result ≡ capped max (n * 10 + digit) }
{
    let tens = value?.checked_mul(10)?;
    if tens <= max && digit <= max - tens {
        Some(tens + digit)
    } else {
        None
    }
}
