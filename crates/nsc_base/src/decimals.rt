// Reading of a decimal number below 2^32.
ghost use Rattle.std.specs.Prelude.{◌≡◌};
ghost use Rattle.nsc_base.specs.Decimal.{decimal_of};

/// The number that a text spells in decimal: one digit or more and nothing else, below 2^32. Zeros at the front change
/// nothing. `None` for the empty text, for a sign, a blank or any other byte, and for a number of 2^32 or more.
pub fn decimal(text: &[u8]) -> Option<u32>
    ensures { result ≡ decimal_of text.now }
{
    if text.is_empty() {
        return None;
    }
    let mut value: u32 = 0;
    for byte in text {
        if !byte.is_ascii_digit() {
            return None;
        }
        value = value.checked_mul(10)?.checked_add(u32::from(*byte - b'0'))?;
    }
    Some(value)
}
