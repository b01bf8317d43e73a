//! The value of a number.

ghost use Rattle.std.specs.Prelude.{◌≡◌, ◌<◌, ◌^◌, IfSome};
ghost use Rattle.sgf_properties.specs.Number.{magnitude_of, number_of};

/// The most digits that a number may have.
const MAX_DIGITS: usize = 18;

/// The number that a raw value spells (SGF FF[4], Number): a `+`, a `-` or no sign, then 1 to 18 digits, and nothing else.
/// None for any other raw value. The limit of 18 digits is this project's choice.
pub fn number(raw: &[u8]) -> Option<i64>
    ensures { result ≡ number_of raw.now }
{
    match raw {
        [b'+', digits @ ..] => Some(magnitude(digits)? as i64),
        [b'-', digits @ ..] => Some(-(magnitude(digits)? as i64)),
        digits => Some(magnitude(digits)? as i64),
    }
}

/// The value of 1 to 18 digits; None for anything else.
#[tactic(auto, using(crate::proofs::DecimalValue::decimal_value_take, crate::proofs::DecimalValue::decimal_value_more, crate::proofs::DecimalValue::digits_more))]
fn magnitude(digits: &[u8]) -> Option<u64>
    ensures value { result ≡ magnitude_of digits.now }
    ensures fits { IfSome result (λ value. value < 10 ^ 18) }
{
    if digits.is_empty() || digits.len() > MAX_DIGITS {
        return None;
    }
    let mut value = 0;
    for digit in digits {
        if !digit.is_ascii_digit() {
            return None;
        }
        value = 10 * value + u64::from(digit - b'0');
    }
    Some(value)
}
