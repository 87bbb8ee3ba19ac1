// Reads a decimal as the nearest float. A decimal of at most 15 significant digits with a power of
// ten from -22 to 22 needs one operation: the digits and the power are floats without rounding, and
// their product or quotient rounds once. Every other text is refused.
#![tactic(auto)]

pub mod parts;
pub mod scale;
pub mod scan;

ghost use Rattle.std.specs.Prelude.{◌≡◌, ◌^◌, ◌<◌};
ghost use Rattle.read_decimal.specs.Decimal.{decimal_float, error_number};
ghost use Rattle.read_decimal.specs.Parts.{numbered_of};

use crate::parts::{Mantissa, read_mantissa, read_power};
use crate::scale::scaled;
use crate::scan::LIMIT;

// Why a text is refused.
#[derive(Clone, Copy, Debug, PartialEq, Eq)]
pub enum DecimalError {
    NotADecimal = 1,
    TooManyDigits,
    PowerOutOfRange,
}

impl DecimalError {
    // 1, 2 or 3.
    pub fn number(self) -> u64
        ensures { result ≡ error_number self }
    {
        self as u64
    }
}

// The whole of `text` is the number.
#[tactic(auto, using(crate::proofs::AnswerLaws::numbered_is), unfolding(crate::specs::Decimal::decimal_float, crate::specs::Decimal::is_decimal, crate::specs::Parts::read_mantissa, crate::specs::Parts::read_power))]
pub fn read_decimal(text: &[u8]) -> Result<f64, DecimalError>
    ensures { result ≡ decimal_float text.now }
{
    let mantissa = read_mantissa(text)?;
    let power = read_power(text, mantissa.end)?;
    numbered(mantissa, power)
}

// More than 15 digits come before a power out of range.
#[tactic(auto, unfolding(crate::specs::Parts::numbered_of))]
fn numbered(m: Mantissa, power: i64) -> Result<f64, DecimalError>
    requires { m.places < 2 ^ 63 }
    ensures { result ≡ numbered_of m power }
{
    if m.digits >= LIMIT {
        return Err(DecimalError::TooManyDigits);
    }
    let size = power.unsigned_abs();
    if size >= LIMIT {
        return Err(DecimalError::PowerOutOfRange);
    }
    let places = m.places as u64;
    if power < 0 {
        scaled(m.negative, m.digits, 0, places + size)
    } else {
        scaled(m.negative, m.digits, size, places)
    }
}
