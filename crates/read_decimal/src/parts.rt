// The two parts of a decimal: its digits, and the power of ten that may follow.
ghost use Rattle.std.specs.Prelude.{◌≡◌, ◌≤◌, IfOk, length};
ghost use Rattle.read_decimal.specs.Decimal.{fraction_end};
ghost use Rattle.read_decimal.specs.Parts.{read_mantissa, read_power};

use crate::DecimalError;
use crate::scan::{digits_end, number, past, stands};

// All digits as one number, at most 10^15; how many stand after the point; where they end. The sign is apart, as -0 has one too.
#[derive(Clone, Copy)]
pub struct Mantissa {
    pub negative: bool,
    pub digits: u64,
    pub places: usize,
    pub end: usize,
}

// The digits that `text` begins with, where there is one.
#[tactic(auto, using(crate::proofs::NumberLaws::capped_more), unfolding(crate::specs::Parts::read_mantissa, crate::specs::Decimal::has_digit, crate::specs::Decimal::is_negative, crate::specs::Decimal::mantissa_of, crate::specs::Decimal::places_of, crate::specs::Decimal::fraction_end, crate::specs::Decimal::fraction_at, crate::specs::Decimal::whole_end, crate::specs::Decimal::whole_at))]
pub fn read_mantissa(text: &[u8]) -> Result<Mantissa, DecimalError>
    ensures value { result ≡ read_mantissa text.now }
    ensures places_in_bounds { IfOk result (λ m. (m.places ≤ length text.now) × (m.end ≤ length text.now)) }
{
    let whole = past(text, 0, b'+', b'-');
    let point = digits_end(text, whole);
    let fraction = past(text, point, b'.', b'.');
    let end = digits_end(text, fraction);
    if whole < point || fraction < end {
        let high = number(&text[whole..point], 0);
        let digits = number(&text[fraction..end], high);
        Ok(Mantissa {
            negative: stands(text, 0, b'-'),
            digits,
            places: end - fraction,
            end,
        })
    } else {
        Err(DecimalError::NotADecimal)
    }
}

// What follows the digits, from `end` on: nothing, which is the power 0, or a power that has a digit, of a size of at most 10^15.
#[tactic(auto, unfolding(crate::specs::Parts::read_power, crate::specs::Parts::power_from, crate::specs::Decimal::ends_right, crate::specs::Decimal::is_power_negative, crate::specs::Decimal::written_power, crate::specs::Decimal::power_end, crate::specs::Decimal::power_digits_at, crate::specs::Decimal::power_at))]
pub fn read_power(text: &[u8], end: usize) -> Result<i64, DecimalError>
    requires end_value { end ≡ fraction_end text.now }
    requires end_in_bounds { end ≤ length text.now }
    ensures { result ≡ read_power text.now }
{
    let mark = past(text, end, b'E', b'e');
    let start = past(text, mark, b'+', b'-');
    let last = digits_end(text, start);
    if end == text.len() || (end < mark && start < last && last == text.len()) {
        let negative = stands(text, mark, b'-');
        let size = number(&text[start..last], 0) as i64;
        Ok(if negative { -size } else { size })
    } else {
        Err(DecimalError::NotADecimal)
    }
}
