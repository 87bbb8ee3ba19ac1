// A whole number times or over a power of ten, rounded once.
ghost use Rattle.std.specs.Prelude.{◌≡◌};
ghost use Rattle.read_decimal.specs.Decimal.{signed_float, scaled_of};
ghost use Rattle.read_decimal.specs.Parts.{power_in_range};

use crate::DecimalError;

// 10^0 to 10^22, each a float without rounding.
const TENS: [f64; 23] = [
    1e0, 1e1, 1e2, 1e3, 1e4, 1e5, 1e6, 1e7, 1e8, 1e9, 1e10, 1e11, 1e12, 1e13, 1e14, 1e15, 1e16,
    1e17, 1e18, 1e19, 1e20, 1e21, 1e22,
];

#[tactic(auto, using(crate::proofs::Tens::table_right))]
fn power_of_ten(k: u64) -> Result<f64, DecimalError>
    ensures { result ≡ power_in_range k }
{
    TENS.get(k as usize)
        .copied()
        .ok_or(DecimalError::PowerOutOfRange)
}

#[tactic(auto, unfolding(crate::specs::Decimal::signed_float))]
fn with_sign(negative: bool, m: u64) -> f64
    ensures { result ≡ signed_float negative m }
{
    let x = std::num::nearest_u64_to_f64(m);
    if negative { -x } else { x }
}

// m * 10^up / 10^down.
#[tactic(auto, unfolding(crate::specs::Decimal::scaled_of))]
pub fn scaled(negative: bool, m: u64, up: u64, down: u64) -> Result<f64, DecimalError>
    ensures { result ≡ scaled_of negative m up down }
{
    let x = with_sign(negative, m);
    if down <= up {
        Ok(x * power_of_ten(up - down)?)
    } else {
        Ok(x / power_of_ten(down - up)?)
    }
}
