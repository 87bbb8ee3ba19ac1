// What a call is lent: oracle/FORMAT.md fills every output before a call, so that an answer to a refused call shows it kept.
ghost use Rattle.std.specs.Prelude.{◌≡◌};
ghost use Rattle.replay_cases.specs.Lent.{kept_float, outputs_of, begins_with};

use crate::same::same_floats;
use refusal::Refusal;

// What every lent float holds before a call.
pub fn kept() -> f64
    ensures { result ≡ kept_float }
{
    math::words::of_bits(0x4010_dead_0000_beef)
}

// What every lent whole number holds before a call.
pub const KEPT: u64 = 987654321;

// A call's number, 0 where it is not refused, and what its outputs hold after it; a refusal keeps what they held before.
pub fn outputs<T: Copy>(answer: Result<T, Refusal>, before: T) -> (u64, T)
    ensures { result ≡ outputs_of answer before }
{
    match answer {
        Ok(after) => (0, after),
        Err(refusal) => (refusal.number(), before),
    }
}

// Whether the stored list begins with these values, bit for bit.
#[tactic(auto, using(crate::proofs::Equality::too_short), unfolding(crate::specs::Lent::begins_with))]
pub fn begins_with(stored: &[f64], values: &[f64]) -> bool
    ensures { result ≡ begins_with stored.now values.now }
{
    match stored.get(..values.len()) {
        Some(front) => same_floats(values, front),
        None => false,
    }
}
