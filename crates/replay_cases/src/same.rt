// Equality of floats, bit by bit.
ghost use Rattle.std.specs.Prelude.{◌≡◌};
ghost use Rattle.std.specs.List.{list_all, zip};
ghost use Rattle.math.specs.Lists.{same_lists};
ghost use Rattle.replay_cases.specs.Same.{same_bits};

use math::words::bits_of;

// Whether a and b have the same bits; all NaNs count as one value. No derive says that, nor `==` of floats.
pub fn same_float(a: f64, b: f64) -> bool
    ensures { result ≡ same_bits a b }
{
    bits_of(a) == bits_of(b)
}

// Whether the pairs have the same bits, as far as both lists go. Apart: inlined, or by `Iterator::eq`, the proof didn't close.
fn same_pairs(a: &[f64], b: &[f64]) -> bool
    ensures { result ≡ list_all (λ p. same_bits p.0 p.1) (zip a.now b.now) }
{
    a.iter().zip(b).all(|(x, y)| same_float(*x, *y))
}

// Whether two lists of floats have the same bits.
#[tactic(auto, using(crate::proofs::Equality::unequal_lengths, crate::proofs::Equality::by_pairs))]
pub fn same_floats(a: &[f64], b: &[f64]) -> bool
    ensures { result ≡ same_lists same_bits a.now b.now }
{
    a.len() == b.len() && same_pairs(a, b)
}
