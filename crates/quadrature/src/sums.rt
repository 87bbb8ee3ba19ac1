// The logarithm of a sum of exponentials.
ghost use Rattle.std.specs.Prelude.{◌≡◌};
ghost use Rattle.quadrature.specs.Sums.{maximum_of, sum_exp_of, log_sum_exp};

// The Rust's m: the maximum of the terms and -infinity; a NaN is passed over.
#[tactic(auto, using(math::specs::laws::Literals::negative_infinity))]
fn maximum(xs: &[f64]) -> f64
    ensures { result ≡ maximum_of xs.now }
{
    xs.iter().copied().fold(f64::NEG_INFINITY, math::max)
}

// The sum of exp(x - m) over the terms, in their order.
fn sum_exp(xs: &[f64], m: f64) -> f64
    ensures { result ≡ sum_exp_of m xs.now }
{
    xs.iter().fold(0.0, |s, &x| s + math::exp::exp(x - m))
}

#[tactic(auto, using(math::specs::laws::Literals::negative_infinity), unfolding(crate::specs::Sums::log_sum_exp))]
pub fn log_sum_exp(xs: &[f64]) -> f64
    ensures { result ≡ log_sum_exp xs.now }
{
    if xs.is_empty() {
        return f64::NEG_INFINITY;
    }
    let m = maximum(xs);
    if !math::is_finite(m) {
        return f64::NEG_INFINITY; // an infinite term, or NaNs alone
    }
    m + math::ln::ln(sum_exp(xs, m))
}
