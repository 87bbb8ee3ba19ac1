// The logistic curve of three parameters (`SSlogis`): a / (1 + exp((xmid - x) / scal)).
ghost use Rattle.std.specs.Prelude.{◌≡◌};
ghost use Rattle.curves.specs.Sslogis.{parts_of, scal_gradient, sslogis_of};

use crate::Mean;

#[derive(Clone, Copy)]
pub struct Logistic {
    pub fraction: f64,
    pub complement: f64,
    pub slope: f64,
}

// The logistic fraction of t, its complement, and the size of the derivative. The smaller tail is
// worked out directly, so that no exponential overflows.
#[tactic(auto, unfolding(crate::specs::Sslogis::parts_of))]
pub fn logistic_parts(t: f64) -> Logistic
    ensures { result ≡ parts_of t }
{
    let e = math::exp::exp(-math::abs(t));
    let denom = 1.0 + e;
    let small = e / denom;
    let large = 1.0 / denom;
    let (fraction, complement) = if t >= 0.0 {
        (small, large)
    } else {
        (large, small)
    };
    Logistic {
        fraction,
        complement,
        slope: small * large,
    }
}

// The gradient by scal: +0 where t is infinite and the slope 0, whose product would be a NaN.
#[tactic(auto, unfolding(crate::specs::Sslogis::scal_gradient))]
pub fn scal_gradient(t: f64, slope: f64, scaled_slope: f64) -> f64
    ensures { result ≡ scal_gradient t slope scaled_slope }
{
    if math::is_infinite(t) && slope == 0.0 {
        0.0
    } else {
        scaled_slope * t
    }
}

#[tactic(auto, unfolding(crate::specs::Sslogis::sslogis_of))]
pub fn sslogis_eval(a: f64, xmid: f64, scal: f64, x: f64) -> Mean
    ensures { result ≡ sslogis_of a xmid scal x }
{
    let t = (xmid - x) / scal;
    let parts = logistic_parts(t);
    let scaled_slope = a * parts.slope / scal;
    let d_scal = scal_gradient(t, parts.slope, scaled_slope);
    Mean {
        mu: a * parts.fraction,
        d0: parts.fraction,
        d1: -scaled_slope,
        d2: d_scal,
        d3: 0.0,
    }
}
