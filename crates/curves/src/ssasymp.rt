// The asymptotic curve (`SSasymp`): asym - (asym - r0) * exp(-exp(lrc) * x).
ghost use Rattle.std.specs.Prelude.{◌≡◌};
ghost use Rattle.curves.specs.Ssasymp.{ssasymp_of};

use crate::Mean;

#[tactic(auto, unfolding(crate::specs::Ssasymp::ssasymp_of))]
pub fn ssasymp_eval(asym: f64, r0: f64, lrc: f64, x: f64) -> Mean
    ensures { result ≡ ssasymp_of asym r0 lrc x }
{
    let k = math::exp::exp(lrc);
    let e = math::exp::exp(-k * x);
    Mean {
        mu: asym - (asym - r0) * e,
        d0: 1.0 - e,
        d1: e,
        d2: (asym - r0) * x * k * e,
        d3: 0.0,
    }
}
