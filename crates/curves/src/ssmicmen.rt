// The Michaelis-Menten curve (`SSmicmen`): vmax * x / (k + x). The fraction comes before the product,
// and no denominator is squared: either could overflow where the mean and its gradients do not.
ghost use Rattle.std.specs.Prelude.{◌≡◌};
ghost use Rattle.curves.specs.Ssmicmen.{micmen_of, ssmicmen_of};

use crate::Mean;

// The mean from the fraction on; k + x is scale * scaled_denom. A function of its own: inlined with the literal 1.0, it has no quotient by scale.
#[tactic(auto, unfolding(crate::specs::Ssmicmen::micmen_of))]
fn micmen_at(vmax: f64, d_vmax: f64, scale: f64, scaled_denom: f64) -> Mean
    ensures { result ≡ micmen_of vmax d_vmax scale scaled_denom }
{
    let mu = vmax * d_vmax;
    Mean {
        mu,
        d0: d_vmax,
        d1: -(mu / scale) / scaled_denom,
        d2: 0.0,
        d3: 0.0,
    }
}

#[tactic(auto, unfolding(crate::specs::Ssmicmen::overflow_of, crate::specs::Ssmicmen::ssmicmen_of))]
pub fn ssmicmen_eval(vmax: f64, k: f64, x: f64) -> Mean
    ensures { result ≡ ssmicmen_of vmax k x }
{
    let denom = k + x;

    // Of a sum that is not infinite nothing more is asked: in one condition the compiler asks all three at each reading.
    if !math::is_infinite(denom) {
        return micmen_at(vmax, x / denom, 1.0, denom);
    }

    // Only a sum of two finite floats that overflows is scaled.
    let overflows = math::is_finite(k) && math::is_finite(x);
    if overflows {
        let scale = math::max(math::abs(k), math::abs(x));
        let scaled_denom = k / scale + x / scale;
        micmen_at(vmax, (x / scale) / scaled_denom, scale, scaled_denom)
    } else {
        micmen_at(vmax, x / denom, 1.0, denom)
    }
}
