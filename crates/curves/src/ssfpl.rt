// The logistic curve of four parameters (`SSfpl`): a + (b - a) / (1 + exp((xmid - x) / scal)).
ghost use Rattle.std.specs.Prelude.{◌≡◌};
ghost use Rattle.curves.specs.Ssfpl.{ssfpl_of};

use crate::Mean;
use crate::sslogis::{logistic_parts, scal_gradient};

#[tactic(auto, unfolding(crate::specs::Ssfpl::ssfpl_of))]
pub fn ssfpl_eval(a: f64, b: f64, xmid: f64, scal: f64, x: f64) -> Mean
    ensures { result ≡ ssfpl_of a b xmid scal x }
{
    let z = (xmid - x) / scal;
    let parts = logistic_parts(z);
    let scaled_slope = (b - a) * parts.slope / scal;
    let d_scal = scal_gradient(z, parts.slope, scaled_slope);
    Mean {
        mu: a + (b - a) * parts.fraction,
        d0: parts.complement,
        d1: parts.fraction,
        d2: -scaled_slope,
        d3: d_scal,
    }
}
