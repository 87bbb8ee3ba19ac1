// The criterion and sigma2 at what a fit answers (`profile_objective`).
ghost use Rattle.std.specs.Prelude.{◌≡◌};
ghost use Rattle.fit_refusals.specs.Given.{checked};
ghost use Rattle.criterion.specs.Profile.{df_of, sigma2_of, scalar_of, reml_of, ml_of, laplace_of, profile_logdet, profile_from};

use criterion_agq::agq_correction;
use criterion_groups::Estimate;
use criterion_logdet::{covariance_logdet, random_effect_logdet};
use fit_penalized::penalties;
use math::ln::ln;
use std::num::nearest_usize_to_f64 as count;

const TWO_PI: f64 = 6.283185307179586;

// What sigma2 is at least.
const LEAST: f64 = 1e-12;

#[derive(Clone, Copy)]
pub struct Profile {
    pub criterion: f64,
    pub sigma2: f64,
}

// The degrees of freedom of n readings and p curve values.
#[tactic(auto, unfolding(crate::specs::Profile::df_of))]
fn degrees(reml: bool, n: usize, p: usize) -> f64
    ensures { result ≡ df_of reml n p }
{
    if reml {
        math::max(count(n) - count(p), 1.0)
    } else {
        count(n)
    }
}

// By the rss alone, or with the penalties.
#[tactic(auto, unfolding(crate::specs::Profile::sigma2_of))]
fn variance(scalar: bool, rss: f64, pen: f64, df: f64) -> f64
    ensures { result ≡ sigma2_of scalar rss pen df }
{
    let squares = if scalar { rss } else { rss + pen };
    math::max(squares / df, LEAST)
}

// What the criterion before the quadrature is made of: n readings, m groups, k effects and p curve values,
// and what was worked out from them.
#[derive(Clone, Copy)]
struct Terms {
    n: usize,
    m: usize,
    k: usize,
    p: usize,
    df: f64,
    sigma2: f64,
    rss: f64,
    pen: f64,
    logdet: f64,
}

impl Terms {
    fn scalar(self, reml: bool) -> f64
        ensures { result ≡ scalar_of reml self.m self.p self.df self.sigma2 self.rss self.pen self.logdet }
    {
        let t = self;
        let c = t.df * ln(TWO_PI * t.sigma2) + t.rss / t.sigma2 + t.pen + t.logdet;
        if reml {
            c + (count(t.m) - count(t.p)) * (1.0 + ln(t.sigma2))
        } else {
            c
        }
    }

    fn reml(self) -> f64
        ensures { result ≡ reml_of self.m self.k self.p self.df self.sigma2 self.rss self.pen self.logdet }
    {
        let t = self;
        let c = t.df * ln(TWO_PI * t.sigma2) + (t.rss + t.pen) / t.sigma2 + t.logdet;
        c + (count(t.m) * count(t.k) - count(t.p)) * (1.0 + ln(t.sigma2))
    }

    fn ml(self) -> f64
        ensures { result ≡ ml_of self.n self.sigma2 self.logdet }
    {
        count(self.n) * (1.0 + ln(TWO_PI * self.sigma2)) + self.logdet
    }

    // Two flags, and no enum of the three formulas: the scalar one reads `reml` too, `degrees` reads `reml` alone, and
    // `variance` and `logdet` read `scalar` alone.
    #[tactic(auto, unfolding(crate::specs::Profile::laplace_of))]
    fn laplace(self, scalar: bool, reml: bool) -> f64
        ensures { result ≡ laplace_of scalar reml self.n self.m self.k self.p self.df self.sigma2 self.rss self.pen self.logdet }
    {
        if scalar {
            self.scalar(reml)
        } else if reml {
            self.reml()
        } else {
            self.ml()
        }
    }
}

// The scalar branch has no gradients in it.
#[tactic(auto, unfolding(crate::specs::Profile::profile_logdet))]
fn logdet(at: &Estimate<'_>, scalar: bool) -> f64
    ensures { result ≡ profile_logdet (checked at.now.problem.now) at.now.values at.now.b.now scalar }
{
    if scalar {
        covariance_logdet(at.problem)
    } else {
        random_effect_logdet(at)
    }
}

// The criterion and sigma2 at the curve values and effects that a fit wrote, with its rss. Where the
// quadrature's correction is none, nothing is added. Not inlined: its lists would lie on the stack beside
// the fit's.
#[tactic(auto, unfolding(crate::specs::Profile::profile_from))]
#[inline(never)]
pub fn profile_objective(at: &Estimate<'_>, rss: f64, reml: bool, n_agq: u64) -> Profile
    ensures { result ≡ profile_from (checked at.now.problem.now) at.now.values at.now.b.now reml n_agq rss }
{
    let q = at.problem;
    let n = q.doses.len();
    let p = q.curve.n_params();
    let scalar = q.is_scalar();
    let pen = penalties(q, at.b);
    let df = degrees(reml, n, p);
    let sigma2 = variance(scalar, rss, pen, df);
    let terms = Terms {
        n,
        m: q.group_count,
        k: q.places.len(),
        p,
        df,
        sigma2,
        rss,
        pen,
        logdet: logdet(at, scalar),
    };
    let c = terms.laplace(scalar, reml);
    let criterion = match agq_correction(at, sigma2, n_agq) {
        Some(correction) => c + correction,
        None => c,
    };
    Profile { criterion, sigma2 }
}
