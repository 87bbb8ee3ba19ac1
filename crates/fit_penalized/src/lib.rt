// The penalised sum of a state: the squares of the residuals, and each group's penalty. Its normal
// blocks are built from the same curves. The fit calls these after all refusals.
#![tactic(auto)]

pub mod normal;

ghost use Rattle.std.specs.Prelude.{◌≡◌, ◌≤◌, ◌<◌, ◌*◌, length};
ghost use Rattle.fit_refusals.specs.Problem.{k};
ghost use Rattle.fit_refusals.specs.Given.{checked};
ghost use Rattle.fit_penalized.specs.Penalized.{mean_at, rss_of, penalty_sum, Means};

use curves::{Curve, Mean};
use fit_refusals::{MAX_READINGS, NlmmProblem};
use fit_step::State;
use re_cov::re_penalty;

// The curve of reading i, with its group's effects. By index: a call lends the readings' lists apart.
#[inline(always)]
#[tactic(auto, using(fit_step::specs::laws::Sized::slot_fits))]
fn mean_at(curve: Curve, q: &NlmmProblem<'_>, s: &State, i: usize) -> Mean
    requires same_curve { curve ≡ q.now.curve }
    requires reading { i < length q.now.doses.now }
    ensures { result ≡ mean_at (checked q.now) s.now i }
{
    let k = q.places.len();
    let from = q.groups[i] * k;
    let b = &s.effects[from..from + k];
    curve.eval_mean_with_re(q.doses[i], s.values, q.places, b)
}

// The rss, on the problem's curve.
#[inline(always)]
#[tactic(auto, using(math::specs::laws::Loops::turns), unfolding(crate::specs::Penalized::rss_of))]
fn evaluate_on(
    curve: Curve,
    q: &NlmmProblem<'_>,
    s: &State,
    means: &mut [Mean; MAX_READINGS],
) -> f64
    requires { curve ≡ q.now.curve }
    ensures rss { result ≡ rss_of (checked q.now) s.now }
    ensures kept { Means (checked q.now) s.now means.new }
{
    // A copy: behind q each list would be looked up again at each reading, since the compiler takes means for a part of it.
    let q = *q;
    let mut rss = 0.0;
    for i in 0..q.doses.len() {
        let y = mean_at(curve, &q, s, i);
        means[i] = y;
        let r = q.grams[i] - y.mu;
        rss += r * r;
    }
    rss
}

// The rss. Each reading's curve is worked out once and kept in means, for the normal blocks. Each curve has a loop of its own,
// which is inlined with it: in one loop for all the curve would be asked for, and called, at each reading.
pub fn evaluate(q: &NlmmProblem<'_>, s: &State, means: &mut [Mean; MAX_READINGS]) -> f64
    ensures rss { result ≡ rss_of (checked q.now) s.now }
    ensures kept { Means (checked q.now) s.now means.new }
{
    match q.curve {
        Curve::Sslogis => evaluate_on(Curve::Sslogis, q, s, means),
        Curve::Ssasymp => evaluate_on(Curve::Ssasymp, q, s, means),
        Curve::Ssmicmen => evaluate_on(Curve::Ssmicmen, q, s, means),
        Curve::Ssfpl => evaluate_on(Curve::Ssfpl, q, s, means),
    }
}

// Each group's, one without readings too.
#[tactic(auto, using(math::specs::laws::Loops::turns, math::specs::laws::Parts::group_fits, fit_step::specs::laws::Sized::all_fit), unfolding(crate::specs::Penalized::penalty_sum))]
pub fn penalties(q: &NlmmProblem<'_>, b: &[f64]) -> f64
    requires { q.now.group_count * k (checked q.now) ≤ length b.now }
    ensures { result ≡ penalty_sum (checked q.now) b.now }
{
    let k = q.places.len();
    let mut t = 0.0;
    // By index: `chunks_exact(k)` would go over b[..q.group_count * k], cut by the same product, and is no plainer.
    for g in 0..q.group_count {
        let from = g * k;
        t += re_penalty(k, q.theta, &b[from..from + k]);
    }
    t
}
