// The normal blocks of a state.
ghost use Rattle.std.specs.Prelude.{◌≡◌, ◌<◌, cond, get_or, length};
ghost use Rattle.std.specs.Float.Ieee.{eq};
ghost use Rattle.std.specs.Float.{nan};
ghost use Rattle.math.specs.Basic.{zero};
ghost use Rattle.fit_refusals.specs.Given.{checked};
ghost use Rattle.fit_penalized.specs.Penalized.{Means};
ghost use Rattle.fit_penalized.specs.Normal.{fixed_gradients, random_gradients, reading_of, readings_of, blocks_of};

use block_solve::normal::BlockNormal;
use curves::Mean;
use fit_refusals::{MAX_READINGS, NlmmProblem};
use fit_step::State;

// The gradient by value j, or zero where its bounds are equal. Past the curve's last value there are none.
fn free(q: &NlmmProblem<'_>, j: usize, gradient: f64) -> f64
    ensures { result ≡ cond (eq (get_or q.now.lower.now j nan) (get_or q.now.upper.now j nan)) zero gradient }
{
    if math::at(q.lower, j) == math::at(q.upper, j) {
        0.0
    } else {
        gradient
    }
}

#[tactic(auto, unfolding(crate::specs::Normal::fixed_gradients))]
fn fixed_gradients(q: &NlmmProblem<'_>, y: Mean) -> [f64; 4]
    ensures { result ≡ fixed_gradients q.now.lower.now q.now.upper.now y }
{
    [
        free(q, 0, y.d0),
        free(q, 1, y.d1),
        free(q, 2, y.d2),
        free(q, 3, y.d3),
    ]
}

// The true gradients by the effects, whatever the bounds; for one effect the second is +0.
#[tactic(auto, using(curves::specs::laws::Params::params_most), unfolding(crate::specs::Normal::random_gradients))]
pub fn random_gradients(q: &NlmmProblem<'_>, y: Mean) -> [f64; 2]
    ensures { result ≡ random_gradients q.now.places.now y }
{
    let d = [y.d0, y.d1, y.d2, y.d3];
    let first = d[q.places[0]];
    if q.places.len() == 1 {
        [first, 0.0]
    } else {
        [first, d[q.places[1]]]
    }
}

// Reading i, whose curve is y, accumulated in place.
#[tactic(auto, using(curves::specs::laws::Params::params_most, block_solve::specs::laws::Blocks::reading_lent, block_solve::specs::laws::Normal::accumulate_fits), unfolding(crate::specs::Normal::reading_of))]
fn add_reading(q: &NlmmProblem<'_>, i: usize, y: Mean, n: &mut BlockNormal)
    requires { i < length q.now.doses.now }
    ensures { n.new ≡ reading_of (checked q.now) i y n.old }
{
    let p = q.curve.n_params();
    let k = q.places.len();
    let f = fixed_gradients(q, y);
    let r = random_gradients(q, y);
    n.add_reading(q.groups[i], &f[..p], &r[..k], q.grams[i] - y.mu);
}

// The readings in order, from their curves in means.
#[tactic(auto, using(math::specs::laws::Loops::turns), unfolding(crate::specs::Normal::readings_of))]
fn readings(q: &NlmmProblem<'_>, s: &State, means: &[Mean; MAX_READINGS]) -> BlockNormal
    requires { Means (checked q.now) s.now means.now }
    ensures { result ≡ readings_of (checked q.now) s.now }
{
    let mut n = BlockNormal::new();
    // By index: reading i stands in three lists, and its curve in means, which has more places.
    for i in 0..q.doses.len() {
        add_reading(q, i, means[i], &mut n);
    }
    n
}

// The readings, then the prior of every group, with the covariance's inverse.
#[tactic(auto, using(fit_step::specs::laws::Sized::all_fit), unfolding(crate::specs::Normal::blocks_of))]
pub fn normal(
    q: &NlmmProblem<'_>,
    s: &State,
    means: &[Mean; MAX_READINGS],
    inverse: [[f64; 2]; 2],
) -> BlockNormal
    requires { Means (checked q.now) s.now means.now }
    ensures { result ≡ blocks_of (checked q.now) inverse s.now }
{
    let k = q.places.len();
    let size = q.group_count * k;
    readings(q, s, means).add_prior(k, q.group_count, inverse, &s.effects[..size])
}
