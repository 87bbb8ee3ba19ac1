// The start of a fit, the state that a trial tries, the size of a step, and lambda.
ghost use Rattle.std.specs.Prelude.{◌≡◌, ◌≤◌, Float, length};
ghost use Rattle.curves.specs.MeanFn.{code_of};
ghost use Rattle.fit_refusals.specs.Problem.{p, direction_length};
ghost use Rattle.fit_refusals.specs.Given.{checked};
ghost use Rattle.fit_step.specs.Trial.{adjusted, floored, on_scal, started, start_state, moved_of, values_tried, effects_tried, tried_of};
ghost use Rattle.fit_step.specs.Trial.{step_of, first_lambda, lowered, raised};

use crate::State;
use crate::project::{project_group_params, project_params};
use curves::Curve;
use fit_refusals::NlmmProblem;

// What a scal of no size, below `NO_SIZE`, starts as.
const START_SCAL: f64 = 350.0;

const NO_SIZE: f64 = 1e-8;

// What scal is at least in a trial.
const LEAST_SCAL: f64 = 1e-6;

// Where lambda begins, and where on curve 2 with one effect.
const FIRST_LAMBDA: f64 = 1e-4;

const SCALAR_LAMBDA: f64 = 1e-2;

// What lambda is multiplied by after a win, and after a failed attempt, and its bounds.
const LOWERING: f64 = 0.3;

const RAISING: f64 = 10.0;

const LEAST_LAMBDA: f64 = 1e-8;

const GREATEST_LAMBDA: f64 = 1e6;

fn adjust(v: f64) -> f64
    ensures { result ≡ adjusted v }
{
    if math::abs(v) < NO_SIZE {
        START_SCAL
    } else {
        v
    }
}

// By a comparison: a NaN stays, which `max` would drop.
fn floor(v: f64) -> f64
    ensures { result ≡ floored v }
{
    if v < LEAST_SCAL { LEAST_SCAL } else { v }
}

// A change to scal, on the curves that have one.
#[tactic(auto, unfolding(crate::specs::Trial::on_scal, curves::specs::MeanFn::scal_index_of))]
fn on_scal<F: Fn(f64) -> f64>(curve: Curve, values: &mut [f64; 4], f: F)
    requires { F.IsAlwaysCallable f }
    ensures { (g : Float → Float) → ((x y : Float) → F.post f x y → y ≡ g x) → values.new ≡ on_scal (code_of curve) g values.old }
{
    if let Some(i) = curve.scal_index() {
        values[i] = f(values[i]);
    }
}

#[tactic(auto, unfolding(curves::specs::MeanFn::n_params_of))]
fn starting_values(q: &NlmmProblem<'_>) -> [f64; 4]
    ensures { result ≡ started (checked q.now) }
{
    let mut values = [0.0; 4];
    values[..q.starts.len()].copy_from_slice(q.starts);
    values
}

// The adjusted, projected start. The effects are zero and are not projected.
#[tactic(auto, unfolding(crate::specs::Trial::start_state))]
pub fn start_state(q: &NlmmProblem<'_>) -> State
    ensures { result ≡ start_state (checked q.now) }
{
    let mut values = starting_values(q);
    on_scal(q.curve, &mut values, adjust);
    project_params(q, &mut values);
    State {
        values,
        effects: [0.0; 64],
    }
}

// The first numbers of a list, as many as d has, by alpha times those of d; not by `iter_mut` and `zip`, of which nothing
// is known to a proof.
#[tactic(auto, using(math::specs::laws::Loops::turns), unfolding(crate::specs::Trial::moved_of, crate::specs::Lists::each))]
fn advance(list: &mut [f64], d: &[f64], alpha: f64)
    requires { length d.now ≤ length list.old }
    ensures { list.new ≡ moved_of (length d.now) 0 d.now alpha list.old }
{
    for (j, step) in d.iter().enumerate() {
        list[j] += alpha * *step;
    }
}

// The floor comes before the projection.
#[tactic(auto, using(curves::specs::laws::Params::params_most, crate::proofs::Laws::few_moved, crate::proofs::Laws::moved_first), unfolding(crate::specs::Trial::values_tried))]
fn try_values(q: &NlmmProblem<'_>, values: &mut [f64; 4], d: &[f64], alpha: f64)
    requires { p (checked q.now) ≤ length d.now }
    ensures { values.new ≡ values_tried (checked q.now) d.now alpha values.old }
{
    advance(values, &d[..q.curve.n_params()], alpha);
    on_scal(q.curve, values, floor);
    project_params(q, values);
}

// The effects are projected by the trial's values.
#[tactic(auto, using(crate::specs::laws::Sized::all_fit, crate::proofs::Laws::moved_part), unfolding(crate::specs::Trial::effects_tried))]
fn try_effects(q: &NlmmProblem<'_>, values: &[f64; 4], b: &mut [f64; 64], d: &[f64], alpha: f64)
    requires { direction_length (checked q.now) ≤ length d.now }
    ensures { b.new ≡ effects_tried (checked q.now) values.now d.now alpha b.old }
{
    let p = q.curve.n_params();
    advance(b, &d[p..p + q.group_count * q.places.len()], alpha);
    project_group_params(q, values, b);
}

// The state at length alpha of the direction d, after floor and projection. d and alpha are no struct: of one d a round tries
// 20 lengths, and each length halves the one before.
#[tactic(auto, unfolding(crate::specs::Trial::tried_of))]
pub fn try_step(q: &NlmmProblem<'_>, s: &State, d: &[f64], alpha: f64) -> State
    requires { direction_length (checked q.now) ≤ length d.now }
    ensures { result ≡ tried_of (checked q.now) s.now d.now alpha }
{
    let mut values = s.values;
    let mut effects = s.effects;
    try_values(q, &mut values, d, alpha);
    try_effects(q, &values, &mut effects, d, alpha);
    State { values, effects }
}

// The size of the largest component of alpha times d: `math::largest` of products that stand in no list.
#[tactic(auto, unfolding(math::specs::Lists::largest_of, crate::specs::Trial::step_of))]
pub fn step_size(alpha: f64, d: &[f64]) -> f64
    ensures { result ≡ step_of alpha d.now }
{
    d.iter()
        .map(|x| alpha * *x)
        .fold(0.0, |t, x| math::max(t, math::abs(x)))
}

#[tactic(auto, unfolding(crate::specs::Trial::lambda_of))]
pub fn first_lambda(q: &NlmmProblem<'_>) -> f64
    ensures { result ≡ first_lambda (checked q.now) }
{
    if q.is_scalar() {
        SCALAR_LAMBDA
    } else {
        FIRST_LAMBDA
    }
}

// After a win.
#[tactic(auto, unfolding(crate::specs::Trial::lowered))]
pub fn lower_lambda(lambda: f64) -> f64
    ensures { result ≡ lowered lambda }
{
    math::max(lambda * LOWERING, LEAST_LAMBDA)
}

// After a failed attempt.
#[tactic(auto, unfolding(crate::specs::Trial::raised))]
pub fn raise_lambda(lambda: f64) -> f64
    ensures { result ≡ raised lambda }
{
    math::min(lambda * RAISING, GREATEST_LAMBDA)
}
