// To project is to clamp: the curve values to their bounds, and the effects by the group bounds.
ghost use Rattle.std.specs.Prelude.{◌≡◌, ◌<◌};
ghost use Rattle.fit_refusals.specs.Problem.{k};
ghost use Rattle.fit_refusals.specs.Given.{checked};
ghost use Rattle.fit_step.specs.Project.{clamp_of, project_of, slot_of, project_slot, project_groups};

use fit_refusals::NlmmProblem;

// By comparisons, for any bounds: the `clamp` of `f64` stops where lo is above hi.
pub fn clamp(lo: f64, hi: f64, v: f64) -> f64
    ensures { result ≡ clamp_of lo hi v }
{
    if v < lo {
        lo
    } else if v > hi {
        hi
    } else {
        v
    }
}

// The first p values.
#[tactic(auto, using(math::specs::laws::Loops::turns, curves::specs::laws::Params::params_most), unfolding(crate::specs::Project::project_of, crate::specs::Lists::each))]
pub fn project_params(q: &NlmmProblem<'_>, values: &mut [f64; 4])
    ensures { values.new ≡ project_of (checked q.now) values.old }
{
    // By index: values is written beside two lists, and of `iter_mut` under `zip` nothing is known to a proof.
    for i in 0..q.curve.n_params() {
        values[i] = clamp(q.lower[i], q.upper[i], values[i]);
    }
}

// Effect r of every group, stored as the clamped sum less the value, clamped or not.
#[tactic(auto, using(math::specs::laws::Loops::turns, crate::specs::laws::Sized::slot_fits), unfolding(crate::specs::Project::slot_of))]
fn clamp_slot(q: &NlmmProblem<'_>, r: usize, lo: f64, hi: f64, beta: f64, b: &mut [f64; 64])
    requires { r < k (checked q.now) }
    ensures { b.new ≡ slot_of (checked q.now) r lo hi beta b.old }
{
    // By index: every k-th place of b is written, and of `iter_mut` under `step_by` nothing is known to a proof.
    for g in 0..q.group_count {
        let at = g * q.places.len() + r;
        b[at] = clamp(lo, hi, beta + b[at]) - beta;
    }
}

// Where neither group bound of its value is finite, an effect keeps its bits.
#[tactic(auto, using(curves::specs::laws::Params::params_most))]
fn project_slot(q: &NlmmProblem<'_>, r: usize, values: &[f64; 4], b: &mut [f64; 64])
    requires { r < k (checked q.now) }
    ensures { b.new ≡ project_slot (checked q.now) values.now r b.old }
{
    let j = q.places[r];
    let lo = q.group_lower[j];
    let hi = q.group_upper[j];
    if math::is_finite(lo) || math::is_finite(hi) {
        clamp_slot(q, r, lo, hi, values[j], b);
    }
}

// The effects of every group, by the projected values.
#[tactic(auto, using(math::specs::laws::Loops::turns), unfolding(crate::specs::Project::project_groups))]
pub fn project_group_params(q: &NlmmProblem<'_>, values: &[f64; 4], b: &mut [f64; 64])
    ensures { b.new ≡ project_groups (checked q.now) values.now b.old }
{
    for r in 0..q.places.len() {
        project_slot(q, r, values, b);
    }
}
