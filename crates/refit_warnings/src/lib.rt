// What a report of a refit has to warn of: where its numbers are not to be used, or mean less than they seem to.
#![tactic(auto)]

pub mod findings;
pub mod told;

ghost use Rattle.std.specs.Prelude.{◌≡◌};
ghost use Rattle.std.specs.List.{list_any};
ghost use Rattle.std.specs.Float.Ieee.{eq};
ghost use Rattle.curves.specs.MeanFn.{code_of};
ghost use Rattle.refit_warnings.specs.Warnings.{canister_sum, canister_mean, square_of, constant_rss, explains_nothing, is_unmoved, is_step, distinct_doses, too_few_readings, findings_lists, warns};

use crate::findings::{Findings, Warning};
use curves::Curve;
use svg_axes::subject::Subject;

// How many readings there are, as a float, and the sum of their grams.
#[derive(Clone, Copy)]
pub struct Sum {
    pub count: f64,
    pub total: f64,
}

// The readings of canister g. By index and no zip: where grams are missing, `at` says NaN.
#[tactic(auto, using(math::specs::laws::Loops::iter_zero, math::specs::laws::Loops::iter_next), unfolding(crate::specs::Warnings::canister_sum))]
fn readings_of(s: &Subject<'_>, g: usize) -> Sum
    ensures { result ≡ canister_sum s.now.groups.now s.now.grams.now g }
{
    let mut sum = Sum {
        count: 0.0,
        total: 0.0,
    };
    for (i, &of) in s.groups.iter().enumerate() {
        if of == g {
            sum.count += 1.0;
            sum.total += math::at(s.grams, i);
        }
    }
    sum
}

fn mean(s: &Subject<'_>, g: usize) -> f64
    ensures { result ≡ canister_mean s.now.groups.now s.now.grams.now g }
{
    let sum = readings_of(s, g);
    sum.total / sum.count
}

fn square(d: f64) -> f64
    ensures { result ≡ square_of d }
{
    d * d
}

// The rss of a constant for each canister. By index, as above.
#[tactic(auto, using(math::specs::laws::Loops::iter_zero, math::specs::laws::Loops::iter_next), unfolding(crate::specs::Warnings::constant_rss))]
fn constant_rss(s: &Subject<'_>) -> f64
    ensures { result ≡ constant_rss s.now.groups.now s.now.grams.now }
{
    let mut rss = 0.0;
    for (i, &g) in s.groups.iter().enumerate() {
        rss += square(math::at(s.grams, i) - mean(s, g));
    }
    rss
}

// Whether the fit's rss is no lower than that, but for rounding.
fn explains_nothing(f: &Findings<'_>) -> bool
    ensures { result ≡ explains_nothing f.now.refit.fit.rss f.now.subject.groups.now f.now.subject.grams.now }
{
    !(f.refit.fit.rss < constant_rss(&f.subject) * 0.999999)
}

// Whether value i is where it started.
#[tactic(auto, unfolding(crate::specs::Warnings::is_unmoved))]
fn is_unmoved(f: &Findings<'_>, i: usize) -> bool
    ensures { result ≡ is_unmoved f.now.starts.now f.now.subject.values.now i }
{
    i < f.subject.values.len() && math::at(f.subject.values, i) == math::at(f.starts, i)
}

// A trial puts a scal that would fall below 1e-6 there: what ends so is a step and no fit, though it may have converged.
#[tactic(auto, unfolding(crate::specs::Warnings::is_step))]
fn is_step(curve: Curve, values: &[f64]) -> bool
    ensures { result ≡ is_step (code_of curve) values.now }
{
    match curve {
        Curve::Sslogis => math::at(values, 2) < 2e-6,
        Curve::Ssfpl => math::at(values, 3) < 2e-6,
        Curve::Ssasymp | Curve::Ssmicmen => false,
    }
}

fn is_among(doses: &[f64], dose: f64) -> bool
    ensures { result ≡ list_any (λ d. eq d dose) doses.now }
{
    doses.iter().any(|d| *d == dose)
}

// How many different doses there are.
#[tactic(auto, using(math::specs::laws::Loops::iter_zero, math::specs::laws::Loops::iter_next), unfolding(crate::specs::Warnings::distinct_doses))]
fn distinct(doses: &[f64]) -> usize
    ensures { result ≡ distinct_doses doses.now }
{
    let mut n = 0;
    for (i, &dose) in doses.iter().enumerate() {
        if !is_among(&doses[..i], dose) {
            n += 1;
        }
    }
    n
}

// Whether the readings are no more than p values and the differences between the canisters, or have fewer doses than values.
#[tactic(auto, unfolding(crate::specs::Warnings::too_few_readings))]
fn few(doses: &[f64], p: usize, group_count: usize) -> bool
    ensures { result ≡ too_few_readings doses.now p group_count }
{
    distinct(doses) < p || doses.len().saturating_sub(p) < group_count
}

#[tactic(auto, unfolding(crate::specs::Warnings::warns))]
pub fn warns(f: &Findings<'_>, warning: Warning) -> bool
    ensures { result ≡ warns (findings_lists f.now) warning }
{
    let s = f.subject;
    let group_count = s.effects.len();
    let theta = f.refit.search.theta;
    match warning {
        Warning::Unmoved(i) => is_unmoved(f, i),
        Warning::Search => !f.refit.search.converged,
        Warning::Fit => !f.refit.fit.converged,
        Warning::Step => is_step(s.curve, s.values),
        Warning::Nothing => explains_nothing(f),
        Warning::Few => few(s.doses, s.values.len(), group_count),
        Warning::Low => group_count > 1 && theta < 0.201,
        Warning::High => group_count > 1 && theta > 19.999,
        Warning::Alone => group_count == 1,
        Warning::Quadrature => f.n_agq > 1,
    }
}
