// The C boundary, include/kemroul.h: each function calls the operation and hands its answer on.
#![tactic(auto)]

ghost use Rattle.std.specs.Prelude.{◌≡◌, [], ◌∷◌, eqb, not};
ghost use Rattle.curves.specs.Curve.{curve_of};
ghost use Rattle.quadrature.specs.Orders.{order_or_zero};
ghost use Rattle.self_start.specs.Start as Start;
ghost use Rattle.criterion.specs.Answer as Criterion;
ghost use Rattle.golden.specs.Search as Search;
ghost use Rattle.fit.specs.Answer.{call_of};
ghost use Rattle.fit_refusals.specs.Problem.{problem_of};
ghost use Rattle.fit_refusals.specs.Given.{number_in};
ghost use Rattle.kemroul.specs.Boundary.{handed, fit_left, criterion_left, search_left};
ghost use Rattle.math.specs.Exp.{exp_of};
ghost use Rattle.math.specs.Ln.{ln_of};
ghost use Rattle.math.specs.Sqrt.{sqrt_of};

use criterion::criterion as profile;
use curves::curve;
use fit::fit;
use fit_refusals::Problem;
use golden::search;
use refusal::Refusal;
use self_start::self_start;

// What a call is refused with, and 0 where it is not.
fn number<A: Copy>(answer: Result<A, Refusal>) -> u64
    ensures { result ≡ number_in answer }
{
    match answer {
        Ok(_) => 0,
        Err(refusal) => refusal.number(),
    }
}

#[unsafe(no_mangle)]
pub extern "C" fn kemroul_exp(x: f64) -> f64
    ensures { result ≡ exp_of x }
{
    math::exp::exp(x)
}

#[unsafe(no_mangle)]
pub extern "C" fn kemroul_ln(x: f64) -> f64
    ensures { result ≡ ln_of x }
{
    math::ln::ln(x)
}

#[unsafe(no_mangle)]
pub extern "C" fn kemroul_sqrt(x: f64) -> f64
    ensures { result ≡ sqrt_of x }
{
    math::sqrt::sqrt(x)
}

#[unsafe(no_mangle)]
pub extern "C" fn kemroul_gh_order(asked: u64) -> u64
    ensures { result ≡ order_or_zero asked }
{
    quadrature::orders::gh_order(asked)
}

#[tactic(auto, unfolding(crate::specs::Boundary::handed, curves::specs::Curve::told))]
#[unsafe(no_mangle)]
pub extern "C" fn kemroul_curve(
    code: u64,
    values: &[f64],
    dose: f64,
    mu: &mut f64,
    d0: &mut f64,
    d1: &mut f64,
    d2: &mut f64,
    d3: &mut f64,
) -> u64
    ensures { handed (curve_of code values.now dose) (mu.old ∷ d0.old ∷ d1.old ∷ d2.old ∷ d3.old ∷ [])
        ≡ (result, mu.new ∷ d0.new ∷ d1.new ∷ d2.new ∷ d3.new ∷ []) }
{
    let curve = curve(code, values, dose);
    let Ok(m) = curve else {
        return number(curve);
    };
    *mu = m.mu;
    *d0 = m.d0;
    *d1 = m.d1;
    *d2 = m.d2;
    *d3 = m.d3;
    0
}

#[tactic(auto, unfolding(self_start::specs::Start::told))]
#[unsafe(no_mangle)]
pub extern "C" fn kemroul_start(code: u64, doses: &[f64], grams: &[f64], values: &mut [f64]) -> u64
    ensures { Start.call_of code doses.now grams.now values.old ≡ record { number = result; values = values.new } }
{
    let started = self_start(code, doses, grams, values);
    number(started)
}

#[tactic(auto, unfolding(crate::specs::Boundary::fit_left, fit::specs::Answer::told))]
#[unsafe(no_mangle)]
pub extern "C" fn kemroul_fit(
    code: u64,
    doses: &[f64],
    grams: &[f64],
    groups: &[usize],
    group_count: usize,
    effects: &[usize],
    starts: &[f64],
    lower: &[f64],
    upper: &[f64],
    group_lower: &[f64],
    group_upper: &[f64],
    theta: &[f64],
    max_rounds: u64,
    values: &mut [f64],
    effects_out: &mut [f64],
    rss: &mut f64,
    converged: &mut u64,
    rounds: &mut u64,
    trials: &mut u64,
) -> u64
    ensures { fit_left
        (call_of
        (problem_of code doses.now grams.now groups.now group_count effects.now
        starts.now lower.now upper.now group_lower.now group_upper.now theta.now)
        max_rounds values.old effects_out.old)
        rss.old converged.old rounds.old trials.old
        ≡ record {
          number = result;
          values = values.new;
          effects = effects_out.new;
          rss = rss.new;
          converged = converged.new;
          rounds = rounds.new;
          trials = trials.new;
        } }
{
    let problem = Problem {
        code,
        doses,
        grams,
        groups,
        group_count,
        places: effects,
        starts,
        lower,
        upper,
        group_lower,
        group_upper,
        theta,
    };
    let fitted = fit(&problem, max_rounds, values, effects_out);
    let Ok(f) = fitted else {
        return number(fitted);
    };
    *rss = f.rss;
    *converged = u64::from(f.converged);
    *rounds = f.rounds as u64;
    *trials = f.trials as u64;
    0
}

// Any value of reml but 0 counts as 1.
#[tactic(auto, unfolding(crate::specs::Boundary::criterion_left))]
#[unsafe(no_mangle)]
pub extern "C" fn kemroul_criterion(
    code: u64,
    doses: &[f64],
    grams: &[f64],
    groups: &[usize],
    group_count: usize,
    effects: &[usize],
    starts: &[f64],
    lower: &[f64],
    upper: &[f64],
    group_lower: &[f64],
    group_upper: &[f64],
    theta: &[f64],
    max_rounds: u64,
    reml: u64,
    n_agq: u64,
    values: &mut [f64],
    effects_out: &mut [f64],
    criterion: &mut f64,
    sigma2: &mut f64,
) -> u64
    ensures { criterion_left
        (Criterion.call_of
        (problem_of code doses.now grams.now groups.now group_count effects.now
        starts.now lower.now upper.now group_lower.now group_upper.now theta.now)
        max_rounds (not (eqb reml 0)) n_agq values.old effects_out.old)
        criterion.old sigma2.old
        ≡ record {
          number = result;
          values = values.new;
          effects = effects_out.new;
          criterion = criterion.new;
          sigma2 = sigma2.new;
        } }
{
    let problem = Problem {
        code,
        doses,
        grams,
        groups,
        group_count,
        places: effects,
        starts,
        lower,
        upper,
        group_lower,
        group_upper,
        theta,
    };
    let profiled = profile(&problem, max_rounds, reml != 0, n_agq, values, effects_out);
    let Ok(p) = profiled else {
        return number(profiled);
    };
    *criterion = p.criterion;
    *sigma2 = p.sigma2;
    0
}

// Any value of reml but 0 counts as 1.
#[tactic(auto, unfolding(crate::specs::Boundary::search_left))]
#[unsafe(no_mangle)]
pub extern "C" fn kemroul_search(
    code: u64,
    doses: &[f64],
    grams: &[f64],
    groups: &[usize],
    group_count: usize,
    effects: &[usize],
    starts: &[f64],
    lower: &[f64],
    upper: &[f64],
    group_lower: &[f64],
    group_upper: &[f64],
    max_rounds: u64,
    reml: u64,
    n_agq: u64,
    max_narrowings: u64,
    theta: &mut f64,
    criterion: &mut f64,
    narrowings: &mut u64,
    converged: &mut u64,
    fits: &mut u64,
) -> u64
    ensures { search_left
        (Search.call_of
        (problem_of code doses.now grams.now groups.now group_count effects.now
        starts.now lower.now upper.now group_lower.now group_upper.now [])
        max_rounds (not (eqb reml 0)) n_agq max_narrowings)
        theta.old criterion.old narrowings.old converged.old fits.old
        ≡ record {
          number = result;
          theta = theta.new;
          criterion = criterion.new;
          narrowings = narrowings.new;
          converged = converged.new;
          fits = fits.new;
        } }
{
    let problem = Problem {
        code,
        doses,
        grams,
        groups,
        group_count,
        places: effects,
        starts,
        lower,
        upper,
        group_lower,
        group_upper,
        theta: &[],
    };
    let found = search(&problem, max_rounds, reml != 0, n_agq, max_narrowings);
    let Ok(f) = found else {
        return number(found);
    };
    *theta = f.theta;
    *criterion = f.criterion;
    *narrowings = f.narrowings;
    *converged = u64::from(f.converged);
    *fits = f.fits;
    0
}
