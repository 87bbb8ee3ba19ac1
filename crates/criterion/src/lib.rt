// The criterion at one theta: the public operation, over fit.rs's `profile_objective`.
#![tactic(auto)]

pub mod profile;

ghost use Rattle.std.specs.Prelude.{◌≡◌, length};
ghost use Rattle.fit_refusals.specs.Given.{given, checked};
ghost use Rattle.fit_refusals.specs.Valid.{ValidFit};
ghost use Rattle.fit.specs.Fit.{fit_answer, fit_of};
ghost use Rattle.criterion.specs.Answer.{told, call_of, profile_of};

use crate::profile::{Profile, profile_objective};
use criterion_groups::Estimate;
use curves::mean_fn::four;
use fit::fit_checked;
use fit_refusals::{NlmmProblem, Problem};
use refusal::Refusal;

// The lists are written as the fit writes them, and the criterion is worked out from them. `reml` is a flag, as C and
// document 01 have it: REML or ML. The limit, the flag, the order and the two lists stand here one by one, as C gives them.
#[tactic(auto, unfolding(crate::specs::Answer::profile_of, fit::specs::Answer::told))]
pub fn criterion_checked(
    q: &NlmmProblem<'_>,
    max_rounds: u64,
    reml: bool,
    n_agq: u64,
    values: &mut [f64],
    effects_out: &mut [f64],
) -> Profile
    requires { ValidFit (checked q.now) (length values.old) (length effects_out.old) max_rounds }
    ensures profile { result ≡ profile_of (checked q.now) max_rounds reml n_agq }
    ensures values { values.new ≡ (fit_answer (checked q.now) (fit_of (checked q.now) max_rounds)).values }
    ensures effects { effects_out.new ≡ (fit_answer (checked q.now) (fit_of (checked q.now) max_rounds)).effects }
{
    let fitted = fit_checked(q, max_rounds, values, effects_out);
    let at = Estimate {
        problem: q,
        values: four(values),
        b: effects_out,
    };
    profile_objective(&at, fitted.rss, reml, n_agq)
}

// Refused as the fit is, with both lists as they were; else as `criterion_checked`.
#[tactic(auto, unfolding(crate::specs::Answer::call_of))]
pub fn criterion(
    problem: &Problem<'_>,
    max_rounds: u64,
    reml: bool,
    n_agq: u64,
    values: &mut [f64],
    effects_out: &mut [f64],
) -> Result<Profile, Refusal>
    ensures { told result values.new effects_out.new
        ≡ call_of (given problem.now) max_rounds reml n_agq values.old effects_out.old }
{
    let q = problem.for_fit(max_rounds, values.len(), effects_out.len())?;
    Ok(criterion_checked(&q, max_rounds, reml, n_agq, values, effects_out))
}
