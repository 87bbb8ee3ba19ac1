// The fit at one theta: the public operation.
#![tactic(auto)]

pub mod run;

ghost use Rattle.std.specs.Prelude.{◌≡◌, length, Ok};
ghost use Rattle.fit_refusals.specs.Given.{given, checked};
ghost use Rattle.fit_refusals.specs.Valid.{ValidFit};
ghost use Rattle.fit.specs.Fit.{fit_answer, fit_of};
ghost use Rattle.fit.specs.Answer.{told, done_with, call_of};

use crate::run::inner_gauss_newton;
use fit_refusals::{NlmmProblem, Problem};
use refusal::Refusal;

// What a fit answers besides the values and effects that it writes; whether it converged decides none of the other three.
#[derive(Clone, Copy)]
pub struct Fitted {
    pub rss: f64,
    pub converged: bool,
    pub rounds: usize,
    pub trials: usize,
}

// The last state's p values and groups times k effects are written, group after group, into two lists, as C lends them.
// Not inlined: a caller's own arrays would lie on the stack beside the fit's.
#[inline(never)]
#[tactic(auto, using(curves::specs::laws::Params::params_most, fit_refusals::specs::laws::Valid::few_effects, crate::proofs::Call::checked_done))]
pub fn fit_checked(
    q: &NlmmProblem<'_>,
    max_rounds: u64,
    values: &mut [f64],
    effects_out: &mut [f64],
) -> Fitted
    requires { ValidFit (checked q.now) (length values.old) (length effects_out.old) max_rounds }
    ensures { told (Ok result) values.new effects_out.new ≡ done_with (fit_answer (checked q.now) (fit_of (checked q.now) max_rounds)) }
{
    let last = inner_gauss_newton(q, max_rounds as usize);
    let p = values.len();
    values.copy_from_slice(&last.state.values[..p]);
    let n = effects_out.len();
    effects_out.copy_from_slice(&last.state.effects[..n]);
    // What is left of `last` without its state, which is written.
    Fitted {
        rss: last.rss,
        converged: last.converged,
        rounds: last.rounds,
        trials: last.trials,
    }
}

// Refused by document 01's numbers 1 to 10, with both lists as they were; else as `fit_checked`.
#[tactic(auto, using(crate::proofs::Call::call_refused, crate::proofs::Call::call_done))]
pub fn fit(
    problem: &Problem<'_>,
    max_rounds: u64,
    values: &mut [f64],
    effects_out: &mut [f64],
) -> Result<Fitted, Refusal>
    ensures { told result values.new effects_out.new ≡ call_of (given problem.now) max_rounds values.old effects_out.old }
{
    let q = problem.for_fit(max_rounds, values.len(), effects_out.len())?;
    Ok(fit_checked(&q, max_rounds, values, effects_out))
}
