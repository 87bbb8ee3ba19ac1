// One round of a fit (a turn of `inner_gauss_newton_status`): up to 12 attempts, each a direction and up
// to 20 lengths of it. Each state's curves are worked out once: its trial leaves them in `means`, and
// the normal blocks of the round that starts from it are built from there.
#![tactic(auto)]

ghost use Rattle.std.specs.Prelude.{◌≡◌, ◌≤◌, ◌+◌, ◌*◌, length};
ghost use Rattle.fit_refusals.specs.Problem.{direction_length};
ghost use Rattle.fit_refusals.specs.Given.{checked};
ghost use Rattle.fit_penalized.specs.Penalized.{Means};
ghost use Rattle.fit_round.specs.Rounds.{evaluated_of, ComesTo, Kept};

use block_solve::normal::BlockNormal;
use curves::Mean;
use fit_penalized::{evaluate, penalties};
use fit_refusals::{MAX_READINGS, NlmmProblem};
use fit_step::State;
use fit_step::trial::{lower_lambda, raise_lambda, step_size, try_step};
use math::largest;

// How many attempts a round has, and how many lengths an attempt.
const ATTEMPTS: usize = 12;

const LENGTHS: usize = 20;

// A proposal below it ends the fit as converged, and so does a step below it.
pub const NEAR: f64 = 1e-10;

// A state with its rss and its penalised sum.
#[derive(Clone, Copy)]
pub struct Evaluated {
    pub state: State,
    pub rss: f64,
    pub sum: f64,
}

// A trial that won, the lambda of the next round and the size of the step.
#[derive(Clone, Copy)]
pub struct Winner {
    pub at: Evaluated,
    pub lambda: f64,
    pub step: f64,
}

// How a round ends: with a winner; with a proposal below NEAR; or without a direction, or with no attempt left.
#[derive(Clone, Copy)]
pub enum End {
    Won(Winner),
    Converged,
    Lost,
}

// What a round comes to.
#[derive(Clone, Copy)]
pub struct Outcome {
    pub end: End,
    pub trials: usize,
}

// The rss and the penalised sum of a state; its curves are left in means, a list that is lent beside the state and no field
// of it: there is no heap, and each state of a fit would have room for 512 curves.
#[tactic(auto, using(fit_step::specs::laws::Sized::all_fit), unfolding(fit_penalized::specs::Penalized::penalized_rss))]
pub fn evaluate_state(
    q: &NlmmProblem<'_>,
    state: State,
    means: &mut [Mean; MAX_READINGS],
) -> Evaluated
    ensures same { result.state ≡ state }
    ensures sums { result ≡ evaluated_of (checked q.now) result.state }
    ensures kept { Means (checked q.now) result.state means.new }
{
    let rss = evaluate(q, &state, means);
    let sum = rss + penalties(q, &state.effects);
    Evaluated { state, rss, sum }
}

// One round: up to 12 attempts of 20 lengths each. The first winner leaves both, by the label that document 01 names.
pub fn round(
    q: &NlmmProblem<'_>,
    x: &Evaluated,
    n: BlockNormal,
    first: f64,
    d: &mut [f64],
    means: &mut [Mean; MAX_READINGS],
) -> Outcome
    requires { length d.old ≡ direction_length (checked q.now) }
    ensures comes { ComesTo (checked q.now) x.now n first result }
    ensures few { result.trials ≤ 240 }
    ensures kept { Kept (checked q.now) means.new result.end }
{
    let p = q.curve.n_params();
    let k = q.places.len();
    let mut lambda = first;
    let mut trials = 0;
    let mut end = End::Lost;
    'attempts: for attempt in 0..ATTEMPTS {
        if !n.solve(p, k, q.group_count, lambda, d) {
            return Outcome {
                end: End::Lost,
                trials,
            };
        }
        if largest(d) < NEAR {
            return Outcome {
                end: End::Converged,
                trials,
            };
        }
        let mut alpha = 1.0;
        for t in 0..LENGTHS {
            let y = evaluate_state(q, try_step(q, &x.state, d, alpha), means);
            trials += 1;
            if y.sum < x.sum {
                end = End::Won(Winner {
                    at: y,
                    lambda: lower_lambda(lambda),
                    step: step_size(alpha, d),
                });
                break 'attempts;
            }
            alpha *= 0.5;
        }
        lambda = raise_lambda(lambda);
    }
    Outcome { end, trials }
}
