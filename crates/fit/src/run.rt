// All rounds of a fit (`inner_gauss_newton_status`), from the start on.
ghost use Rattle.std.specs.Prelude.{◌≡◌, ◌≤◌, length};
ghost use Rattle.fit_refusals.specs.Problem.{direction_length};
ghost use Rattle.fit_refusals.specs.Given.{checked};
ghost use Rattle.fit.specs.Steps.{fit_run, ending_of, ended_with};

use curves::Mean;
use fit_penalized::normal::normal;
use fit_refusals::{MAX_READINGS, NlmmProblem};
use fit_round::{End, Evaluated, NEAR, evaluate_state, round};
use fit_step::State;
use fit_step::trial::{first_lambda, start_state};
use re_cov::sigma_inv_from_theta;

// What a run of rounds ends in. converged is an answer, beside values that stand either way.
#[derive(Clone, Copy)]
pub struct Ended {
    pub state: State,
    pub rss: f64,
    pub converged: bool,
    pub rounds: usize,
    pub trials: usize,
}

// The rss that is answered was worked out with the state.
fn end_with(x: &Evaluated, converged: bool, rounds: usize, trials: usize) -> Ended
    ensures { result ≡ ended_with x.now converged rounds trials }
{
    Ended {
        state: x.state,
        rss: x.rss,
        converged,
        rounds,
        trials,
    }
}

// All rounds, from the adjusted, projected start. A round without a winner is the last, and so is a
// round whose step is below `NEAR`. The direction d is a lent list and no struct: each round writes it, and its trials
// read it.
#[tactic(auto, using(crate::proofs::Turns::run_begins))]
fn run(
    q: &NlmmProblem<'_>,
    allowed: usize,
    d: &mut [f64],
    means: &mut [Mean; MAX_READINGS],
) -> Ended
    requires long { length d.old ≡ direction_length (checked q.now) }
    requires few { allowed ≤ 1000 }
    ensures { ending_of result ≡ fit_run (checked q.now) allowed }
{
    let inverse = sigma_inv_from_theta(q.places.len(), q.theta);
    let mut x = evaluate_state(q, start_state(q), means);
    let mut lambda = first_lambda(q);
    let mut trials = 0;
    for i in 0..allowed {
        let n = normal(q, &x.state, means, inverse);
        let o = round(q, &x, n, lambda, d, means);
        trials += o.trials;
        match o.end {
            End::Won(w) => {
                x = w.at;
                lambda = w.lambda;
                if w.step < NEAR {
                    return end_with(&x, true, i + 1, trials);
                }
            }
            End::Converged => return end_with(&x, true, i + 1, trials),
            End::Lost => return end_with(&x, false, i + 1, trials),
        }
    }
    end_with(&x, false, allowed, trials)
}

// The fit of a problem without fault, with room, as there is no heap, for a direction, of four curve values and two
// effects of 32 groups, and for the curves of all readings.
#[tactic(auto, using(curves::specs::laws::Params::params_most, fit_step::specs::laws::Sized::all_fit))]
pub fn inner_gauss_newton(q: &NlmmProblem<'_>, allowed: usize) -> Ended
    requires { allowed ≤ 1000 }
    ensures { ending_of result ≡ fit_run (checked q.now) allowed }
{
    let mut d = [0.0; 68];
    let none = Mean {
        mu: 0.0,
        d0: 0.0,
        d1: 0.0,
        d2: 0.0,
        d3: 0.0,
    };
    let mut means = [none; MAX_READINGS];
    let size = q.curve.n_params() + q.group_count * q.places.len();
    run(q, allowed, &mut d[..size], &mut means)
}
