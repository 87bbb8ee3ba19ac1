// Start values, the search over theta, and the fit and criterion there, with no bounds. The lists that a refit writes are lent
// one by one, as a fit and a criterion are lent them.
#![tactic(auto)]

ghost use Rattle.std.specs.Prelude.{◌≡◌, length, true, false};
ghost use Rattle.curves.specs.MeanFn.{code_of};
ghost use Rattle.fit_refusals.specs.Given.{given};
ghost use Rattle.refit_calculation.specs.Refit.{request_lists, with_fit, with_search, is_adjusted, adjusted_of, with_starts, refit_of};

use criterion::criterion;
use curves::Curve;
use fit::{Fitted, fit};
use fit_refusals::Problem;
use golden::{Found, search};
use math::ln::ln;
use refusal::Refusal;
use self_start::self_start;

// The rounds and narrowings that are allowed; `help` tells them.
pub const ROUNDS: u64 = 200;

pub const NARROWINGS: u64 = 60;

// What is refitted: the readings of a curve's code, with one effect for each canister at each of the `places`.
// The code as fit, criterion and search take it: one that no curve has is refused and no fault of the caller.
#[derive(Clone, Copy)]
pub struct Request<'a> {
    pub code: u64,
    pub doses: &'a [f64],
    pub grams: &'a [f64],
    pub groups: &'a [usize],
    pub places: &'a [usize],
    pub reml: bool,
    pub n_agq: u64,
}

// What was found: theta and the criterion by the search, the rss and the counts by the fit at theta, sigma2 by the
// criterion there. `adjusted`: the self-start's third value was not taken as it is.
#[derive(Clone, Copy)]
pub struct Answer {
    pub adjusted: bool,
    pub search: Found,
    pub fit: Fitted,
    pub sigma2: f64,
}

// The step that was refused; the criterion at theta counts to the fit there.
#[derive(Clone, Copy, Debug, PartialEq, Eq)]
pub enum Step {
    Start,
    Search,
    Fit,
}

#[derive(Clone, Copy, Debug, PartialEq, Eq)]
pub struct Refused {
    pub step: Step,
    pub refusal: Refusal,
    pub adjusted: bool,
}

impl Step {
    fn refused(self, refusal: Refusal, adjusted: bool) -> Refused
        ensures { result ≡ record { step = self; refusal = refusal; adjusted = adjusted } }
    {
        Refused {
            step: self,
            refusal,
            adjusted,
        }
    }
}

// Two of the self-start's values lead a fit nowhere, and the report says that they were changed. Curve 1's scal is
// negative for readings that rise, and a trial puts a negative scal at 1e-6: its sign is turned. Curve 2's lrc is the
// rate ln 2 / xmid, while the curve takes the rate's logarithm: that is put in its place.
#[tactic(auto, unfolding(crate::specs::Refit::is_adjusted, crate::specs::Refit::adjusted_of))]
fn adjust(curve: Curve, starts: &mut [f64]) -> bool
    ensures adjusted { result ≡ is_adjusted (code_of curve) starts.old }
    ensures starts { starts.new ≡ adjusted_of (code_of curve) starts.old }
{
    if starts.len() < 3 {
        return false;
    }
    let x = starts[2];
    match curve {
        Curve::Sslogis if x < 0.0 => {
            starts[2] = -x;
            true
        }
        Curve::Ssasymp if x > 0.0 => {
            starts[2] = ln(x);
            true
        }
        _ => false,
    }
}

// The fit and the criterion at the theta that the search found. Both write the same values and effects.
#[tactic(auto, unfolding(crate::specs::Refit::with_fit, crate::specs::Refit::with_criterion, fit::specs::Answer::told))]
fn at_theta(
    problem: &Problem<'_>,
    r: &Request<'_>,
    adjusted: bool,
    found: Found,
    values: &mut [f64],
    b: &mut [f64],
) -> Result<Answer, Refused>
    ensures { with_fit (given problem.now) r.now.reml r.now.n_agq adjusted found values.old b.old
        ≡ record { answer = result; starts = problem.now.starts.now; values = values.new; effects = b.new } }
{
    let refused = |refusal| Step::Fit.refused(refusal, adjusted);
    let theta = [found.theta];
    let problem = Problem {
        theta: &theta,
        ..*problem
    };
    let fitted = fit(&problem, ROUNDS, values, b).map_err(refused)?;
    let profile = criterion(&problem, ROUNDS, r.reml, r.n_agq, values, b).map_err(refused)?;
    Ok(Answer {
        adjusted,
        search: found,
        fit: fitted,
        sigma2: profile.sigma2,
    })
}

// From start values: the search without bounds, and then what is told at the theta found.
#[tactic(auto, unfolding(crate::specs::Refit::with_search))]
fn searched(
    problem: &Problem<'_>,
    r: &Request<'_>,
    adjusted: bool,
    values: &mut [f64],
    b: &mut [f64],
) -> Result<Answer, Refused>
    ensures { with_search (given problem.now) r.now.reml r.now.n_agq adjusted values.old b.old
        ≡ record { answer = result; starts = problem.now.starts.now; values = values.new; effects = b.new } }
{
    let found = search(problem, ROUNDS, r.reml, r.n_agq, NARROWINGS).map_err(
        |refusal| Step::Search.refused(refusal, adjusted),
    )?;
    at_theta(problem, r, adjusted, found, values, b)
}

// From start values: no bounds, the search.
fn started(
    curve: Curve,
    r: &Request<'_>,
    adjusted: bool,
    starts: &[f64],
    values: &mut [f64],
    b: &mut [f64],
) -> Result<Answer, Refused>
    requires { code_of curve ≡ r.now.code }
    ensures { with_starts (request_lists r.now) adjusted starts.now values.old b.old
        ≡ record { answer = result; starts = starts.now; values = values.new; effects = b.new } }
{
    let p = curve.n_params();
    let lower = [f64::NEG_INFINITY; 4];
    let upper = [f64::INFINITY; 4];
    let problem = Problem {
        code: r.code,
        doses: r.doses,
        grams: r.grams,
        groups: r.groups,
        group_count: b.len(),
        places: r.places,
        starts,
        lower: &lower[..p],
        upper: &upper[..p],
        group_lower: &lower[..p],
        group_upper: &upper[..p],
        theta: &[],
    };
    searched(&problem, r, adjusted, values, b)
}

// From start values that are given, which are taken as they are. Writes the curve's values and one effect for each canister.
#[tactic(auto, unfolding(crate::specs::Refit::refit_of))]
pub fn refit_from(
    request: &Request<'_>,
    starts: &[f64],
    values: &mut [f64],
    b: &mut [f64],
) -> Result<Answer, Refused>
    ensures { refit_of (request_lists request.now) true starts.now values.old b.old
        ≡ record { answer = result; starts = starts.now; values = values.new; effects = b.new } }
{
    let Ok(curve) = Curve::try_from(request.code) else {
        #[tactic(auto, using(crate::proofs::Laws::no_curve_refused))]
        return Err(Step::Search.refused(Refusal::Code, false));
    };
    started(curve, request, false, starts, values, b)
}

// The same from the readings' own start values, which are written too.
#[tactic(auto, unfolding(crate::specs::Refit::refit_of, crate::specs::Refit::self_started, self_start::specs::Start::told))]
pub fn refit(
    request: &Request<'_>,
    starts: &mut [f64],
    values: &mut [f64],
    b: &mut [f64],
) -> Result<Answer, Refused>
    ensures { refit_of (request_lists request.now) false starts.old values.old b.old
        ≡ record { answer = result; starts = starts.new; values = values.new; effects = b.new } }
{
    let Ok(curve) = Curve::try_from(request.code) else {
        #[tactic(auto, using(crate::proofs::Laws::no_curve_refused))]
        return Err(Step::Start.refused(Refusal::Code, false));
    };
    self_start(request.code, request.doses, request.grams, starts).map_err(
        |refusal| Step::Start.refused(refusal, false),
    )?;
    let adjusted = adjust(curve, starts);
    started(curve, request, adjusted, starts, values, b)
}
