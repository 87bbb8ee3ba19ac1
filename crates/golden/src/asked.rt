// The criterion that a search asks at each theta.
ghost use Rattle.std.specs.Prelude.{◌≡◌, true};
ghost use Rattle.math.specs.Basic.{is_finite};
ghost use Rattle.fit_refusals.specs.Given.{checked};
ghost use Rattle.golden.specs.Search.{criterion_at, AlwaysFits};

use criterion::criterion_checked;
use fit_refusals::NlmmProblem;

// A search's problem, without theta, and what its fits and criteria are given.
#[derive(Clone, Copy)]
pub struct Asked<'a> {
    pub problem: &'a NlmmProblem<'a>,
    pub max_rounds: u64,
    pub reml: bool,
    pub n_agq: u64,
    pub ghost fits: { AlwaysFits (checked problem.now) max_rounds },
}

impl Asked<'_> {
    // At theta t, from the given start; the curve values and the effects are not kept.
    #[tactic(auto, using(curves::specs::laws::Params::params_most, fit_step::specs::laws::Sized::all_fit, crate::proofs::Room::room), unfolding(crate::specs::Search::criterion_at))]
    pub fn criterion(&self, t: f64) -> f64
        requires { is_finite t ≡ true }
        ensures { result ≡ criterion_at (checked self.now.problem.now) self.now.max_rounds self.now.reml self.now.n_agq t }
    {
        let q = self.problem;
        let theta = [t];
        // Field by field: a struct with a ghost field takes no `..base`.
        let problem = NlmmProblem {
            curve: q.curve,
            doses: q.doses,
            grams: q.grams,
            groups: q.groups,
            group_count: q.group_count,
            places: q.places,
            starts: q.starts,
            lower: q.lower,
            upper: q.upper,
            group_lower: q.group_lower,
            group_upper: q.group_upper,
            theta: &theta,
        };
        let p = q.curve.n_params();
        let n = q.group_count * q.places.len();
        // Room of a fixed size, since there is no heap: four curve values, one or two effects of 32 groups.
        let mut values = [0.0; 4];
        let mut effects = [0.0; 64];
        criterion_checked(
            &problem,
            self.max_rounds,
            self.reml,
            self.n_agq,
            &mut values[..p],
            &mut effects[..n],
        )
        .criterion
    }
}
