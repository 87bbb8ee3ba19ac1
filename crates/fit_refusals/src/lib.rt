// What a fit, a criterion and a search are given, and the same once it is checked by document 01's numbered faults.
#![tactic(auto)]

ghost use Rattle.std.specs.Prelude.{◌≡◌, length};
ghost use Rattle.curves.specs.MeanFn.{code_of};
ghost use Rattle.fit_refusals.specs.Problem.{problem_of, is_scalar};
ghost use Rattle.fit_refusals.specs.Valid.{Valid};

pub mod checks;
pub mod faults;

use curves::Curve;
pub use fit_faults::MAX_READINGS;

// A call's arguments, unchecked: lists apart from each other, as C lends them. A search is given no theta: it reads none.
#[derive(Clone, Copy)]
pub struct Problem<'a> {
    pub code: u64,
    pub doses: &'a [f64],
    pub grams: &'a [f64],
    pub groups: &'a [usize],
    pub group_count: usize,
    pub places: &'a [usize],
    pub starts: &'a [f64],
    pub lower: &'a [f64],
    pub upper: &'a [f64],
    pub group_lower: &'a [f64],
    pub group_upper: &'a [f64],
    pub theta: &'a [f64],
}

// A problem without the faults 1 to 8, theta's aside: `Problem::for_fit` and `Problem::for_search` make it.
// The lists stand here again, and no `Problem` within: its code would stand beside the curve, and each list be one name further away.
#[derive(Clone, Copy)]
pub struct NlmmProblem<'a> {
    pub curve: Curve,
    pub doses: &'a [f64],
    pub grams: &'a [f64],
    pub groups: &'a [usize],
    pub group_count: usize,
    pub places: &'a [usize],
    pub starts: &'a [f64],
    pub lower: &'a [f64],
    pub upper: &'a [f64],
    pub group_lower: &'a [f64],
    pub group_upper: &'a [f64],
    pub theta: &'a [f64],
    pub ghost valid: { Valid
        (problem_of (code_of curve) doses.now grams.now groups.now group_count places.now
        starts.now lower.now upper.now group_lower.now group_upper.now theta.now) },
}

impl NlmmProblem<'_> {
    // Curve 2 with one effect, whose criterion and first lambda are of their own (the Rust's `scalar_ssasymp`).
    #[tactic(auto, unfolding(crate::specs::Problem::is_scalar))]
    pub fn is_scalar(&self) -> bool
        ensures { result ≡ is_scalar (code_of self.now.curve) (length self.now.places.now) }
    {
        self.places.len() == 1 && self.curve == Curve::Ssasymp
    }
}
