// A curve's values, and the curve of a reading whose group has effects. Four places hold a curve's
// values; those past its last are not read.
ghost use Rattle.std.specs.Prelude.{◌≡◌};
ghost use Rattle.curves.specs.MeanFn.{Decodes, code_of, n_params_of, scal_index_of, four_of, eval_of, add_at, effective_of, eval_with_re_of};

use crate::Mean;
use crate::ssasymp::ssasymp_eval;
use crate::ssfpl::ssfpl_eval;
use crate::sslogis::sslogis_eval;
use crate::ssmicmen::ssmicmen_eval;
use refusal::Refusal;

// The curves, in the order of their codes. The Rust's enum is `NlmmMeanKind`, with these names.
#[derive(Clone, Copy, Debug, PartialEq, Eq)]
pub enum Curve {
    Sslogis = 1,
    Ssasymp,
    Ssmicmen,
    Ssfpl,
}

impl TryFrom<u64> for Curve {
    type Error = Refusal;

    ghost try_from_gives = { Decodes };

    fn try_from(code: u64) -> Result<Self, Refusal> {
        match code {
            1 => Ok(Curve::Sslogis),
            2 => Ok(Curve::Ssasymp),
            3 => Ok(Curve::Ssmicmen),
            4 => Ok(Curve::Ssfpl),
            _ => Err(Refusal::Code),
        }
    }
}

impl Curve {
    // The code that `try_from` takes for this curve.
    pub fn code(self) -> u64
        ensures { result ≡ code_of self }
    {
        self as u64
    }

    // How many values the curve has.
    #[tactic(auto, unfolding(crate::specs::MeanFn::n_params_of))]
    pub fn n_params(self) -> usize
        ensures { result ≡ n_params_of (code_of self) }
    {
        match self {
            Curve::Sslogis | Curve::Ssasymp => 3,
            Curve::Ssmicmen => 2,
            Curve::Ssfpl => 4,
        }
    }

    // Which value is `scal`, where the Rust's `needs_positive_scal` says that it must stay positive.
    #[tactic(auto, unfolding(crate::specs::MeanFn::scal_index_of))]
    pub fn scal_index(self) -> Option<usize>
        ensures { result ≡ scal_index_of (code_of self) }
    {
        match self {
            Curve::Sslogis => Some(2),
            Curve::Ssfpl => Some(3),
            Curve::Ssasymp | Curve::Ssmicmen => None,
        }
    }

    // Inlined, here and below: where the curve is known no other is asked for, and a mean is not handed over through memory.
    #[inline(always)]
    #[tactic(auto, unfolding(crate::specs::MeanFn::eval_of))]
    pub fn eval(self, x: f64, params: [f64; 4]) -> Mean
        ensures { result ≡ eval_of (code_of self) params x }
    {
        match self {
            Curve::Sslogis => sslogis_eval(params[0], params[1], params[2], x),
            Curve::Ssasymp => ssasymp_eval(params[0], params[1], params[2], x),
            Curve::Ssmicmen => ssmicmen_eval(params[0], params[1], x),
            Curve::Ssfpl => ssfpl_eval(params[0], params[1], params[2], params[3], x),
        }
    }

    // The curve at the values with each effect added at its place.
    #[inline(always)]
    #[tactic(auto, unfolding(crate::specs::MeanFn::eval_with_re_of))]
    pub fn eval_mean_with_re(
        self,
        x: f64,
        params: [f64; 4],
        places: &[usize],
        effects: &[f64],
    ) -> Mean
        ensures { result ≡ eval_with_re_of (code_of self) params places.now effects.now x }
    {
        self.eval(x, effective(params, places, effects))
    }
}

// A curve's values in four places; those past its last are NaNs.
pub fn four(values: &[f64]) -> [f64; 4]
    ensures { result ≡ four_of values.now }
{
    [
        math::at(values, 0),
        math::at(values, 1),
        math::at(values, 2),
        math::at(values, 3),
    ]
}

// An effect added at its place; a place past the fourth value adds nothing. By the place and no index: the values stay out of
// memory, and those that a curve does not read cost nothing.
#[inline(always)]
#[tactic(auto, using(std::proofs::lemmas::List::set_past))]
fn add_at(v: [f64; 4], i: usize, effect: f64) -> [f64; 4]
    ensures { result ≡ add_at i effect v }
{
    let [a, b, c, d] = v;
    match i {
        0 => [a + effect, b, c, d],
        1 => [a, b + effect, c, d],
        2 => [a, b, c + effect, d],
        3 => [a, b, c, d + effect],
        _ => v,
    }
}

// The values with each effect added at its place. The places are as C lends them, the effects a part of what a fit has found: no
// list of pairs.
#[inline(always)]
#[tactic(auto, using(crate::proofs::Laws::effective_none, crate::proofs::Laws::effective_short), unfolding(crate::specs::MeanFn::effective_of))]
pub fn effective(params: [f64; 4], places: &[usize], effects: &[f64]) -> [f64; 4]
    ensures { result ≡ effective_of places.now effects.now params }
{
    let mut v = params;
    for (&i, &effect) in places.iter().zip(effects) {
        let moved = add_at(v, i, effect);
        v = moved;
    }
    v
}
