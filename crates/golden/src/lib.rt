// The search over theta (`optimize_theta_golden`).
#![tactic(auto)]

mod asked;

ghost use Rattle.std.specs.Prelude.{◌≡◌, true, Float};
ghost use Rattle.math.specs.Basic.{is_finite};
ghost use Rattle.fit_refusals.specs.Given.{given};
ghost use Rattle.golden.specs.Golden.{factor, left_point, right_point, is_wide, keeps_left, new_point, narrowed, theta_of, converged_of, golden_by};
ghost use Rattle.golden.specs.Demand3.{Demand3};
ghost use Rattle.golden.specs.Search.{told, call_of};

use crate::asked::Asked;
use fit_refusals::Problem;
use refusal::Refusal;

// The ends of the bracket, its inner points and the criterion at each of these.
#[derive(Clone, Copy)]
pub struct Bracket {
    pub a: f64,
    pub b: f64,
    pub c: f64,
    pub d: f64,
    pub fc: f64,
    pub fd: f64,
}

// What a search answers. `converged` is an answer of its own: the other four count in either case.
#[derive(Clone, Copy)]
pub struct Found {
    pub theta: f64,
    pub criterion: f64,
    pub narrowings: u64,
    pub converged: bool,
    pub fits: u64,
}

// Where the search begins and ends, and the width of a bracket that is narrow enough.
const START: f64 = 0.2;

const END: f64 = 20.0;

const TOLERANCE: f64 = 1e-4;

#[tactic(auto, unfolding(crate::specs::Golden::factor))]
fn golden_factor() -> f64
    ensures { result ≡ factor }
{
    (1.0 + math::sqrt::sqrt(5.0)) / 2.0
}

// The inner points of the bracket from a to b.
#[tactic(auto, unfolding(crate::specs::Golden::left_point))]
fn left_point(a: f64, b: f64) -> f64
    ensures { result ≡ left_point a b }
{
    b - (b - a) / golden_factor()
}

#[tactic(auto, unfolding(crate::specs::Golden::right_point))]
fn right_point(a: f64, b: f64) -> f64
    ensures { result ≡ right_point a b }
{
    a + (b - a) / golden_factor()
}

impl Bracket {
    #[tactic(auto, unfolding(crate::specs::Golden::is_wide))]
    fn is_wide(self) -> bool
        ensures { result ≡ is_wide self }
    {
        math::abs(self.b - self.a) > TOLERANCE
    }

    // The left part is kept where its criterion is strictly lower.
    fn keeps_left(self) -> bool
        ensures { result ≡ keeps_left self }
    {
        self.fc < self.fd
    }

    // The inner point that a narrowing adds.
    #[tactic(auto, unfolding(crate::specs::Golden::new_point))]
    fn new_point(self) -> f64
        ensures { result ≡ new_point self }
    {
        if self.keeps_left() {
            left_point(self.a, self.d)
        } else {
            right_point(self.c, self.b)
        }
    }

    // A narrowing: t is the new point, x the criterion there.
    #[tactic(auto, unfolding(crate::specs::Golden::narrowed))]
    fn narrowed(self, t: f64, x: f64) -> Bracket
        ensures { result ≡ narrowed self t x }
    {
        let s = self;
        if s.keeps_left() {
            Bracket {
                a: s.a,
                b: s.d,
                c: t,
                d: s.c,
                fc: x,
                fd: s.fc,
            }
        } else {
            Bracket {
                a: s.c,
                b: s.b,
                c: s.d,
                d: t,
                fc: s.fd,
                fd: x,
            }
        }
    }

    // Half the sum of the ends.
    #[tactic(auto, unfolding(crate::specs::Golden::theta_of))]
    fn middle(self) -> f64
        ensures { result ≡ theta_of self }
    {
        (self.a + self.b) / 2.0
    }

    // Narrow enough, with a finite criterion at theta.
    #[tactic(auto, unfolding(crate::specs::Golden::converged_of))]
    fn has_converged(self, last: f64) -> bool
        ensures { result ≡ converged_of self last }
    {
        math::abs(self.b - self.a) <= TOLERANCE && math::is_finite(last)
    }
}

// The search, whatever the criterion answers: two fits at the first inner points, one after each narrowing,
// one at theta.
#[tactic(auto, using(crate::proofs::Loop::left_finite, crate::proofs::Loop::right_finite))]
fn optimize_theta_golden<F: Fn(f64) -> f64>(criterion: F, allowed: u64) -> Found
    requires { (t : Float) → is_finite t ≡ true → F.pre criterion t }
    ensures demand3 { Demand3 allowed result }
    ensures search { (ask : Float → Float)
        → ((t x : Float) → is_finite t ≡ true → F.post criterion t x → x ≡ ask t)
        → result ≡ golden_by (λ i t. ask t) allowed }
{
    let c = left_point(START, END);
    let d = right_point(START, END);
    let mut s = Bracket {
        a: START,
        b: END,
        c,
        d,
        fc: criterion(c),
        fd: criterion(d),
    };
    let mut narrowings = 0u64;
    let mut fits = 2u64;
    // A `while`: how many narrowings were made is an answer, and the bracket may be narrow before any.
    while s.is_wide() && narrowings < allowed {
        let t = s.new_point();
        s = s.narrowed(t, criterion(t));
        narrowings += 1;
        fits += 1;
    }
    let theta = s.middle();
    let last = criterion(theta);
    Found {
        theta,
        criterion: last,
        narrowings,
        converged: s.has_converged(last),
        fits: fits + 1,
    }
}

// Refused by document 01's numbers for a search; else the golden section search from 0.2 to 20. The
// problem's theta is not read.
pub fn search(
    problem: &Problem<'_>,
    max_rounds: u64,
    reml: bool,
    n_agq: u64,
    max_narrowings: u64,
) -> Result<Found, Refusal>
    ensures { told result ≡ call_of (given problem.now) max_rounds reml n_agq max_narrowings }
{
    let problem = problem.for_search(max_rounds, max_narrowings)?;
    let asked = Asked {
        problem: &problem,
        max_rounds,
        reml,
        n_agq,
    };
    Ok(optimize_theta_golden(|t| asked.criterion(t), max_narrowings))
}
