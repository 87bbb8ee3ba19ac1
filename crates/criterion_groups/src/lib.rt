// What the determinant and the quadrature both work out group by group: a group's own readings (fit.rs:
// `group_obs`), their gradients and their sums at effects b.
#![tactic(auto)]

ghost use Rattle.std.specs.Prelude.{◌≡◌, ◌≤◌, ◌<◌, ◌*◌, Float, length};
ghost use Rattle.math.specs.Parts.{part};
ghost use Rattle.fit_refusals.specs.Given.{checked};
ghost use Rattle.criterion_groups.specs.Groups.{own_of, group_squares, block_by};

use arrayvec::ArrayVec;
use curves::mean_fn::effective;
use fit_penalized::normal::random_gradients;
use fit_refusals::{MAX_READINGS, NlmmProblem};

// What a list has at the readings of group g, in their order.
#[tactic(auto, using(crate::proofs::Laws::own_zip))]
pub fn own_readings(groups: &[usize], g: usize, list: &[f64]) -> ArrayVec<f64, MAX_READINGS>
    requires many { length groups.now ≤ 512 }
    requires each { length groups.now ≤ length list.now }
    ensures { result.items ≡ own_of groups.now g list.now }
{
    let mut own = ArrayVec::new();
    for (&h, &x) in groups.iter().zip(list) {
        if h == g {
            own.push(x);
        }
    }
    own
}

// A problem's curve values and its effects b, group after group, as a fit leaves them.
#[derive(Clone, Copy)]
pub struct Estimate<'a> {
    pub problem: &'a NlmmProblem<'a>,
    pub values: [f64; 4],
    pub b: &'a [f64],
    pub ghost places: { problem.now.group_count * length problem.now.places.now ≤ length b.now },
}

// A group's own readings, and its effects. Two lists, as the call lends them: the determinant gathers doses alone, and
// pairs would bring it grams that it doesn't read.
#[derive(Clone, Copy)]
pub struct Group<'a> {
    pub doses: &'a [f64],
    pub grams: &'a [f64],
    pub b: &'a [f64],
    pub ghost each: { length grams.now ≡ length doses.now },
}

impl Estimate<'_> {
    // The effects of group g.
    pub fn effects(&self, g: usize) -> &[f64]
        requires { g < self.now.problem.now.group_count }
        ensures { result.now ≡ part (g * length self.now.problem.now.places.now) (length self.now.problem.now.places.now) self.now.b.now }
    {
        let k = self.problem.places.len();
        &self.b[g * k..g * k + k]
    }

    // The rss of a group's readings at its effects.
    #[tactic(auto, using(crate::proofs::Laws::squares_zip), unfolding(curves::specs::MeanFn::eval_with_re_of))]
    pub fn squares(&self, group: &Group<'_>) -> f64
        ensures { result ≡ group_squares (checked self.now.problem.now) self.now.values group.now.b.now group.now.doses.now group.now.grams.now }
    {
        let q = self.problem;
        let values = effective(self.values, q.places, group.b);
        let mut sum = 0.0;
        for (&dose, &gram) in group.doses.iter().zip(group.grams) {
            let r = gram - q.curve.eval(dose, values).mu;
            sum += r * r;
        }
        sum
    }

    // The block m with the products of the gradients at each dose added, each as `each` leaves it.
    #[tactic(auto, using(math::specs::laws::Loops::turns), unfolding(crate::specs::Groups::block_by, crate::specs::Groups::add_by, crate::specs::Groups::gradients_at, curves::specs::MeanFn::eval_with_re_of))]
    pub fn block<F: Fn(f64) -> f64>(
        &self,
        b: &[f64],
        doses: &[f64],
        m: [[f64; 2]; 2],
        each: F,
    ) -> [[f64; 2]; 2]
        requires { F.IsAlwaysCallable each }
        ensures { (f : Float → Float) → ((x y : Float) → F.post each x y → y ≡ f x) → result ≡ block_by f (checked self.now.problem.now) self.now.values b.now doses.now m }
    {
        let q = self.problem;
        let values = effective(self.values, q.places, b);
        let mut sum = m;
        for x in doses {
            let [u, v] = random_gradients(q, q.curve.eval(*x, values));
            sum = [
                [sum[0][0] + each(u * u), sum[0][1] + each(u * v)],
                [sum[1][0] + each(v * u), sum[1][1] + each(v * v)],
            ];
        }
        sum
    }
}
