// Adaptive Gauss-Hermite quadrature: what it adds to the criterion (fit.rs: `agq_correction` for one
// effect, `agq_correction_product` for two). At a node only the group's own readings are evaluated.
#![tactic(auto)]

ghost use Rattle.std.specs.Prelude.{◌≡◌, ◌≤◌, ◌<◌, length};
ghost use Rattle.fit_refusals.specs.Given.{checked};
ghost use Rattle.re_cov.specs.ReCov.{penalty_of};
ghost use Rattle.criterion_groups.specs.Groups.{group_squares};
ghost use Rattle.criterion_agq.specs.Agq.{scaling_of, node_count_of, node_of, effects_at_node, term_of, terms_of, add_group, group_at, groups_of, agq_of};

use arrayvec::ArrayVec;
use criterion_groups::{Estimate, Group, own_readings};
use linalg::pair::{cholesky, inverse};
use math::ln::ln;
use quadrature::orders::resolve_gh_order_product;
use quadrature::rules::gh_rule;
use quadrature::sums::log_sum_exp;
use re_cov::{dot, re_penalty, sigma_inv_from_theta};

// The least curvature of one effect that is scaled by: the Rust's EPSILON, 2^-52.
const EPSILON: f64 = 2.220446049250313e-16;

// The most nodes that a group has: 11 points in each of two dimensions.
const NODES: usize = 121;

// A node in one or two dimensions and the logarithm of its weight.
#[derive(Clone, Copy)]
pub struct Node {
    pub z0: f64,
    pub z1: f64,
    pub log_w: f64,
}

// The rss of a group's readings and the penalty of its effects.
#[derive(Clone, Copy)]
struct Misfit {
    rss: f64,
    pen: f64,
}

// What the nodes are multiplied by: 1 / the root of one effect's curvature, or the lower factor of the
// inverse of two effects'. Here and below k is a count, and no kind: one effect or two.
#[tactic(auto, unfolding(crate::specs::Agq::scaling_of))]
fn scaling(k: usize, curvature: [[f64; 2]; 2]) -> Option<[[f64; 2]; 2]>
    ensures { result ≡ scaling_of k curvature }
{
    if k != 1 {
        return cholesky(2, inverse(2, curvature)?);
    }
    let a = curvature[0][0];
    if a <= EPSILON || !math::is_finite(a) {
        return None;
    }
    Some([[1.0 / math::sqrt::sqrt(a), 0.0], [0.0, 0.0]])
}

fn node_count(k: usize, order: usize) -> usize
    requires { order ≤ 11 }
    ensures same { result ≡ node_count_of k order }
    ensures few { result ≤ 121 }
{
    if k == 1 { order } else { order * order }
}

// The t-th node of the product of k rules: the first dimension is t mod order, the second t / order.
#[tactic(auto, unfolding(crate::specs::Agq::node_of))]
fn node_at(k: usize, order: usize, t: usize) -> Node
    requires { 1 ≤ order }
    ensures { result ≡ node_of k order t }
{
    if k == 1 {
        let p = gh_rule(order, t);
        return Node {
            z0: p.z,
            z1: 0.0,
            log_w: ln(p.w),
        };
    }
    let p = gh_rule(order, t % order);
    let q = gh_rule(order, t / order);
    Node {
        z0: p.z,
        z1: q.z,
        log_w: 0.0 + ln(p.w) + ln(q.w),
    }
}

// The effects at a node: b and the scaling times the node.
#[tactic(auto, unfolding(crate::specs::Agq::effects_at_node))]
fn moved(k: usize, scaling: [[f64; 2]; 2], n: Node, b: &[f64]) -> [f64; 2]
    ensures { result ≡ effects_at_node k scaling n b.now }
{
    let [[a, o], [c, d]] = scaling;
    let x = math::at(b, 0);
    if k == 1 {
        return [x + a * n.z0, 0.0];
    }
    let y = math::at(b, 1);
    [x + dot(a, o, n.z0, n.z1), y + dot(c, d, n.z0, n.z1)]
}

// A node's term.
#[tactic(auto, using(crate::specs::laws::Literals::constants), unfolding(crate::specs::Agq::term_of))]
fn term(sigma2: f64, hat: Misfit, log_w: f64, node: Misfit) -> f64
    ensures { result ≡ term_of sigma2 hat.rss hat.pen log_w node.rss node.pen }
{
    let rss_diff = (node.rss - hat.rss) / sigma2;
    let delta = -0.5 * rss_diff - 0.5 * (node.pen - hat.pen);
    log_w + delta
}

// The rule that is taken, of `order` points in each dimension, at an estimate with its sigma2.
#[derive(Clone, Copy)]
struct Quadrature<'a> {
    at: &'a Estimate<'a>,
    sigma2: f64,
    order: usize,
    ghost least: { 1 ≤ order },
    ghost most: { order ≤ 11 },
}

impl Quadrature<'_> {
    fn misfit(&self, group: &Group<'_>) -> Misfit
        ensures rss { result.rss ≡ group_squares (checked self.now.at.now.problem.now) self.now.at.now.values group.now.b.now group.now.doses.now group.now.grams.now }
        ensures pen { result.pen ≡ penalty_of (length self.now.at.now.problem.now.places.now) self.now.at.now.problem.now.theta.now group.now.b.now }
    {
        let q = self.at.problem;
        Misfit {
            rss: self.at.squares(group),
            pen: re_penalty(q.places.len(), q.theta, group.b),
        }
    }

    // The terms of a group's nodes.
    #[tactic(auto, using(math::specs::laws::Loops::iter_next), unfolding(crate::specs::Agq::terms_of, math::specs::Loops::iter))]
    fn terms(&self, group: &Group<'_>, scaling: [[f64; 2]; 2]) -> ArrayVec<f64, NODES>
        ensures { result.items ≡ terms_of (checked self.now.at.now.problem.now) self.now.at.now.values self.now.sigma2 self.now.order
            group.now.doses.now group.now.grams.now group.now.b.now scaling }
    {
        let k = self.at.problem.places.len();
        let hat = self.misfit(group);
        let mut terms = ArrayVec::new();
        for t in 0..node_count(k, self.order) {
            let n = node_at(k, self.order, t);
            let b = moved(k, scaling, n, group.b);
            let node = self.misfit(&Group {
                doses: group.doses,
                grams: group.grams,
                b: &b,
            });
            terms.push(term(self.sigma2, hat, n.log_w, node));
        }
        terms
    }

    // The sum so far, with a group's; readings that are none add nothing.
    #[tactic(auto, using(crate::specs::laws::Literals::constants), unfolding(crate::specs::Agq::add_group))]
    fn add_group(&self, group: &Group<'_>, total: f64) -> Option<f64>
        ensures { result ≡ add_group (checked self.now.at.now.problem.now) self.now.at.now.values self.now.sigma2 self.now.order
            group.now.doses.now group.now.grams.now group.now.b.now total }
    {
        if group.doses.is_empty() {
            return Some(total);
        }
        let q = self.at.problem;
        let k = q.places.len();
        let sigma2 = self.sigma2;
        let inverse = sigma_inv_from_theta(k, q.theta);
        let curvature = self.at.block(group.b, group.doses, inverse, |x| x / sigma2);
        let terms = self.terms(group, scaling(k, curvature)?);
        let inner = log_sum_exp(terms.as_slice());
        if math::is_finite(inner) {
            Some(total + -2.0 * inner)
        } else {
            None
        }
    }

    // The sum so far, with that of group g.
    #[tactic(auto, using(criterion_groups::specs::laws::Groups::own_as_long), unfolding(crate::specs::Agq::group_at))]
    fn group(&self, g: usize, total: f64) -> Option<f64>
        requires { g < self.now.at.now.problem.now.group_count }
        ensures { result ≡ group_at (checked self.now.at.now.problem.now) self.now.at.now.values self.now.sigma2 self.now.order self.now.at.now.b.now g total }
    {
        let q = self.at.problem;
        let doses = own_readings(q.groups, g, q.doses);
        let grams = own_readings(q.groups, g, q.grams);
        let group = Group {
            doses: doses.as_slice(),
            grams: grams.as_slice(),
            b: self.at.effects(g),
        };
        self.add_group(&group, total)
    }

    // The groups in order, from 0; none where one of them is.
    #[tactic(auto, using(linalg::specs::laws::Loops::loops), unfolding(crate::specs::Agq::groups_of))]
    fn groups(&self) -> Option<f64>
        ensures { result ≡ groups_of (checked self.now.at.now.problem.now) self.now.at.now.values self.now.sigma2 self.now.order self.now.at.now.b.now }
    {
        let mut total = 0.0;
        for g in 0..self.at.problem.group_count {
            total = self.group(g, total)?;
        }
        Some(total)
    }
}

// Where no rule applies, or a group has no scaling or no finite sum, there is none.
#[tactic(auto, using(crate::proofs::Laws::order_few), unfolding(crate::specs::Agq::agq_of))]
pub fn agq_correction(at: &Estimate<'_>, sigma2: f64, n_agq: u64) -> Option<f64>
    ensures { result ≡ agq_of (checked at.now.problem.now) at.now.values at.now.b.now sigma2 n_agq }
{
    let order = resolve_gh_order_product(n_agq, at.problem.places.len())?;
    let rule = Quadrature { at, sigma2, order };
    rule.groups()
}
