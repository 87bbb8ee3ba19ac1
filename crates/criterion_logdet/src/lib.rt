// The log-determinant of the random effects (fit.rs: `random_effect_logdet`).
#![tactic(auto)]

ghost use Rattle.std.specs.Prelude.{◌≡◌, ◌<◌};
ghost use Rattle.math.specs.Basic.{mul};
ghost use Rattle.re_cov.specs.ReCov.{log_det_of};
ghost use Rattle.fit_refusals.specs.Problem.{k};
ghost use Rattle.fit_refusals.specs.Given.{checked};
ghost use Rattle.criterion_groups.specs.Groups.{count_of};
ghost use Rattle.criterion_logdet.specs.LogDet.{logs_of, group_factor, logdet_of};

use criterion_groups::{Estimate, own_readings};
use fit_refusals::NlmmProblem;
use linalg::pair::cholesky;
use math::ln::ln;
use re_cov::{log_det_sigma, sigma_inv_from_theta};
use std::num::nearest_usize_to_f64 as count;

// The sum of the logarithms of a factor's diagonal.
#[tactic(auto, unfolding(crate::specs::LogDet::logs_of))]
fn diagonal_logs(k: usize, factor: [[f64; 2]; 2]) -> f64
    ensures { result ≡ logs_of k factor }
{
    let first = 0.0 + ln(factor[0][0]);
    // k is a count, and no kind: one effect or two.
    if k == 1 {
        first
    } else {
        first + ln(factor[1][1])
    }
}

// The factor of group g's block: the covariance's inverse, then the group's own readings in order.
#[tactic(auto, unfolding(crate::specs::LogDet::group_factor))]
fn group_factor(at: &Estimate<'_>, g: usize) -> Option<[[f64; 2]; 2]>
    requires { g < at.now.problem.now.group_count }
    ensures { result ≡ group_factor (checked at.now.problem.now) at.now.values at.now.b.now g }
{
    let q = at.problem;
    let k = q.places.len();
    let own = own_readings(q.groups, g, q.doses);
    let inverse = sigma_inv_from_theta(k, q.theta);
    let block = at.block(at.effects(g), own.as_slice(), inverse, |x| x);
    cholesky(k, block)
}

// The covariance's log-determinant, once for each group.
pub fn covariance_logdet(q: &NlmmProblem<'_>) -> f64
    ensures { result ≡ mul (count_of q.now.group_count) (log_det_of (k (checked q.now)) q.now.theta.now) }
{
    count(q.group_count) * log_det_sigma(q.places.len(), q.theta)
}

// Every group counts, one without readings too; +infinity where a factor is none.
#[tactic(auto, using(linalg::specs::laws::Loops::loops), unfolding(crate::specs::LogDet::logdet_of))]
pub fn random_effect_logdet(at: &Estimate<'_>) -> f64
    ensures { result ≡ logdet_of (checked at.now.problem.now) at.now.values at.now.b.now }
{
    let q = at.problem;
    let k = q.places.len();
    let mut total = covariance_logdet(q);
    for g in 0..q.group_count {
        let Some(factor) = group_factor(at, g) else {
            return math::infinity();
        };
        total += 2.0 * diagonal_logs(k, factor);
    }
    total
}
