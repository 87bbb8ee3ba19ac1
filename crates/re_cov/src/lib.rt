// The covariance of one or two random effects from packed theta (re_cov.rs), and one group's penalty.
// k is the number of effects: 1, and any other counts as 2. Theta holds the lower factor by columns,
// one number or three. For one effect the entries that are not used are +0.
// k and theta stay two parameters, as in the Rust: each contract holds of every k beside every theta, so theta's length does not tell k.
#![tactic(auto)]

ghost use Rattle.std.specs.Prelude.{◌≡◌};
ghost use Rattle.re_cov.specs.ReCov.{lower_chol_of, dot_of_two, sigma_of, inverse_from, sigma_inverse, log_det_of, lower_solve_of, penalty_of};

// What an entry of the lower factor's diagonal is at least, what is divided by in the inverse, and in `lower_solve`.
const LEAST_DIAGONAL: f64 = 1e-8;

const LEAST_DETERMINANT: f64 = 1e-16;

const LEAST_DIVISOR: f64 = 1e-12;

// The lower factor.
#[tactic(auto, unfolding(crate::specs::ReCov::lower_chol_of))]
pub fn lower_chol(k: usize, theta: &[f64]) -> [[f64; 2]; 2]
    ensures { result ≡ lower_chol_of k theta.now }
{
    let first = math::at(theta, 0);
    let a = math::max(first, LEAST_DIAGONAL);
    if k == 1 {
        return [[a, 0.0], [0.0, 0.0]];
    }
    let b = math::at(theta, 1);
    let last = math::at(theta, 2);
    [[a, 0.0], [b, math::max(last, LEAST_DIAGONAL)]]
}

// The product of two rows of two, from 0; `group_blocks::dot` leaves the second product out for one effect.
#[tactic(auto, unfolding(crate::specs::ReCov::dot_of_two))]
pub fn dot(a: f64, b: f64, c: f64, d: f64) -> f64
    ensures { result ≡ dot_of_two a b c d }
{
    0.0 + a * c + b * d
}

// The factor times its transpose.
#[tactic(auto, unfolding(crate::specs::ReCov::sigma_of))]
pub fn sigma_from_theta(k: usize, theta: &[f64]) -> [[f64; 2]; 2]
    ensures { result ≡ sigma_of k theta.now }
{
    let [[a, o], [b, c]] = lower_chol(k, theta);
    if k == 1 {
        return [[0.0 + a * a, 0.0], [0.0, 0.0]];
    }
    [
        [dot(a, o, a, o), dot(a, o, b, c)],
        [dot(b, c, a, o), dot(b, c, b, c)],
    ]
}

// The inverse in closed form.
#[tactic(auto, unfolding(crate::specs::ReCov::inverse_from, crate::specs::ReCov::sigma_det))]
fn inverse(k: usize, sigma: [[f64; 2]; 2]) -> [[f64; 2]; 2]
    ensures { result ≡ inverse_from k sigma }
{
    let [[a, b], [c, d]] = sigma;
    if k == 1 {
        let v = math::max(a, LEAST_DETERMINANT);
        return [[1.0 / v, 0.0], [0.0, 0.0]];
    }
    let det = math::max(a * d - b * c, LEAST_DETERMINANT);
    [[d / det, -b / det], [-c / det, a / det]]
}

#[tactic(auto, unfolding(crate::specs::ReCov::sigma_inverse))]
pub fn sigma_inv_from_theta(k: usize, theta: &[f64]) -> [[f64; 2]; 2]
    ensures { result ≡ sigma_inverse k theta.now }
{
    inverse(k, sigma_from_theta(k, theta))
}

// The logarithm of the covariance's determinant.
#[tactic(auto, unfolding(crate::specs::ReCov::log_det_of))]
pub fn log_det_sigma(k: usize, theta: &[f64]) -> f64
    ensures { result ≡ log_det_of k theta.now }
{
    let l = lower_chol(k, theta);
    let first = 0.0 + math::ln::ln(l[0][0]);
    if k == 1 {
        return 2.0 * first;
    }
    2.0 * (first + math::ln::ln(l[1][1]))
}

// The x of L x = rhs, L being the lower factor; for one effect the second place is +0.
#[tactic(auto, unfolding(crate::specs::ReCov::lower_solve_of))]
pub fn lower_solve(k: usize, theta: &[f64], rhs: &[f64]) -> [f64; 2]
    ensures { result ≡ lower_solve_of k theta.now rhs.now }
{
    let l = lower_chol(k, theta);
    let x = math::at(rhs, 0) / math::max(l[0][0], LEAST_DIVISOR);
    if k == 1 {
        return [x, 0.0];
    }
    let y = (math::at(rhs, 1) - l[1][0] * x) / math::max(l[1][1], LEAST_DIVISOR);
    [x, y]
}

// The penalty of one group's effects b: the squares of the x of L x = b.
#[tactic(auto, unfolding(crate::specs::ReCov::penalty_of))]
pub fn re_penalty(k: usize, theta: &[f64], b: &[f64]) -> f64
    ensures { result ≡ penalty_of k theta.now b.now }
{
    let [x, y] = lower_solve(k, theta, b);
    let first = 0.0 + x * x;
    if k == 1 { first } else { first + y * y }
}
