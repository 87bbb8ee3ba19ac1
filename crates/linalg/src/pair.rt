// The same for one or two equations, whose answer is a pair of numbers, and the two by two inverse and Cholesky factor.
// k is how many effects there are, 1 or 2, and no kind: of one the other numbers are zeros.
#![tactic(auto, unfolding(crate::specs::laws::Steps::pair_steps))]

ghost use Rattle.std.specs.Prelude.{◌≡◌};
ghost use Rattle.linalg.specs.Pair.{rows_of, two_of, pair_of, inverse_of, root_of, cholesky_of};

use math::sqrt::sqrt;

// The first row's first entry is the pivot.
fn solve_rows(m: [[f64; 2]; 2], r: f64, s: f64) -> Option<(f64, f64)>
    ensures { result ≡ rows_of m r s }
{
    let [[a, b], [c, d]] = m;
    if a == 0.0 {
        return None;
    }
    let f = c / a;
    let e = d - f * b;
    let t = s - f * r;
    if e == 0.0 {
        return None;
    }
    let y = t / e;
    Some(((r - b * y) / a, y))
}

fn solve_two(m: [[f64; 2]; 2], r: f64, s: f64) -> Option<(f64, f64)>
    ensures { result ≡ two_of m r s }
{
    let [top, low] = m;
    if math::abs(top[0]) < math::abs(low[0]) {
        solve_rows([low, top], s, r)
    } else {
        solve_rows(m, r, s)
    }
}

// m (x, y) = (r, s) for two effects; for one, the first entry alone, and y is +0.
pub fn solve_pair(k: usize, m: [[f64; 2]; 2], r: f64, s: f64) -> Option<(f64, f64)>
    ensures { result ≡ pair_of k m r s }
{
    if k != 1 {
        return solve_two(m, r, s);
    }
    let a = m[0][0];
    if a == 0.0 { None } else { Some((r / a, 0.0)) }
}

// The unit columns solved: none only at a pivot that is exactly zero.
pub fn inverse(k: usize, m: [[f64; 2]; 2]) -> Option<[[f64; 2]; 2]>
    ensures { result ≡ inverse_of k m }
{
    let (a, c) = solve_pair(k, m, 1.0, 0.0)?;
    if k == 1 {
        return Some([[a, 0.0], [0.0, 0.0]]);
    }
    let (b, d) = solve_pair(k, m, 0.0, 1.0)?;
    Some([[a, b], [c, d]])
}

// The root of a radicand above zero.
fn root(v: f64) -> Option<f64>
    ensures { result ≡ root_of v }
{
    if 0.0 < v { Some(sqrt(v)) } else { None }
}

// The lower factor, column by column, from the lower triangle; none unless each radicand is above zero.
pub fn cholesky(k: usize, m: [[f64; 2]; 2]) -> Option<[[f64; 2]; 2]>
    ensures { result ≡ cholesky_of k m }
{
    let a = root(m[0][0])?;
    if k == 1 {
        return Some([[a, 0.0], [0.0, 0.0]]);
    }
    let c = m[1][0] / a;
    let d = root(m[1][1] - c * c)?;
    Some([[a, 0.0], [c, d]])
}
