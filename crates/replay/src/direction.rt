// The linear algebra of a fit, its matrices row after row:
//
//     solve N LIST(a) LIST(b) = ANSWER
//     inverse LIST(a) = ANSWER
//     cholesky LIST(a) = ANSWER
//     direction P K GROUPS LIST(fixed) LIST(cross) LIST(random) LIST(fixed_rhs) LIST(random_rhs) DAMPING = ANSWER
//
// ANSWER is `1 LIST`, or `0` where there is none.
use crate::matrices::read_matrices;
use block_solve::normal::BlockNormal;
use linalg::elimination::{System, solve};
use replay_cases::same::same_floats;
use replay_cases::words::Words;

// The places of the longest direction: four curve values and two effects for each of 32 groups.
const LONGEST: usize = 68;

// Whether a line's answer says that `is`, with n floats. Places without a float hold +0.
fn agrees<const N: usize>(words: &mut Words<'_>, n: usize, is: Option<[f64; N]>) -> Option<bool> {
    let mut stored = [0.0; N];
    words.named(b"=")?;
    match words.value::<u64>()? {
        0 => Some(is.is_none()),
        1 => {
            let len = words.list_into(&mut stored)?;
            Some(len == n && is.is_some_and(|x| same_floats(&x, &stored)))
        }
        _ => None,
    }
}

pub fn judge_solve(words: &mut Words<'_>) -> Option<bool> {
    let n = words.value()?;
    let mut a = [0.0; 16];
    let mut b = [0.0; 4];
    read_matrices::<16, 4>(words, 1, n, n, &mut a)?;
    read_matrices::<4, 4>(words, 1, 1, n, &mut b)?;
    agrees(words, n, solve(System { a, b }, n))
}

// What `of` makes of a matrix of two rows and columns.
pub fn judge_pair<F: Fn(usize, [[f64; 2]; 2]) -> Option<[[f64; 2]; 2]>>(
    words: &mut Words<'_>,
    of: F,
) -> Option<bool>
    requires { F.IsAlwaysCallable of }
{
    let mut entries = [0.0; 4];
    read_matrices::<4, 2>(words, 1, 2, 2, &mut entries)?;
    let [a, b, c, d] = entries;
    let is = of(2, [[a, b], [c, d]]).map(|[[a, b], [c, d]]| [a, b, c, d]);
    agrees(words, 4, is)
}

// For p curve values, k effects and so many groups.
#[inline(never)]
pub fn judge_direction(words: &mut Words<'_>) -> Option<bool> {
    let p = words.value()?;
    let k = words.value()?;
    let group_count = words.value()?;
    if p > 4 || k > 2 || group_count > 32 {
        return None;
    }
    let mut normal = BlockNormal::new();
    read_matrices::<16, 4>(words, 1, p, p, &mut normal.fixed)?;
    read_matrices::<8, 2>(words, group_count, p, k, &mut normal.cross)?;
    read_matrices::<4, 2>(words, group_count, k, k, &mut normal.random)?;
    read_matrices::<4, 4>(words, 1, 1, p, &mut normal.fixed_rhs)?;
    read_matrices::<2, 2>(words, group_count, 1, k, &mut normal.random_rhs)?;
    let damping = words.value()?;
    let n = group_count.checked_mul(k)?.checked_add(p)?;
    let mut direction = [0.0; LONGEST];
    let is_found = normal.solve(p, k, group_count, damping, direction.get_mut(..n)?);
    agrees(words, n, is_found.then_some(direction))
}
