// Which rule is taken for the number of points asked for.
ghost use Rattle.std.specs.Prelude.{◌≡◌, ◌^◌, ◌&&◌, leb, find, reverse};
ghost use Rattle.quadrature.specs.Orders.{gh_order_of, order_or_zero, max_points, product_of};

// The numbers of points that have a rule.
const SUPPORTED: [usize; 5] = [3, 5, 7, 9, 11];

fn first_not_below(n: u64) -> Option<usize>
    ensures { result ≡ find (λ s. leb n s) SUPPORTED }
{
    SUPPORTED.iter().copied().find(|&s| n <= s as u64)
}

// The first of 3, 5, 7, 9 and 11 that is not below n_agq; 11 above 11.
#[tactic(auto, unfolding(crate::specs::Orders::gh_order_of))]
pub fn resolve_gh_order(n_agq: u64) -> Option<usize>
    ensures { result ≡ gh_order_of n_agq }
{
    if n_agq < 2 {
        return None;
    }
    Some(first_not_below(n_agq).unwrap_or(11))
}

// For the C boundary, which has no enum: 0 where no rule applies.
pub fn gh_order(n_agq: u64) -> u64
    ensures { result ≡ order_or_zero n_agq }
{
    resolve_gh_order(n_agq).map_or(0, |n| n as u64)
}

const MAX_POINTS: usize = 400;

// Whether k dimensions of ord points each have no more than MAX_POINTS points. It stops at the first power above.
#[tactic(auto, using(crate::proofs::OrderLaws::power_above))]
fn power_fits(ord: usize, k: usize) -> bool
    ensures { result ≡ leb (ord ^ k) max_points }
{
    let mut p = 1usize;
    for _ in 0..k {
        p = p.saturating_mul(ord);
        if p > MAX_POINTS {
            return false;
        }
    }
    true
}

// The largest order up to base whose points in k dimensions are no more than MAX_POINTS.
fn last_that_fits(base: usize, k: usize) -> Option<usize>
    ensures { result ≡ find (λ o. leb o base && leb (o ^ k) max_points) (reverse SUPPORTED) }
{
    SUPPORTED
        .iter()
        .rev()
        .copied()
        .find(|&ord| ord <= base && power_fits(ord, k))
}

// The order in each of k dimensions, lowered until their product has no more than MAX_POINTS points.
#[tactic(auto, using(crate::proofs::OrderLaws::capped_found), unfolding(crate::specs::Orders::capped_order))]
pub fn resolve_gh_order_product(n_agq: u64, k: usize) -> Option<usize>
    ensures { result ≡ product_of n_agq k }
{
    let base = resolve_gh_order(n_agq)?;
    if k == 1 {
        return Some(base);
    }
    last_that_fits(base, k)
}
