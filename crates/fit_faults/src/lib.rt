// Tests for document 01's numbered faults of a fit, a criterion or a search, those of one list or of a few numbers; the
// first fault, a code that no curve has, is told by `Curve::try_from`. The record of a call's arguments stands above, in
// `fit_refusals`, with the tests that take many lists.
#![tactic(auto)]

ghost use Rattle.std.specs.Prelude.{◌≡◌};
ghost use Rattle.math.specs.Lists.{every};
ghost use Rattle.fit_faults.specs.Lists.{in_order};
ghost use Rattle.fit_faults.specs.Tests.{is_lower, is_upper, all_below, bad_readings, bad_groups, bad_effects, bad_theta, too_many};

// The most readings that there are.
pub const MAX_READINGS: usize = 512;

const MAX_GROUPS: usize = 32;

// Of rounds, and of narrowings.
const MAX_ALLOWED: u64 = 1000;

pub fn all_below(list: &[usize], bound: usize) -> bool
    ensures { result ≡ all_below bound list.now }
{
    list.iter().all(|&i| i < bound)
}

// A number below +infinity.
#[tactic(auto, using(math::specs::laws::Literals::positive_infinity))]
fn is_lower(x: f64) -> bool
    ensures { result ≡ is_lower x }
{
    x < f64::INFINITY
}

// A number above -infinity.
#[tactic(auto, using(math::specs::laws::Literals::negative_infinity))]
fn is_upper(x: f64) -> bool
    ensures { result ≡ is_upper x }
{
    x > f64::NEG_INFINITY
}

// This and the next are the list's own method, each with the test of one side: there is no more to share.
pub fn all_lower(list: &[f64]) -> bool
    ensures { result ≡ every is_lower list.now }
{
    list.iter().all(|&x| is_lower(x))
}

pub fn all_upper(list: &[f64]) -> bool
    ensures { result ≡ every is_upper list.now }
{
    list.iter().all(|&x| is_upper(x))
}

// No lower bound is above its upper.
#[tactic(auto, unfolding(crate::specs::Lists::in_order))]
pub fn in_order(lower: &[f64], upper: &[f64]) -> bool
    ensures { result ≡ in_order lower.now upper.now }
{
    lower.iter().zip(upper).all(|(&lo, &up)| !(up < lo))
}

#[tactic(auto, unfolding(crate::specs::Tests::bad_readings))]
pub fn bad_readings(doses: usize, grams: usize, groups: usize) -> bool
    ensures { result ≡ bad_readings doses grams groups }
{
    doses == 0 || doses > MAX_READINGS || grams != doses || groups != doses
}

#[tactic(auto, unfolding(crate::specs::Tests::bad_groups))]
pub fn bad_groups(group_count: usize) -> bool
    ensures { result ≡ bad_groups group_count }
{
    group_count == 0 || group_count > MAX_GROUPS
}

#[tactic(auto, unfolding(crate::specs::Tests::bad_effects))]
pub fn bad_effects(p: usize, places: &[usize]) -> bool
    ensures { result ≡ bad_effects p places.now }
{
    match places {
        [_] => !all_below(places, p),
        [a, b] => a == b || !all_below(places, p),
        _ => true,
    }
}

#[tactic(auto, unfolding(crate::specs::Tests::bad_theta))]
pub fn bad_theta(k: usize, theta: usize) -> bool
    ensures { result ≡ bad_theta k theta }
{
    theta != if k == 2 { 3 } else { 1 }
}

#[tactic(auto, unfolding(crate::specs::Tests::too_many))]
pub fn too_many(allowed: u64) -> bool
    ensures { result ≡ too_many allowed }
{
    allowed > MAX_ALLOWED
}
