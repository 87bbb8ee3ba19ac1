// An axis with round steps, and where a value stands in the frame.
ghost use Rattle.std.specs.Prelude.{◌≡◌};
ghost use Rattle.svg_axes.specs.Axes.{ten_to, round_up, floor_of, widened_of, stepped_of, with_step, axis_of, clamp_pixel, along_of, x_pixel, y_pixel};

use crate::ranges::Range;
use math::words::{to_float, to_int};
use text_floats::{Scaled, in_tens, nearest};

// The frame: 600 wide from 70 at the left, 400 high from 50 at the top.
const LEFT: f64 = 70.0;

const RIGHT: f64 = 670.0;

const WIDTH: f64 = 600.0;

const TOP: f64 = 50.0;

const BOTTOM: f64 = 450.0;

const HEIGHT: f64 = 400.0;

// A step is at least a fifth of the range, and has at most fifteen decimals; an end lies fewer steps from 0 than would be lost in rounding.
const PARTS: f64 = 5.0;

const MOST_DECIMALS: u64 = 15;

const MOST_STEPS: f64 = 1e12;

// From first * step to (first + count) * step, labelled with so many decimals.
#[derive(Clone, Copy)]
pub struct Axis {
    pub first: f64,
    pub count: u64,
    pub step: f64,
    pub decimals: u64,
}

// 10^n, infinite where that is too large.
#[tactic(auto, using(math::specs::laws::Loops::iter_zero, math::specs::laws::Loops::iter_next), unfolding(crate::specs::Axes::ten_to))]
fn ten_to(n: u64) -> f64
    ensures { result ≡ ten_to n }
{
    let mut x = 1.0;
    for _i in 0..n {
        x *= 10.0;
    }
    x
}

// 1, 2, 5 or 10, the first that is not below m.
#[tactic(auto, unfolding(crate::specs::Axes::round_up))]
fn round_up(m: f64) -> f64
    ensures { result ≡ round_up m }
{
    if m <= 1.0 {
        1.0
    } else if m <= 2.0 {
        2.0
    } else if m <= 5.0 {
        5.0
    } else {
        10.0
    }
}

// The largest whole number that is not above x, of a size below 2^53; unlike the `floor` of `f64`, no zero is below 0.
#[tactic(auto, unfolding(crate::specs::Axes::floor_of))]
fn floor(x: f64) -> f64
    ensures { result ≡ floor_of x }
{
    let k = to_float(to_int(x));
    if k > x { k - 1.0 } else { k }
}

// Whole steps that hold the range, where a step is not lost in rounding.
#[tactic(auto, unfolding(crate::specs::Axes::stepped_of))]
fn stepped(r: Range, step: f64, decimals: u64) -> Option<Axis>
    ensures { result ≡ stepped_of r step decimals }
{
    let lo = r.lo / step;
    let hi = r.hi / step;
    if math::abs(lo) + math::abs(hi) < MOST_STEPS {
        let first = floor(lo);
        let count = nearest(-floor(-hi) - first);
        if count > 0 {
            return Some(Axis {
                first,
                count,
                step,
                decimals,
            });
        }
    }
    None
}

// The step is m, which is 1, 2, 5 or 10, times the power of ten.
#[tactic(auto, unfolding(crate::specs::Axes::with_step))]
fn with_step(r: Range, m: f64, s: Scaled) -> Option<Axis>
    ensures { result ≡ with_step r m s }
{
    let n = s.power.unsigned_abs();
    if s.power >= 0 {
        stepped(r, m * ten_to(n), 0)
    } else if n <= MOST_DECIMALS {
        stepped(r, m / ten_to(n), n)
    } else {
        None
    }
}

// A range of one point gets some room.
#[tactic(auto, unfolding(crate::specs::Axes::widened_of))]
fn widened(r: Range) -> Range
    ensures { result ≡ widened_of r }
{
    if r.lo < r.hi {
        return r;
    }
    let room = math::max(math::abs(r.lo) * 0.1, 1.0);
    Range {
        lo: r.lo - room,
        hi: r.hi + room,
    }
}

#[tactic(auto, unfolding(crate::specs::Axes::axis_of))]
pub fn axis_of(range: Range) -> Option<Axis>
    ensures { result ≡ axis_of range }
{
    let r = widened(range);
    let raw = (r.hi - r.lo) / PARTS;
    if math::is_finite(raw) {
        let s = in_tens(raw);
        with_step(r, round_up(s.mantissa), s)
    } else {
        None
    }
}

// The place nearest to x between from and to; unlike the `clamp` of `f64`, a NaN is at from.
#[tactic(auto, unfolding(crate::specs::Axes::clamp_pixel))]
fn clamp(x: f64, from: f64, to: f64) -> f64
    ensures { result ≡ clamp_pixel x from to }
{
    if to < x {
        to
    } else if from < x {
        x
    } else {
        from
    }
}

// From 0 at the axis's first tick to 1 at its last.
#[tactic(auto, unfolding(crate::specs::Axes::along_of))]
fn along(a: Axis, x: f64) -> f64
    ensures { result ≡ along_of a x }
{
    (x / a.step - a.first) / std::num::nearest_u64_to_f64(a.count)
}

#[tactic(auto, unfolding(crate::specs::Axes::x_pixel))]
pub fn x_pixel(a: Axis, x: f64) -> f64
    ensures { result ≡ x_pixel a x }
{
    clamp(LEFT + along(a, x) * WIDTH, LEFT, RIGHT)
}

#[tactic(auto, unfolding(crate::specs::Axes::y_pixel))]
pub fn y_pixel(a: Axis, x: f64) -> f64
    ensures { result ≡ y_pixel a x }
{
    clamp(BOTTOM - along(a, x) * HEIGHT, TOP, BOTTOM)
}
