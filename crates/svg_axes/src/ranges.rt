// The range of what is drawn.
ghost use Rattle.std.specs.Prelude.{◌≡◌};
ghost use Rattle.svg_axes.specs.Subject.{subject_lists};
ghost use Rattle.svg_axes.specs.Ranges.{no_range, wider_by, list_range, sample_of, range_with_curve, range_with_curves};

use crate::curve_at;
use crate::subject::Subject;

#[derive(Clone, Copy)]
pub struct Range {
    pub lo: f64,
    pub hi: f64,
}

// A range with one number more; one that is not finite is left out.
#[tactic(auto, unfolding(crate::specs::Ranges::wider_by))]
fn with(r: Range, v: f64) -> Range
    ensures { result ≡ wider_by r v }
{
    if math::is_finite(v) {
        Range {
            lo: math::min(v, r.lo),
            hi: math::max(v, r.hi),
        }
    } else {
        r
    }
}

// The range of no number.
fn no_range() -> Range
    ensures { result ≡ no_range }
{
    Range {
        lo: f64::INFINITY,
        hi: f64::NEG_INFINITY,
    }
}

#[tactic(auto, unfolding(crate::specs::Ranges::list_range))]
pub fn list_range(list: &[f64]) -> Range
    ensures { result ≡ list_range list.now }
{
    list.iter().fold(no_range(), |r, v| with(r, *v))
}

// A curve is drawn in 60 pieces, between 61 doses.
const PIECES: f64 = 60.0;

pub const SAMPLES: u64 = 61;

// The j-th of the doses, from 0.
#[tactic(auto, unfolding(crate::specs::Ranges::sample_of))]
pub fn sample(r: Range, j: u64) -> f64
    ensures { result ≡ sample_of r j }
{
    let t = std::num::nearest_u64_to_f64(j) / PIECES;
    math::min(r.lo + t * (r.hi - r.lo), r.hi)
}

#[tactic(auto, using(math::specs::laws::Loops::iter_zero, math::specs::laws::Loops::iter_next), unfolding(crate::specs::Ranges::range_with_curve))]
fn one_curve(grams: Range, s: &Subject<'_>, g: usize, doses: Range) -> Range
    ensures { result ≡ range_with_curve (subject_lists s.now) doses g grams }
{
    let mut r = grams;
    for j in 0..SAMPLES {
        r = with(r, curve_at(s, g, sample(doses, j)));
    }
    r
}

// The range of the grams and of every canister's curve.
#[tactic(auto, using(math::specs::laws::Loops::iter_zero, math::specs::laws::Loops::iter_next), unfolding(crate::specs::Ranges::range_with_curves))]
pub fn all_curves(grams: Range, s: &Subject<'_>, doses: Range) -> Range
    ensures { result ≡ range_with_curves (subject_lists s.now) doses grams }
{
    let mut r = grams;
    for g in 0..s.effects.len() {
        r = one_curve(r, s, g, doses);
    }
    r
}
