// Between points: the dose at which they reach a target of grams.
ghost use Rattle.std.specs.Prelude.{◌≡◌};
ghost use Rattle.self_start.specs.Points.{between_of, approx_x_from_y};
ghost use Rattle.self_start.specs.Sides.{no_sides, put_low, put_high, put_of, approx_sides};

use super::points::Points;

// On the line from p to q.
#[tactic(auto, unfolding(crate::specs::Points::between_of))]
fn between(p: (f64, f64), q: (f64, f64), xout: f64) -> f64
    ensures { result ≡ between_of p q xout }
{
    if math::abs(q.0 - p.0) < 1e-15 {
        return p.1;
    }
    let t = (xout - p.0) / (q.0 - p.0);
    p.1 + t * (q.1 - p.1)
}

// The points on both sides of a target, by rising grams: the last one below it, and the first and the last of the others.
// Nothing more of the sorted points is ever read. A point is its grams and its dose here.
#[derive(Clone, Copy)]
pub struct Sides {
    pub below: Option<(f64, f64)>,
    pub others: Option<((f64, f64), (f64, f64))>,
}

// The last one below the target, with a point that stands before those put so far: of equal grams the later stays the last.
#[tactic(auto, unfolding(crate::specs::Sides::put_low))]
fn put_low(below: Option<(f64, f64)>, point: (f64, f64)) -> (f64, f64)
    ensures { result ≡ put_low below point }
{
    match below {
        None => point,
        Some(last) => if last.0 < point.0 { point } else { last },
    }
}

// The first and the last of the others, with such a point: of equal grams the earlier is the first.
#[tactic(auto, unfolding(crate::specs::Sides::put_high))]
fn put_high(others: Option<((f64, f64), (f64, f64))>, point: (f64, f64)) -> ((f64, f64), (f64, f64))
    ensures { result ≡ put_high others point }
{
    match others {
        None => (point, point),
        Some((first, last)) => {
            if first.0 < point.0 {
                (first, if last.0 < point.0 { point } else { last })
            } else {
                (point, last)
            }
        }
    }
}

#[tactic(auto, unfolding(crate::specs::Sides::put_of))]
fn put(s: Sides, point: (f64, f64), y_target: f64) -> Sides
    ensures { result ≡ put_of y_target point s }
{
    if point.0 < y_target {
        Sides {
            below: Some(put_low(s.below, point)),
            others: s.others,
        }
    } else {
        Sides {
            below: s.below,
            others: Some(put_high(s.others, point)),
        }
    }
}

// Between the sides, flat beyond the points; `other` where there is none.
#[tactic(auto, unfolding(crate::specs::Sides::approx_ends))]
fn approx(s: Sides, xout: f64, other: f64) -> f64
    ensures { result ≡ approx_sides s xout other }
{
    match (s.below, s.others) {
        (None, None) => other,
        (Some(low), None) => low.1,
        (None, Some((first, last))) => if xout <= first.0 { first.1 } else { last.1 },
        (Some(low), Some((first, last))) => {
            if xout >= last.0 {
                last.1
            } else {
                between(low, first, xout)
            }
        }
    }
}

// The dose at which the points reach `y_target` grams; `other` where there is no point. Of the points
// sorted by grams only the sides of the target are found.
#[tactic(auto, using(crate::proofs::Loops::sides_last))]
pub fn approx_x_from_y(points: Points<'_>, y_target: f64, other: f64) -> f64
    ensures { result ≡ approx_x_from_y points.entry.list.now y_target other }
{
    let mut s = Sides {
        below: None,
        others: None,
    };
    for &(dose, gram) in points.list.iter().rev() {
        s = put(s, (gram, dose), y_target);
    }
    approx(s, y_target, other)
}
