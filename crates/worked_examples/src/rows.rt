// The marked rows, which specs/laws/Rows.antt proves of the definitions, put to the compiled code, and curve 3's NaN. Floats are
// compared by their bits.
use crate::say::say;
use curves::{Mean, curve};
use math::words::of_bits;
use quadrature::orders::gh_order;
use re_cov::{re_penalty, sigma_inv_from_theta};
use replay_cases::lent::kept;
use replay_cases::same::{same_float, same_floats};
use self_start::self_start;
use std::io;
use std::io::Write;

// The curve's floats at some places: 0 the mean, then the gradients. One that refuses has none. By its code, as document 01
// writes its rows.
fn curve_is(code: u64, values: &[f64], dose: f64, expected: &[(usize, f64)]) -> bool {
    let Ok(Mean { mu, d0, d1, d2, d3 }) = curve(code, values, dose) else {
        return false;
    };
    let floats = [mu, d0, d1, d2, d3];
    expected.iter().all(|&(place, x)| floats.get(place).is_some_and(|f| same_float(*f, x)))
}

fn weigh_curve_3<W: Write>(out: &mut W) -> io::Result<()> {
    // 2^1023 and -2^-1022
    let large = of_bits(0x7fe0_0000_0000_0000);
    let tiny = of_bits(0x8010_0000_0000_0000);
    say(
        out,
        "curve 3 at 8, 1, dose 3: 6, gradients 0.75, -1.5",
        curve_is(3, &[8.0, 1.0], 3.0, &[(0, 6.0), (1, 0.75), (2, -1.5)]),
    )?;
    say(
        out,
        "curve 3 at 8, 2^1023, dose 2^1023: 4, 0.5, -2^-1022",
        curve_is(3, &[8.0, large], large, &[(0, 4.0), (1, 0.5), (2, tiny)]),
    )?;
    say(
        out,
        "curve 3 at 8, -3, dose 3: +infinity",
        curve_is(3, &[8.0, -3.0], 3.0, &[(0, f64::INFINITY)]),
    )?;
    say(
        out,
        "curve 3 at 8, 0, dose 0: NaN",
        curve_is(3, &[8.0, 0.0], 0.0, &[(0, f64::NAN)]),
    )
}

fn weigh_curves_1_and_2<W: Write>(out: &mut W) -> io::Result<()> {
    let first = [200.0, 5.0, 350.0];
    say(
        out,
        "curve 1 at 200, 5, 350, dose 5: 100, first gradient 0.5, third 0",
        curve_is(1, &first, 5.0, &[(0, 100.0), (1, 0.5), (3, 0.0)]),
    )?;
    say(
        out,
        "curve 2 at 90, 20, 0, dose 0: 20",
        curve_is(2, &[90.0, 20.0, 0.0], 0.0, &[(0, 20.0)]),
    )
}

// An order of 0 is none.
fn weigh_orders<W: Write>(out: &mut W) -> io::Result<()> {
    say(out, "order 1: none", gh_order(1) == 0)?;
    say(out, "order 2: 3", gh_order(2) == 3)?;
    say(out, "order 11: 11", gh_order(11) == 11)?;
    say(out, "order 12: 11", gh_order(12) == 11)
}

fn inverse_is(theta: &[f64], expected: &[f64]) -> bool {
    let m = sigma_inv_from_theta(2, theta);
    same_floats(&[m[0][0], m[0][1], m[1][0], m[1][1]], expected)
}

fn weigh_covariance<W: Write>(out: &mut W) -> io::Result<()> {
    let theta = [2.0, 1.0, 1.0];
    say(
        out,
        "theta 0.5, one effect: inverse 4",
        same_float(sigma_inv_from_theta(1, &[0.5])[0][0], 4.0),
    )?;
    say(
        out,
        "theta 2, 1, 1: inverse 0.5, -0.5, -0.5, 1",
        inverse_is(&theta, &[0.5, -0.5, -0.5, 1.0]),
    )?;
    say(
        out,
        "theta 2, 1, 1: effects 2, 3 have penalty 5",
        same_float(re_penalty(2, &theta, &[2.0, 3.0]), 5.0),
    )
}

// Whether the start is not refused, and what it writes is this. By the curve's code, as document 01 writes its rows; the lists
// and the room for the values as `self_start` takes them.
fn start_is(code: u64, doses: &[f64], grams: &[f64], expected: &[f64]) -> bool {
    let mut room = [kept(); 4];
    let Some(values) = room.get_mut(..expected.len()) else {
        return false;
    };
    self_start(code, doses, grams, values).is_ok() && same_floats(values, expected)
}

fn weigh_starts<W: Write>(out: &mut W) -> io::Result<()> {
    say(
        out,
        "start of curve 3 from (1,2), (3,6): 6, 1.5",
        start_is(3, &[1.0, 3.0], &[2.0, 6.0], &[6.0, 1.5]),
    )?;
    say(
        out,
        "start of curve 3 from none: 10, 1",
        start_is(3, &[], &[], &[10.0, 1.0]),
    )?;
    let doses = [0.0, 1.0, 2.0, 3.0];
    let grams = [0.0, 2.0, 4.0, 8.0];
    say(
        out,
        "start of curve 1 from (0,0), (1,2), (2,4), (3,8): 8, 2, -1",
        start_is(1, &doses, &grams, &[8.0, 2.0, -1.0]),
    )
}

pub fn weigh_rows<W: Write>(out: &mut W) -> io::Result<()> {
    weigh_curve_3(out)?;
    weigh_curves_1_and_2(out)?;
    weigh_orders(out)?;
    weigh_covariance(out)?;
    weigh_starts(out)
}
