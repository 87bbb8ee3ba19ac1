// The calls whose sizes are weighed, of curve 3 from 8, 1, with one effect at the first value and 5 rounds at most. The first value
// has the bounds 1 and 20, the groups none.
use crate::readings::{in_turn, rising};
use criterion::profile::Profile;
use fit::Fitted;
use fit_refusals::Problem;
use golden::Found;
use refusal::Refusal;
use replay_cases::lent::{begins_with, kept};
use self_start::self_start;

const ROUNDS: u64 = 5;

const POINTS: u64 = 3;

const NARROWINGS: u64 = 40;

// Of a call: n of the readings in m groups, and the second value's bounds, 1 and `top`.
#[derive(Clone, Copy)]
pub struct Size {
    pub n: usize,
    pub m: usize,
    pub top: f64,
}

// What a call answers, and the lists that it is lent as it leaves them, of fixed size, as a caller in C has them; the effects
// are the first m.
#[derive(Clone, Copy)]
pub struct Called<T> {
    pub answer: Result<T, Refusal>,
    pub values: [f64; 2],
    pub effects: [f64; 33],
}

// Whether a list holds what lists hold before a call.
pub fn all_kept(list: &[f64]) -> bool {
    begins_with(&[kept(); 64], list)
}

// More than 520 readings or 33 groups have no room.
fn call_at<T, C: FnOnce(&Problem<'_>, &mut [f64], &mut [f64]) -> Result<T, Refusal>>(
    size: Size,
    call: C,
) -> Option<Called<T>>
    requires { C.IsAlwaysCallable call }
{
    let doses = rising(1.0);
    let grams = rising(0.015625);
    let groups = in_turn(size.m);
    let mut values = [kept(); 2];
    let mut effects = [kept(); 33];
    let problem = Problem {
        code: 3,
        doses: doses.get(..size.n)?,
        grams: grams.get(..size.n)?,
        groups: groups.get(..size.n)?,
        group_count: size.m,
        places: &[0],
        starts: &[8.0, 1.0],
        lower: &[1.0, 1.0],
        upper: &[20.0, size.top],
        group_lower: &[f64::NEG_INFINITY; 2],
        group_upper: &[f64::INFINITY; 2],
        theta: &[0.5],
    };
    let answer = call(&problem, &mut values, effects.get_mut(..size.m)?);
    Some(Called {
        answer,
        values,
        effects,
    })
}

pub fn fit(size: Size) -> Option<Called<Fitted>> {
    call_at(size, |problem, values, effects| {
        fit::fit(problem, ROUNDS, values, effects)
    })
}

// With REML.
pub fn criterion(size: Size) -> Option<Called<Profile>> {
    call_at(size, |problem, values, effects| {
        criterion::criterion(problem, ROUNDS, true, POINTS, values, effects)
    })
}

// With REML. A search is lent no lists.
pub fn search(size: Size) -> Option<Called<Found>> {
    call_at(size, |problem, _values, _effects| {
        golden::search(problem, ROUNDS, true, POINTS, NARROWINGS)
    })
}

// The start of curve 1 from n readings, and its list.
pub fn start(n: usize) -> Option<(Result<(), Refusal>, [f64; 3])> {
    let doses = rising(1.0);
    let grams = rising(0.015625);
    let mut values = [kept(); 3];
    let answer = self_start(1, doses.get(..n)?, grams.get(..n)?, &mut values);
    Some((answer, values))
}
