// Replays stored answers, those of StrictMath (vectors/README.md) and of the published Rust (oracle/README.md). A line of standard input
// is an operation's name, a case and its answer (oracle/FORMAT.md), and what is computed must be the numbers and have the bits of the
// floats; all NaNs count as one value.
//
// The last 14 lines are wrong on purpose, so that a replay which counts differences as agreements prints another text than `stdout`. Each
// of the first 13 is a line from above with another answer, one for each operation in turn:
//
//     exp, ln, sqrt, curve, solve, direction    the last bit of the last float
//     gh_order                                  the next rule
//     start                                     the next refusal
//     inverse                                   zeros where there is none
//     cholesky                                  none where there is one
//     fit                                       the last bit of the last effect
//     criterion                                 the last bit of the last value
//     search                                    one fit more
//
// The 14th lacks its last word, and is malformed.
#![tactic(auto)]

mod answer;
mod curve;
mod direction;
mod matrices;
mod problem;
mod rooms;
mod start;
mod value;

use crate::curve::judge_curve;
use crate::direction::{judge_direction, judge_pair, judge_solve};
use crate::problem::{judge_criterion, judge_fit, judge_problem, judge_search};
use crate::start::judge_start;
use crate::value::judge_value;
use linalg::pair::{cholesky, inverse};
use math::exp::exp;
use math::ln::ln;
use math::sqrt::sqrt;
use quadrature::orders::gh_order;
use replay_cases::replay::replay_and_print;
use replay_cases::words::Words;
use std::io;

const OPERATIONS: [&'static str; 13] = [
    "exp",
    "ln",
    "sqrt",
    "curve",
    "gh_order",
    "start",
    "solve",
    "inverse",
    "cholesky",
    "direction",
    "fit",
    "criterion",
    "search",
];

fn judge(name: &str, words: &mut Words<'_>) -> Option<bool> {
    match name {
        "exp" => judge_value(words, exp),
        "ln" => judge_value(words, ln),
        "sqrt" => judge_value(words, sqrt),
        "curve" => judge_curve(words),
        "gh_order" => judge_value(words, gh_order),
        "start" => judge_start(words),
        "solve" => judge_solve(words),
        "inverse" => judge_pair(words, inverse),
        "cholesky" => judge_pair(words, cholesky),
        "direction" => judge_direction(words),
        "fit" => judge_problem(words, judge_fit),
        "criterion" => judge_problem(words, judge_criterion),
        "search" => judge_problem(words, judge_search),
        _ => None,
    }
}

fn main(rt: HostRuntime) -> io::Result<()> {
    replay_and_print(&rt, rt.stdin(), &OPERATIONS, judge)
}
