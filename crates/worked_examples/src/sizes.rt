// 512 readings pass, 513 refuse 2; 32 groups pass, 33 refuse 3; equal bounds pass. What passes must answer as the published Rust
// does, bit for bit, and what is refused must leave every bit of the lists that it was lent.
use crate::calls::{Called, Size, all_kept, criterion, fit, search, start};
use crate::say::say;
use criterion::profile::Profile;
use fit::Fitted;
use golden::Found;
use math::words::of_bits;
use refusal::Refusal;
use replay_cases::same::{same_float, same_floats};
use std::io;
use std::io::Write;

// What is at its limit in a call that passes.
#[derive(Clone, Copy)]
enum Limit {
    Readings,
    Groups,
    Bounds,
}

#[derive(Clone, Copy)]
enum Expected {
    Passes(Limit),
    Refuses(Refusal),
}

// A call of a size, in the document's words.
#[derive(Clone, Copy)]
struct Weighing {
    name: &'static str,
    size: Size,
    expected: Expected,
}

// Whether a list begins with the floats of these bits.
fn begins(list: &[f64], bits: &[u64]) -> bool {
    bits.len() <= list.len()
        && list
            .iter()
            .zip(bits)
            .all(|(x, b)| same_float(*x, of_bits(*b)))
}

fn fit_is(limit: Limit, c: &Called<Fitted>) -> bool {
    let Ok(f) = c.answer else {
        return false;
    };
    let fitted = |rss, trials| same_float(f.rss, of_bits(rss))
        && f.rounds == 5
        && f.trials == trials;
    match limit {
        Limit::Readings => {
            fitted(0x4086_3102_3762_e4af, 145)
                && begins(&c.values, &[0x4020_da90_f21a_a018, 0x4059_0000_0000_0000])
                && begins(&c.effects, &[0xbfba_0bb4_2284_7dc4])
        }
        Limit::Groups => {
            fitted(0x4000_0255_4bec_07ba, 5)
                && begins(&c.values, &[0x3ffd_3d59_0423_18eb, 0x4012_bbe9_b8e0_dc4c])
                && begins(&c.effects, &[0x3f82_2cad_e194_74e0, 0x3f8e_5509_11b1_748e])
                && begins(&c.effects[31..], &[0x3f9e_4d0b_c2e9_8cda])
        }
        Limit::Bounds => {
            fitted(0x400a_503a_15b4_ebc0, 4)
                && begins(&c.values, &[0x3ff9_7447_a36a_02a5, 0x3ff0_0000_0000_0000])
                && begins(&c.effects, &[0xbf5e_3687_589b_f866, 0x3f5e_3687_589a_2301])
        }
    }
}

fn criterion_is(limit: Limit, c: &Called<Profile>) -> bool {
    let (criterion, sigma2) = match limit {
        Limit::Readings => (0x4099_25d7_077d_ef0d, 0x3ff6_479e_a229_0d50),
        Limit::Groups => (0xc054_33b0_180e_f410, 0x3fa0_b868_915d_edfd),
        Limit::Bounds => (0xbfe7_1a50_f71f_fbe0, 0x3fab_2995_010a_991e),
    };
    c.answer
        .is_ok_and(|p| begins(&[p.criterion, p.sigma2], &[criterion, sigma2]))
}

fn search_is(limit: Limit, c: &Called<Found>) -> bool {
    let (theta, criterion) = match limit {
        Limit::Readings => (0x3fd5_18c3_edfb_14e8, 0x4099_24d3_64f3_048a),
        Limit::Groups => (0x3fc9_9acb_8c13_b425, 0xc055_eb7d_2fdf_190e),
        Limit::Bounds => (0x3fc9_9acb_8c13_b425, 0xc00b_1e44_9a38_61c4),
    };
    c.answer.is_ok_and(|f| {
        begins(&[f.theta, f.criterion], &[theta, criterion]) && f.narrowings == 26 && f.fits == 29
    })
}

// Whether the call refuses so and leaves its lists as they were.
fn refuses<T>(c: &Called<T>, refusal: Refusal) -> bool {
    matches!(c.answer, Err(r) if r == refusal) && all_kept(&c.values) && all_kept(&c.effects)
}

// `kept`: what a refusal keeps, in the document's words.
fn weigh_calls<
    W: Write,
    T: Copy,
    C: Fn(Size) -> Option<Called<T>>,
    I: Fn(Limit, &Called<T>) -> bool,
>(out: &mut W, name: &str, kept: &str, call: C, is: I) -> io::Result<()>
    requires call { C.IsAlwaysCallable call }
    requires is { I.IsAlwaysCallable is }
{
    let weighings = [
        Weighing {
            name: "512 readings pass",
            size: Size {
                n: 512,
                m: 1,
                top: 100.0,
            },
            expected: Expected::Passes(Limit::Readings),
        },
        Weighing {
            name: "513 refuse 2",
            size: Size {
                n: 513,
                m: 1,
                top: 100.0,
            },
            expected: Expected::Refuses(Refusal::Readings),
        },
        Weighing {
            name: "32 groups pass",
            size: Size {
                n: 64,
                m: 32,
                top: 100.0,
            },
            expected: Expected::Passes(Limit::Groups),
        },
        Weighing {
            name: "33 refuse 3",
            size: Size {
                n: 66,
                m: 33,
                top: 100.0,
            },
            expected: Expected::Refuses(Refusal::Groups),
        },
        Weighing {
            name: "equal bounds pass",
            size: Size {
                n: 64,
                m: 2,
                top: 1.0,
            },
            expected: Expected::Passes(Limit::Bounds),
        },
    ];
    for weighing in weighings {
        let c = call(weighing.size);
        let (holds, kept) = match weighing.expected {
            Expected::Passes(limit) => (c.is_some_and(|c| is(limit, &c)), ""),
            Expected::Refuses(refusal) => (c.is_some_and(|c| refuses(&c, refusal)), kept),
        };
        say(out, format_args!("{name}: {}{kept}", weighing.name), holds)?;
    }
    Ok(())
}

fn weigh_starts<W: Write>(out: &mut W) -> io::Result<()> {
    let passes = start(512).is_some_and(|(answer, values)| {
        answer.is_ok() && same_floats(&values, &[8.984375, 224.5, -143.75])
    });
    let refuses = start(513).is_some_and(|(answer, values)| {
        answer == Err(Refusal::Readings) && all_kept(&values)
    });
    say(out, "start: 512 readings pass", passes)?;
    say(out, "start: 513 refuse 2, list kept", refuses)
}

pub fn weigh_sizes<W: Write>(out: &mut W) -> io::Result<()> {
    weigh_calls(out, "fit", ", lists kept", fit, fit_is)?;
    weigh_calls(out, "criterion", ", lists kept", criterion, criterion_is)?;
    weigh_calls(out, "search", "", search, search_is)?;
    weigh_starts(out)
}
