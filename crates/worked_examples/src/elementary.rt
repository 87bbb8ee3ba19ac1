// exp and ln by their bits, as fdlibm gives them. StrictMath's answers; all NaNs count as one.
use crate::say::say;
use math::words::{bits_of, of_bits};
use std::io;
use std::io::Write;

// Weighings of a function in their order: the words, the argument's bits and the value's.
fn weigh<W: Write, F: Fn(f64) -> f64>(
    out: &mut W,
    f: F,
    weighings: &[(&'static str, u64, u64)],
) -> io::Result<()>
    requires { F.IsAlwaysCallable f }
{
    for &(weighing, x, y) in weighings {
        say(out, weighing, bits_of(f(of_bits(x))) == y)?;
    }
    Ok(())
}

pub fn weigh_exp<W: Write>(out: &mut W) -> io::Result<()> {
    weigh(
        out,
        math::exp::exp,
        &[
            ("exp 1", 0x3ff0_0000_0000_0000, 0x4005_bf0a_8b14_576a),
            ("exp -1", 0xbff0_0000_0000_0000, 0x3fd7_8b56_362c_ef38),
            ("exp 0.5", 0x3fe0_0000_0000_0000, 0x3ffa_6129_8e1e_069c),
            ("exp 10", 0x4024_0000_0000_0000, 0x40d5_829d_cf95_0560),
            (
                "exp at the overflow threshold",
                0x4086_2e42_fefa_39ef,
                0x7fef_ffff_ffff_ff2a,
            ),
            (
                "exp above it is +infinity",
                0x4086_2e42_fefa_39f0,
                0x7ff0_0000_0000_0000,
            ),
            (
                "exp with a subnormal result",
                0xc086_2e42_fefa_39ef,
                0x0004_0000_0000_001b,
            ),
            (
                "exp at the underflow threshold",
                0xc087_4910_d52d_3051,
                0x0000_0000_0000_0001,
            ),
            (
                "exp below it is 0",
                0xc087_4910_d52d_3052,
                0x0000_0000_0000_0000,
            ),
            ("exp of a NaN", 0x7ff8_0000_0000_0000, 0x7ff8_0000_0000_0000),
        ],
    )
}

pub fn weigh_ln<W: Write>(out: &mut W) -> io::Result<()> {
    weigh(
        out,
        math::ln::ln,
        &[
            ("ln 2", 0x4000_0000_0000_0000, 0x3fe6_2e42_fefa_39ef),
            ("ln 3", 0x4008_0000_0000_0000, 0x3ff1_93ea_7aad_030a),
            ("ln 10", 0x4024_0000_0000_0000, 0x4002_6bb1_bbb5_5516),
            ("ln 1 is +0", 0x3ff0_0000_0000_0000, 0x0000_0000_0000_0000),
            (
                "ln just below 1",
                0x3fef_ffff_ffff_ffff,
                0xbca0_0000_0000_0000,
            ),
            (
                "ln just above 1",
                0x3ff0_0000_0000_0001,
                0x3caf_ffff_ffff_ffff,
            ),
            (
                "ln of the least subnormal",
                0x0000_0000_0000_0001,
                0xc087_4385_446d_71c3,
            ),
            (
                "ln of a subnormal",
                0x0008_0000_0000_0000,
                0xc086_28b7_6e3a_7b61,
            ),
            (
                "ln of the largest float",
                0x7fef_ffff_ffff_ffff,
                0x4086_2e42_fefa_39ef,
            ),
            (
                "ln 0 is -infinity",
                0x0000_0000_0000_0000,
                0xfff0_0000_0000_0000,
            ),
            ("ln -1 is NaN", 0xbff0_0000_0000_0000, 0x7ff8_0000_0000_0000),
        ],
    )
}
