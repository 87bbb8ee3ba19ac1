// A float in decimal digits. With a given number of decimals the digits are those of the whole number nearest to the
// float product |x| * 10^decimals, half way up: the product is rounded once, so the last digit can be off
// where x lies within that rounding of a half.
#![tactic(auto)]

ghost use Rattle.std.specs.Prelude.{◌≡◌, ◌≤◌, ◌≤ℤ◌, pos};
ghost use Rattle.std.specs.List.{position};
ghost use Rattle.std.specs.Float.Ieee.{le};
ghost use Rattle.math.specs.Basic.{mul, abs_of};
ghost use Rattle.text_buffer.specs.Text.{wrote};
ghost use Rattle.text_floats.specs.Floats.{nearest_whole, shortened, decimals_of, power_of_ten, seven_significant};
ghost use Rattle.text_floats.specs.Floats.{divided, multiplied, in_tens, seven_digits};
ghost use Rattle.text_floats.specs.Floats.{fraction_text, unsigned_text, sign_text, signed_text, two_digits, power_text, powered_text, fixed_text, figure_text, scientific_text};

use text_buffer::Text;

// |x| * 10^d.
#[tactic(auto, unfolding(crate::specs::Floats::power_of_ten))]
fn shifted(x: f64, d: u64) -> f64
    requires { d ≤ 15 }
    ensures { result ≡ mul (abs_of x) (power_of_ten d) }
{
    math::abs(x) * std::num::nearest_u64_to_f64(10u64.pow(d as u32))
}

// The whole number nearest to m, half way up; 0 where m is below 0 or not below 2^64.
#[tactic(auto, using(crate::proofs::NearestLaws::is_between, crate::proofs::NearestLaws::is_low, crate::proofs::NearestLaws::is_high))]
pub fn nearest(m: f64) -> u64
    ensures { result ≡ nearest_whole m }
{
    if m > 0.0 && m < 18446744073709551616.0 {
        std::num::saturating_f64_to_u64(m.round())
    } else {
        0
    }
}

// n / 10^d, with d decimals.
#[derive(Clone, Copy)]
struct Decimal {
    n: u64,
    d: u64,
    ghost few: { d ≤ 15 },
}

// The point and the decimals, where there are any.
#[tactic(auto, using(crate::proofs::FloatLaws::fractions))]
fn fraction(out: &mut Text<'_>, v: Decimal)
    ensures { out.new ≡ wrote out.old (fraction_text v.n v.d) }
{
    if v.d == 0 {
        return;
    }
    out.byte(b'.');
    for k in (0..v.d as u32).rev() {
        out.byte(b'0' + (v.n / 10u64.pow(k) % 10) as u8);
    }
}

#[tactic(auto, using(text_buffer::specs::laws::Text::writing, crate::proofs::FloatLaws::ten_pos), unfolding(crate::specs::Floats::unsigned_text))]
fn unsigned(out: &mut Text<'_>, v: Decimal)
    ensures { out.new ≡ wrote out.old (unsigned_text v.n v.d) }
{
    out.whole(v.n / 10u64.pow(v.d as u32));
    fraction(out, v);
}

// `-` before the digits of a number below 0 that does not round to 0.
#[tactic(auto, using(text_buffer::specs::laws::Text::writing), unfolding(crate::specs::Floats::sign_text))]
fn sign(out: &mut Text<'_>, x: f64, n: u64)
    ensures { out.new ≡ wrote out.old (sign_text x n) }
{
    if x < 0.0 && n > 0 {
        out.byte(b'-');
    }
}

#[tactic(auto, using(text_buffer::specs::laws::Text::writing), unfolding(crate::specs::Floats::signed_text))]
fn signed(out: &mut Text<'_>, x: f64, v: Decimal)
    ensures { out.new ≡ wrote out.old (signed_text x v.n v.d) }
{
    sign(out, x, v.n);
    unsigned(out, v);
}

// x with so many decimals; in scientific notation where the decimals or the digits would be more than 15, and nan, inf and -inf.
#[tactic(auto, unfolding(crate::specs::Floats::fixed_text))]
pub fn fixed(out: &mut Text<'_>, x: f64, decimals: u64)
    ensures { out.new ≡ wrote out.old (fixed_text x decimals) }
{
    if decimals <= 15 {
        let m = shifted(x, decimals);
        if m < 1e15 {
            let v = Decimal {
                n: nearest(m),
                d: decimals,
            };
            return signed(out, x, v);
        }
    }
    scientific(out, x);
}

const POWERS: [f64; 11] = [1e6, 1e5, 1e4, 1e3, 1e2, 1e1, 1.0, 1e-1, 1e-2, 1e-3, 1e-4];

// The first of some powers that x reaches.
fn reached(x: f64, powers: &[f64]) -> Option<usize>
    ensures { result ≡ position (λ power. le power x) powers.now }
{
    powers.iter().position(|power| x >= *power)
}

// How many decimals give x, of at least 1e-5, seven significant digits.
#[tactic(auto, unfolding(crate::specs::Floats::decimals_of, crate::specs::Floats::powers))]
pub fn decimals(x: f64) -> u64
    ensures value { result ≡ decimals_of x }
    ensures bound { result ≤ 11 }
{
    reached(x, &POWERS).unwrap_or(11) as u64
}

// Without the zeros at the end of its decimals.
#[tactic(auto, unfolding(crate::specs::Floats::shortened))]
fn shortened(v: Decimal) -> Decimal
    ensures { (result.n, result.d) ≡ shortened v.n v.d }
{
    let mut n = v.n;
    let mut d = v.d;
    // Both fall together while the last digit is 0, which no iterator says.
    while d > 0 && n % 10 == 0 {
        n /= 10;
        d -= 1;
    }
    Decimal { n, d }
}

// |x| to seven significant digits.
#[tactic(auto, unfolding(crate::specs::Floats::seven_significant))]
fn seven_significant(x: f64) -> Decimal
    ensures { (result.n, result.d) ≡ seven_significant x }
{
    let d = decimals(math::abs(x));
    let n = nearest(shifted(x, d));
    shortened(Decimal { n, d })
}

// x to seven significant digits, as R prints it: without zeros at the end, in scientific notation where x is very small or large.
#[tactic(auto, unfolding(crate::specs::Floats::figure_text))]
pub fn figure(out: &mut Text<'_>, x: f64)
    ensures { out.new ≡ wrote out.old (figure_text x) }
{
    let size = math::abs(x);
    if size >= 1e-5 && size < 1e15 {
        signed(out, x, seven_significant(x));
    } else {
        scientific(out, x);
    }
}

// A size of about mantissa * 10^power, the mantissa at least 1 and below 10: by divisions and products by ten, each rounded.
// That the power is at most 400 stands in four contracts: with a ghost field for it, each definition that builds a Scaled would have to prove it.
#[derive(Clone, Copy)]
pub struct Scaled {
    pub mantissa: f64,
    pub power: i64,
}

// Down and up by two loops: one over closures for the test and the step would have to say of each what it computes.
#[tactic(auto, using(math::specs::laws::Loops::until_stop, math::specs::laws::Loops::until_go, math::specs::laws::Loops::until_done), unfolding(crate::specs::Floats::divided))]
fn scaled_down(x: f64) -> Scaled
    ensures value { result ≡ divided 400 0 x }
    ensures bound { result.power ≤ℤ pos 400 }
{
    let mut m = x;
    for e in 0u64..400 {
        if m < 10.0 {
            return Scaled {
                mantissa: m,
                power: e as i64,
            };
        }
        m /= 10.0;
    }
    Scaled {
        mantissa: m,
        power: 400,
    }
}

#[tactic(auto, using(math::specs::laws::Loops::until_stop, math::specs::laws::Loops::until_go, math::specs::laws::Loops::until_done), unfolding(crate::specs::Floats::multiplied))]
fn scaled_up(x: f64) -> Scaled
    ensures value { result ≡ multiplied 400 0 x }
    ensures bound { result.power ≤ℤ pos 400 }
{
    let mut m = x;
    for e in 0u64..400 {
        if m >= 1.0 {
            return Scaled {
                mantissa: m,
                power: -(e as i64),
            };
        }
        m *= 10.0;
    }
    Scaled {
        mantissa: m,
        power: -400,
    }
}

#[tactic(auto, unfolding(crate::specs::Floats::in_tens))]
pub fn in_tens(x: f64) -> Scaled
    ensures value { result ≡ in_tens x }
    ensures bound { result.power ≤ℤ pos 400 }
{
    if x < 1.0 {
        scaled_up(x)
    } else {
        scaled_down(x)
    }
}

// n / 10^6 with a power of ten.
#[derive(Clone, Copy)]
struct Digits {
    n: u64,
    power: i64,
}

// A mantissa to seven digits; one that rounds to 10 is 1 with the next power.
#[tactic(auto, unfolding(crate::specs::Floats::seven_digits))]
fn seven_digits(s: Scaled) -> Digits
    requires { s.power ≤ℤ pos 400 }
    ensures { result ≡ seven_digits s }
{
    let n = nearest(s.mantissa * 1e6);
    if n < 10000000 {
        return Digits { n, power: s.power };
    }
    Digits {
        n: 1000000,
        power: s.power + 1,
    }
}

#[tactic(auto, using(text_buffer::specs::laws::Text::writing), unfolding(crate::specs::Floats::two_digits))]
fn two_digits(out: &mut Text<'_>, n: u64)
    ensures { out.new ≡ wrote out.old (two_digits n) }
{
    if n < 10 {
        out.byte(b'0');
    }
    out.whole(n);
}

// The power's sign, and at least two digits.
#[tactic(auto, using(text_buffer::specs::laws::Text::writing), unfolding(crate::specs::Floats::power_text))]
fn power(out: &mut Text<'_>, power: i64)
    ensures { out.new ≡ wrote out.old (power_text power) }
{
    out.put(if power < 0 { b"e-" } else { b"e+" });
    two_digits(out, power.unsigned_abs());
}

#[tactic(auto, using(text_buffer::specs::laws::Text::writing), unfolding(crate::specs::Floats::powered_text))]
fn powered(out: &mut Text<'_>, x: f64, d: Digits)
    ensures { out.new ≡ wrote out.old (powered_text x d) }
{
    signed(out, x, Decimal { n: d.n, d: 6 });
    power(out, d.power);
}

#[tactic(auto, unfolding(crate::specs::Floats::scientific_text))]
pub fn scientific(out: &mut Text<'_>, x: f64)
    ensures { out.new ≡ wrote out.old (scientific_text x) }
{
    if x.is_nan() {
        out.put(b"nan");
    } else if x == 0.0 {
        out.put(b"0");
    } else if math::is_finite(x) {
        powered(out, x, seven_digits(in_tens(math::abs(x))));
    } else if x < 0.0 {
        out.put(b"-inf");
    } else {
        out.put(b"inf");
    }
}
