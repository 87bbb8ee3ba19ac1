// A word's digits read as a number, and a word read as a float. `None` is a fault.
ghost use Rattle.std.specs.Prelude.{◌≡◌};
ghost use Rattle.replay_cases.specs.Digits.{digit_of, in_base_of, hex_of, whole_number_of, float_of};

use math::words::of_bits;

// The digits of a float's bits.
const HEX_LEN: usize = 16;

// The value of a digit, `0` to `9` or `a` to `f`.
#[tactic(auto, unfolding(crate::specs::Digits::digit_of))]
pub fn digit(b: u8) -> Option<u64>
    ensures { result ≡ digit_of b }
{
    match b {
        b'0'..=b'9' => Some(u64::from(b - b'0')),
        b'a'..=b'f' => Some(u64::from(b - b'a' + 10)),
        _ => None,
    }
}

// The digits of w in the base. A byte that is no digit below the base is a fault, and so is a
// number of 2^64 or more.
#[tactic(auto, using(crate::proofs::Numbers::digits))]
pub fn in_base(w: &[u8], base: u64) -> Option<u64>
    ensures { result ≡ in_base_of base w.now }
{
    let mut n: u64 = 0;
    for &b in w {
        let d = digit(b).filter(|&d| d < base)?;
        n = n.checked_mul(base)?.checked_add(d)?;
    }
    Some(n)
}

#[tactic(auto, unfolding(crate::specs::Digits::hex_of))]
pub fn hex(w: &[u8]) -> Option<u64>
    ensures { result ≡ hex_of w.now }
{
    if w.len() == HEX_LEN {
        in_base(w, 16)
    } else {
        None
    }
}

#[tactic(auto, unfolding(crate::specs::Digits::whole_number_of))]
pub fn whole_number(w: &[u8]) -> Option<u64>
    ensures { result ≡ whole_number_of w.now }
{
    if w.is_empty() { None } else { in_base(w, 10) }
}

// A NaN is the word `nan`; any other float its bits in 16 digits.
pub fn float_of(w: &[u8]) -> Option<f64>
    ensures { result ≡ float_of w.now }
{
    if w == b"nan".as_slice() {
        return Some(of_bits(0x7ff8_0000_0000_0000));
    }
    hex(w).map(of_bits)
}
