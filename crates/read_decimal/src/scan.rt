// Places in a text: past a byte, past a run of digits, and the number that digits say.
ghost use Rattle.std.specs.Prelude.{◌≡◌, ◌≤◌, ◌-◌, drop, length, take_while};
ghost use Rattle.std.specs.Char.{is_ascii_digit};
ghost use Rattle.read_decimal.specs.Scan.{stands, past_either, digits_end, digits_value_from, capped_value};

// 10^15, the least number of 16 digits.
pub const LIMIT: u64 = 1_000_000_000_000_000;

// Whether the byte b stands at `at`.
#[tactic(auto, unfolding(crate::specs::Scan::stands))]
pub fn stands(text: &[u8], at: usize, b: u8) -> bool
    ensures { result ≡ stands b text.now at }
{
    text.get(at) == Some(&b)
}

// The place after the byte at `at` if that is a or b, else `at`.
#[tactic(auto, unfolding(crate::specs::Scan::stands, crate::specs::Scan::past_either))]
pub fn past(text: &[u8], at: usize, a: u8, b: u8) -> usize
    ensures value { result ≡ past_either a b text.now at }
    ensures lower_bound { (at ≤ result) × (at ≤ length text.now → result ≤ length text.now) }
{
    if stands(text, at, a) || stands(text, at, b) {
        at + 1
    } else {
        at
    }
}

// What stands from `at` on. Not the iterator's `skip`, which walks from the text's first byte.
pub fn rest(text: &[u8], at: usize) -> &[u8]
    ensures { result.now ≡ drop at text.now }
{
    text.get(at..).unwrap_or(&[])
}

// How many digits stand from `at` on.
fn digits_at(text: &[u8], at: usize) -> usize
    ensures value { result ≡ length (take_while is_ascii_digit (drop at text.now)) }
    ensures upper_bound { result ≤ length text.now - at }
{
    rest(text, at)
        .iter()
        .take_while(|b| b.is_ascii_digit())
        .count()
}

// The place where the digits end that begin at `at`.
#[tactic(auto, unfolding(crate::specs::Scan::digits_end))]
pub fn digits_end(text: &[u8], at: usize) -> usize
    ensures value { result ≡ digits_end text.now at }
    ensures lower_bound { (at ≤ result) × (at ≤ length text.now → result ≤ length text.now) }
{
    at + digits_at(text, at)
}

// The digits as a number after those that make n, and 10^15 where that is less.
#[tactic(auto, using(crate::proofs::NumberLaws::capped_from), unfolding(crate::specs::Scan::digits_value_from))]
pub fn number(digits: &[u8], n: u64) -> u64
    ensures { result ≡ capped_value (digits_value_from n digits.now) }
{
    let mut m = n.min(LIMIT);
    for b in digits {
        // Further digits change nothing, however many they are.
        if m == LIMIT {
            return LIMIT;
        }
        m = (m * 10 + u64::from(b.saturating_sub(b'0'))).min(LIMIT);
    }
    m
}
