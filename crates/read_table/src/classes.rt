// The bytes that a table's reader looks for, and the place of the next one.
ghost use Rattle.std.specs.Prelude.{◌≡◌, ◌-◌, ◌≤◌, ◌<◌, not, length, drop, take_while};
ghost use Rattle.std.specs.Bool.{OnTrue};
ghost use Rattle.read_table.specs.Classes.{is_space, is_separator, is_name_byte, stops_at, meets, scan_of};

use read_decimal::scan::rest;

fn is_space(b: u8) -> bool
    ensures { result ≡ is_space b }
{
    b == b' ' || b == b'\r'
}

fn is_separator(b: u8) -> bool
    ensures { result ≡ is_separator b }
{
    b == b',' || b == b';' || b == b'\t'
}

pub fn is_name_byte(b: u8) -> bool
    ensures { result ≡ is_name_byte b }
{
    b.is_ascii_alphanumeric() || b == b'-' || b == b'.' || b == b'_' || b >= 128
}

// What is looked for: a byte of a kind, or the end of a run, which is the first byte that is none of it.
#[derive(Clone, Copy, Debug, PartialEq, Eq)]
pub enum Stop {
    Quote,
    Newline,
    Comment,
    Comma,
    Separator,
    Letter,
    EndOfSpaces,
    EndOfWord,
    EndOfLetters,
}

impl Stop {
    fn stops_at(self, b: u8) -> bool
        ensures { result ≡ stops_at self b }
    {
        match self {
            Stop::Quote => b == b'"',
            Stop::Newline => b == b'\n',
            Stop::Comment => b == b'#',
            Stop::Comma => b == b',',
            Stop::Separator => is_separator(b),
            Stop::Letter => b.is_ascii_alphabetic(),
            Stop::EndOfSpaces => !is_space(b),
            Stop::EndOfWord => is_space(b) || is_separator(b),
            Stop::EndOfLetters => !b.is_ascii_alphabetic(),
        }
    }
}

// Whether such a byte stands at `at`; past the end there is none.
#[tactic(auto, unfolding(crate::specs::Classes::meets))]
pub fn met(text: &[u8], at: usize, stop: Stop) -> bool
    ensures value { result ≡ meets stop text.now at }
    ensures in_bounds { OnTrue result (at < length text.now) }
{
    at < text.len() && stop.stops_at(text[at])
}

// How many bytes come from `at` on before the first such one. Not one function with read_decimal's digits_at: over a closure
// its contract needs a test as a ghost value, and each call a file that names it, for one line here and there.
fn bytes_before(text: &[u8], at: usize, stop: Stop) -> usize
    ensures value { result ≡ length (take_while (λ b. not (stops_at stop b)) (drop at text.now)) }
    ensures upper_bound { result ≤ length text.now - at }
{
    rest(text, at)
        .iter()
        .take_while(|b| !stop.stops_at(**b))
        .count()
}

// The first place from `at` on where such a byte stands, or the end.
#[tactic(auto, unfolding(crate::specs::Classes::scan_of))]
pub fn scan(text: &[u8], at: usize, stop: Stop) -> usize
    ensures value { result ≡ scan_of stop text.now at }
    ensures lower_bound { (at ≤ result) × (at ≤ length text.now → result ≤ length text.now) }
{
    at + bytes_before(text, at, stop)
}
