// Start values by hand: numbers with commas between them.
use read_decimal::read_decimal;

// The n numbers that a word says, and zeros after them.
pub fn read_starts(word: &[u8], n: usize) -> Option<[f64; 4]> {
    let mut starts = [0.0; 4];
    let mut numbers = word.split(|b| *b == b',');
    for start in starts.get_mut(..n)?.iter_mut() {
        *start = read_decimal(numbers.next()?).ok()?;
    }
    match numbers.next() {
        Some(_) => None,
        None => Some(starts),
    }
}
