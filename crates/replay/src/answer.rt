// What a call answers, and what it leaves in the lists that it was lent, as it stands after the arguments of a line:
//
//     = NUMBER LIST.. FLOAT.. WHOLE..
//
// A refused call keeps what every output held before it.
use refusal::Refusal;
use replay_cases::lent::{KEPT, kept, outputs};
use replay_cases::words::Words;

// Whether the rest of a line says the call's number, the lists as they stand after it, and its floats and whole numbers.
pub fn says_answer<const FLOATS: usize, const WHOLES: usize>(
    words: &mut Words<'_>,
    lists: &[&[f64]],
    answer: Result<([f64; FLOATS], [u64; WHOLES]), Refusal>,
) -> Option<bool> {
    words.named(b"=")?;
    let (number, (floats, wholes)) = outputs(answer, ([kept(); FLOATS], [KEPT; WHOLES]));
    // `&` reads every word, also after one that differs.
    let mut agrees = words.says(number)?;
    for list in lists {
        agrees &= words.says_list(list)?;
    }
    Some(agrees & words.says_each(&floats)? & words.says_each(&wholes)?)
}
