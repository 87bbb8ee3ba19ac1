// The public operation *self-start*:
//
//     start CODE LIST(doses) LIST(grams) N_VALUES = NUMBER LIST(values)
use crate::answer::says_answer;
use crate::rooms::{SHORT, START_READINGS};
use replay_cases::lent::kept;
use replay_cases::words::Words;
use self_start::self_start;

#[inline(never)]
pub fn judge_start(words: &mut Words<'_>) -> Option<bool> {
    let mut doses = [0.0; START_READINGS];
    let mut grams = [0.0; START_READINGS];
    let mut values = [kept(); SHORT];
    let code = words.value()?;
    let doses = words.list(&mut doses)?;
    let grams = words.list(&mut grams)?;
    let values = values.get_mut(..words.value()?)?;
    let answer = self_start(code, doses, grams, values).map(|()| ([], []));
    says_answer(words, &[values], answer)
}

#[cfg(test)]
mod tests {
    use super::*;

    // A line of up to 300 doses and no grams, which *self-start* refuses by its number 2; a longer list of doses than 256 is malformed.
    fn judged(head: &[u8; 6], doses: usize) -> Option<bool> {
        let mut line = [b' '; 6 + 4 * 300 + 9];
        let end = 6 + 4 * doses.min(300);
        line[..6].copy_from_slice(head);
        for i in 0..doses.min(300) {
            line[6 + 4 * i..9 + 4 * i].copy_from_slice(b"nan");
        }
        line[end..end + 9].copy_from_slice(b"0 0 = 2 0");
        judge_start(&mut Words::new(&line[..end + 9]))
    }

    #[test]
    fn judges_256_doses(rt: HostRuntime) {
        assert!(rt; judged(b"1 256 ", 256) == Some(true));
        assert!(rt; judged(b"1 257 ", 257) == None);
    }
}
