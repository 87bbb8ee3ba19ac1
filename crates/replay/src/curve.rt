// The public operation *curve*:
//
//     curve CODE LIST(values) DOSE = NUMBER mu d0 d1 d2 d3
use crate::answer::says_answer;
use crate::rooms::CURVE_VALUES;
use curves::curve;
use replay_cases::words::Words;

pub fn judge_curve(words: &mut Words<'_>) -> Option<bool> {
    let mut values = [0.0; CURVE_VALUES];
    let code = words.value()?;
    let values = words.list(&mut values)?;
    let dose = words.value()?;
    let answer = curve(code, values, dose).map(|m| ([m.mu, m.d0, m.d1, m.d2, m.d3], []));
    says_answer(words, &[], answer)
}

#[cfg(test)]
mod tests {
    use super::*;

    // *curve* refuses so many values by its number 6; a longer list is malformed.
    #[test]
    fn judges_sixteen_values(rt: HostRuntime) {
        let line: &[u8] =
            b"1 16 nan nan nan nan nan nan nan nan nan nan nan nan nan nan nan nan nan = 6 4010dead0000beef 4010dead0000beef 4010dead0000beef 4010dead0000beef 4010dead0000beef";
        assert!(rt; judge_curve(&mut Words::new(line)) == Some(true));
        let longer: &[u8] =
            b"1 17 nan nan nan nan nan nan nan nan nan nan nan nan nan nan nan nan nan nan = 6 4010dead0000beef 4010dead0000beef 4010dead0000beef 4010dead0000beef 4010dead0000beef";
        assert!(rt; judge_curve(&mut Words::new(longer)) == None);
    }
}
