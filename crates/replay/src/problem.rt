// The public operations that take a whole problem:
//
//     fit PROBLEM LIST(theta) MAX_ROUNDS N_VALUES N_EFFECTS_OUT
//         = NUMBER LIST(values) LIST(effects_out) rss converged rounds trials
//     criterion PROBLEM LIST(theta) MAX_ROUNDS REML N_AGQ N_VALUES N_EFFECTS_OUT
//         = NUMBER LIST(values) LIST(effects_out) criterion sigma2
//     search PROBLEM MAX_ROUNDS REML N_AGQ MAX_NARROWINGS
//         = NUMBER theta criterion narrowings converged fits
//
//     PROBLEM = CODE LIST(doses) LIST(grams) LIST(groups) GROUP_COUNT LIST(effects)
//               LIST(starts) LIST(lower) LIST(upper) LIST(group_lower) LIST(group_upper)
use crate::answer::says_answer;
use crate::rooms::{EFFECTS, READINGS, SHORT};
use fit_refusals::Problem;
use replay_cases::lent::kept;
use replay_cases::words::Words;

// A problem without its theta, which `rest` judges by the rest of the line.
#[inline(never)]
pub fn judge_problem<R: Fn(&mut Words<'_>, Problem<'_>) -> Option<bool>>(
    words: &mut Words<'_>,
    rest: R,
) -> Option<bool>
    requires { R.IsAlwaysCallable rest }
{
    let mut doses = [0.0; READINGS];
    let mut grams = [0.0; READINGS];
    let mut groups = [0; READINGS];
    let mut places = [0; SHORT];
    let mut starts = [0.0; SHORT];
    let mut lower = [0.0; SHORT];
    let mut upper = [0.0; SHORT];
    let mut group_lower = [0.0; SHORT];
    let mut group_upper = [0.0; SHORT];
    let problem = Problem {
        code: words.value()?,
        doses: words.list(&mut doses)?,
        grams: words.list(&mut grams)?,
        groups: words.list(&mut groups)?,
        group_count: words.value()?,
        places: words.list(&mut places)?,
        starts: words.list(&mut starts)?,
        lower: words.list(&mut lower)?,
        upper: words.list(&mut upper)?,
        group_lower: words.list(&mut group_lower)?,
        group_upper: words.list(&mut group_upper)?,
        theta: &[],
    };
    rest(words, problem)
}

pub fn judge_fit(words: &mut Words<'_>, problem: Problem<'_>) -> Option<bool> {
    let mut theta = [0.0; SHORT];
    let mut values = [kept(); SHORT];
    let mut effects = [kept(); EFFECTS];
    let problem = Problem {
        theta: words.list(&mut theta)?,
        ..problem
    };
    let max_rounds = words.value()?;
    let values = values.get_mut(..words.value()?)?;
    let effects = effects.get_mut(..words.value()?)?;
    let answer = fit::fit(&problem, max_rounds, values, effects).map(|f| {
        (
            [f.rss],
            [u64::from(f.converged), f.rounds as u64, f.trials as u64],
        )
    });
    says_answer(words, &[values, effects], answer)
}

pub fn judge_criterion(words: &mut Words<'_>, problem: Problem<'_>) -> Option<bool> {
    let mut theta = [0.0; SHORT];
    let mut values = [kept(); SHORT];
    let mut effects = [kept(); EFFECTS];
    let problem = Problem {
        theta: words.list(&mut theta)?,
        ..problem
    };
    let max_rounds = words.value()?;
    let reml = words.value::<u64>()? != 0;
    let n_agq = words.value()?;
    let values = values.get_mut(..words.value()?)?;
    let effects = effects.get_mut(..words.value()?)?;
    let answer = criterion::criterion(&problem, max_rounds, reml, n_agq, values, effects).map(|p| (
        [p.criterion, p.sigma2],
        [],
    ));
    says_answer(words, &[values, effects], answer)
}

// A search reads no theta, and is lent no list.
pub fn judge_search(words: &mut Words<'_>, problem: Problem<'_>) -> Option<bool> {
    let max_rounds = words.value()?;
    let reml = words.value::<u64>()? != 0;
    let n_agq = words.value()?;
    let max_narrowings = words.value()?;
    let answer = golden::search(&problem, max_rounds, reml, n_agq, max_narrowings).map(|f| {
        (
            [f.theta, f.criterion],
            [f.narrowings, u64::from(f.converged), f.fits],
        )
    });
    says_answer(words, &[], answer)
}
