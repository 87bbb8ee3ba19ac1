// The refit of readings, and what a person is told of it. No file is read or written here: `run` takes the readings, the
// text that they were read from, which has the canisters' names, and what is asked, and writes the report, and the picture if
// one is asked for, into lent buffers.
#![tactic(auto)]

pub mod readings;

ghost use Rattle.std.specs.Prelude.{◌≡◌, ◌≤◌, IfOk, is_some};
ghost use Rattle.curves.specs.MeanFn.{code_of, n_params_of};
ghost use Rattle.refit_calculation.specs.Refit.{request_lists, refit_of};
ghost use Rattle.svg_axes.specs.Subject.{subject_lists};
ghost use Rattle.refit_run.specs.Run.{InReach, readings_lists, readings_fault, picture_if_asked, report_and_picture, refit_told, refit_run_of};

use crate::readings::{CANISTERS, READINGS, Readings};
use read_table::fault::TableFault;
use refit_calculation::{Answer, Refused, Request, refit, refit_from};
use refit_options::options::Task;
use refit_report::report;
use refit_warnings::findings::Outcome;
use refit_warnings::told::{first, title};
use svg_axes::subject::Subject;
use text_buffer::Text;

// The picture of a refit, where one is asked for and there is a fit.
#[tactic(auto, unfolding(crate::specs::Run::picture_if_asked))]
fn picture(svg: &mut Text<'_>, o: &Task, r: &Outcome<'_>)
    ensures { svg.new ≡ picture_if_asked o.now (subject_lists r.now.subject) r.now.starts.now r.now.answer svg.old }
{
    if !o.picture {
        return;
    }
    match r.answer {
        Ok(refit) => {
            let found = r.found(o.settings.n_agq, refit);
            svg_picture::draw(svg, &r.subject, o.example, title(first(&found)));
        }
        Err(_) => {}
    }
}

// The report and the picture of a refit. Lent one by one: the borrow checker does not cover an Outcome that `answer` makes of
// its own lists beside those that are lent to it.
fn told(
    o: &Task,
    subject: &Subject<'_>,
    starts: &[f64],
    answer: Result<Answer, Refused>,
    out: &mut Text<'_>,
    svg: &mut Text<'_>,
)
    ensures { (out.new, svg.new) ≡ report_and_picture o.now (subject_lists subject.now) starts.now answer out.old svg.old }
{
    let outcome = Outcome {
        subject: *subject,
        starts,
        answer,
    };
    report(out, o, &outcome);
    picture(svg, o, &outcome);
}

// The refit from the start values that are given, or from the readings' own. The lists are lent one by one, as `refit` takes
// them.
fn refitted(
    o: &Task,
    request: &Request<'_>,
    starts: &mut [f64],
    values: &mut [f64],
    effects: &mut [f64],
) -> Result<Answer, Refused>
    ensures { refit_of (request_lists request.now) (is_some o.now.given) starts.old values.old effects.old
        ≡ record { answer = result; starts = starts.new; values = values.new; effects = effects.new } }
{
    match o.given {
        Some(_) => refit_from(request, starts, values, effects),
        None => refit(request, starts, values, effects),
    }
}

// More readings than 512 or than a list has, or more canisters than 32.
#[tactic(auto, unfolding(crate::specs::Run::readings_fault))]
fn within_reach(readings: &Readings<'_>) -> Result<(), TableFault>
    ensures value { result ≡ readings_fault (readings_lists readings.now) }
    ensures in_reach { IfOk result (λ _. InReach (readings_lists readings.now)) }
{
    let n = readings.doses.len();
    if n > READINGS || n > readings.grams.len() || n > readings.groups.len() {
        return Err(TableFault::TooManyReadings);
    }
    if readings.canisters > CANISTERS {
        return Err(TableFault::TooManyCanisters);
    }
    Ok(())
}

#[tactic(auto, unfolding(curves::specs::MeanFn::n_params_of))]
fn n_values(o: &Task) -> usize
    ensures value { result ≡ n_params_of (code_of o.now.settings.curve) }
    ensures few { result ≤ 4 }
{
    o.settings.curve.n_params()
}

// The refit of readings that are in reach, and what is told of it.
fn answer(o: &Task, readings: &Readings<'_>, out: &mut Text<'_>, svg: &mut Text<'_>)
    requires { InReach (readings_lists readings.now) }
    ensures { (out.new, svg.new) ≡ refit_told o.now (readings_lists readings.now) out.old svg.old }
{
    let n = readings.doses.len();
    let k = n_values(o);
    let place = [o.settings.place];
    let request = Request {
        code: o.settings.curve.code(),
        doses: readings.doses,
        grams: &readings.grams[..n],
        groups: &readings.groups[..n],
        places: &place,
        reml: o.settings.reml,
        n_agq: o.settings.n_agq,
    };
    let mut starts = o.given.unwrap_or([0.0; 4]);
    let mut values = [0.0; 4];
    let mut effects = [0.0; CANISTERS];
    let starts = &mut starts[..k];
    let values = &mut values[..k];
    let effects = &mut effects[..readings.canisters];
    let answer = refitted(o, &request, starts, values, effects);
    let subject = Subject {
        curve: o.settings.curve,
        place: o.settings.place,
        doses: request.doses,
        grams: request.grams,
        groups: request.groups,
        text: readings.text,
        names: readings.names,
        values,
        effects,
    };
    told(o, &subject, starts, answer, out, svg);
}

// The refit of readings, told in words; a fault where the lists hold fewer readings or there are too many.
#[tactic(auto, unfolding(crate::specs::Run::refit_run_of))]
pub fn run(
    o: &Task,
    readings: &Readings<'_>,
    out: &mut Text<'_>,
    svg: &mut Text<'_>,
) -> Result<(), TableFault>
    ensures { (result, out.new, svg.new) ≡ refit_run_of o.now (readings_lists readings.now) out.old svg.old }
{
    within_reach(readings)?;
    answer(o, readings, out, svg);
    Ok(())
}
