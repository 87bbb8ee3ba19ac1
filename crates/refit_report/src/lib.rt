// The report: after its beginning the start values, theta, the fit, then the tables, and what is to be warned of.
#![tactic(auto)]

pub mod beginning;

ghost use Rattle.std.specs.Prelude.{◌≡◌, drop};
ghost use Rattle.curves.specs.MeanFn.{code_of};
ghost use Rattle.text_buffer.specs.Text.{wrote};
ghost use Rattle.svg_axes.specs.Subject.{subject_lists};
ghost use Rattle.refit_warnings.specs.Warnings.{findings_lists};
ghost use Rattle.refit_report.specs.Report.{value_line, values_text, note_text, starts_text, report_theta_text, spread_of, spread_text, converged_text, fit_text, report_curve_text, warnings_section_text, warnings_text, step_text, refused_text, results_text, told_text, begun_text, without_text, report_text};

use crate::beginning::{beginning, either, when};
use curves::Curve;
use refit_calculation::{Answer, Refused, Step};
use refit_options::options::Task;
use refit_options::words::{name, refusal};
use refit_tables::{canisters, readings};
use refit_warnings::findings::{Findings, Outcome};
use refit_warnings::told::{first, lines};
use svg_axes::subject::{Subject, value_names};
use text_buffer::Text;
use text_lines::columns;
use text_lines::template::fill;

// A value's line: its name, and the first of the numbers that are left.
#[tactic(auto, using(text_buffer::specs::laws::Text::writing), unfolding(crate::specs::Report::value_line))]
fn value_line(out: &mut Text<'_>, name: &[u8], left: &[f64])
    ensures { out.new ≡ wrote out.old (value_line name.now left.now) }
{
    out.put(b"  ");
    columns::left(out, 14, name);
    fill(out, b"%g\n", &[], left);
}

fn after_first(numbers: &[f64]) -> &[f64]
    ensures { result.now ≡ drop 1 numbers.now }
{
    &numbers[numbers.len().min(1)..]
}

#[tactic(auto, using(crate::proofs::Laws::lines), unfolding(crate::specs::Report::values_text))]
fn values_of(out: &mut Text<'_>, curve: Curve, values: &[f64])
    ensures { out.new ≡ wrote out.old (values_text (code_of curve) values.now) }
{
    let names = value_names(curve);
    let mut left = values;
    for &name in names {
        value_line(out, name, left);
        left = after_first(left);
    }
}

// Which start value was not taken as the self-start answers it, and why.
#[tactic(auto, unfolding(text_buffer::specs::Text::joined, svg_axes::specs::Subject::value_names, refit_options::specs::Words::value_name_text, crate::specs::Report::note_text))]
fn note(curve: Curve) -> &'static [u8]
    ensures { result.now ≡ note_text (code_of curve) }
{
    match curve {
        Curve::Sslogis =>
            b"  Note: for readings that rise the self-start answers this scal with a minus sign, from which a fit ends in a step.\n  The sign was turned here before the search.\n",
        _ =>
            b"  Note: the self-start answers lrc as a rate, ln 2 by the dose at half of the way, and the curve takes the rate's logarithm.\n  The logarithm was taken here before the search.\n",
    }
}

fn starts_of(out: &mut Text<'_>, curve: Curve, given: bool, adjusted: bool, starts: &[f64])
    ensures { out.new ≡ wrote out.old (starts_text (code_of curve) given adjusted starts.now) }
{
    either(
        out,
        given,
        b"\nStart values, given by --start\n",
        b"\nStart values, from the readings\n",
    );
    values_of(out, curve, starts);
    when(out, adjusted, note(curve));
}

// A search or a fit that has not converged is told loudly.
fn converged(out: &mut Text<'_>, is: bool)
    ensures { out.new ≡ wrote out.old (converged_text is) }
{
    either(
        out,
        is,
        b"  converged\n",
        b"  *** NOT CONVERGED: do not use these numbers ***\n",
    );
}

#[tactic(auto, using(text_buffer::specs::laws::Text::writing), unfolding(crate::specs::Report::report_theta_text))]
fn theta_of(out: &mut Text<'_>, r: &Answer)
    ensures { out.new ≡ wrote out.old (report_theta_text r.now) }
{
    fill(
        out,
        b"\nTheta, searched from 0.2 to 20\n  theta         %g\n  criterion     %g\n  search        %n narrowings, %n fits\n",
        &[r.search.narrowings, r.search.fits],
        &[r.search.theta, r.search.criterion],
    );
    converged(out, r.search.converged);
}

#[tactic(auto, using(text_buffer::specs::laws::Text::writing), unfolding(crate::specs::Report::spread_of))]
fn spread_of(out: &mut Text<'_>, curve: Curve, place: usize, x: f64)
    ensures { out.new ≡ wrote out.old (spread_of (code_of curve) place x) }
{
    fill(out, b"  canisters'    %g   spread of their ", &[], &[x]);
    name(out, curve, place);
    out.put(b": theta times the root of sigma2\n");
}

// The spread of the canisters, which is theta times the root of sigma2 but for SSasymp, whose criterion is another.
#[tactic(auto, using(text_buffer::specs::laws::Text::writing), unfolding(crate::specs::Report::spread_text))]
fn spread(out: &mut Text<'_>, curve: Curve, place: usize, x: f64)
    ensures { out.new ≡ wrote out.old (spread_text (code_of curve) place x) }
{
    match curve {
        Curve::Ssasymp => {}
        _ => spread_of(out, curve, place, x),
    }
}

fn fit_of(out: &mut Text<'_>, curve: Curve, place: usize, r: &Answer)
    ensures { out.new ≡ wrote out.old (fit_text (code_of curve) place r.now) }
{
    let root = math::sqrt::sqrt(r.sigma2);
    fill(
        out,
        b"\nThe fit at theta\n  rounds        %n, with %n trials\n  rss           %g   the sum of the squared differences\n  sigma2        %g   the variance of a reading; its root is %g\n",
        &[r.fit.rounds as u64, r.fit.trials as u64],
        &[r.fit.rss, r.sigma2, root],
    );
    spread(out, curve, place, r.search.theta * root);
    converged(out, r.fit.converged);
}

fn curve_of_all(out: &mut Text<'_>, s: &Subject<'_>)
    ensures { out.new ≡ wrote out.old (report_curve_text (subject_lists s.now)) }
{
    out.put(b"\nThe curve of all canisters\n");
    values_of(out, s.curve, s.values);
}

fn all_warnings(out: &mut Text<'_>, f: &Findings<'_>)
    ensures { out.new ≡ wrote out.old (warnings_section_text (findings_lists f.now)) }
{
    out.put(b"\nWarnings\n");
    lines(out, f);
}

// The warnings stand last, where a screen ends.
#[tactic(auto, using(text_buffer::specs::laws::Text::writing), unfolding(crate::specs::Report::warnings_text))]
fn warnings_of(out: &mut Text<'_>, f: &Findings<'_>)
    ensures { out.new ≡ wrote out.old (warnings_text (findings_lists f.now)) }
{
    if first(f).is_some() {
        all_warnings(out, f);
    }
}

#[tactic(auto, unfolding(crate::specs::Report::step_text))]
fn step(step: Step) -> &'static [u8]
    ensures { result.now ≡ step_text step }
{
    match step {
        Step::Start => b"start values",
        Step::Search => b"search",
        Step::Fit => b"fit",
    }
}

// Which step was refused, by which number, and what that means.
fn refused(out: &mut Text<'_>, e: Refused)
    ensures { out.new ≡ wrote out.old (refused_text e) }
{
    out.put(b"\n*** REFUSED: no ");
    out.put(step(e.step));
    fill(
        out,
        b". The library answers number %n: ",
        &[e.refusal.number()],
        &[],
    );
    refusal(out, e.refusal);
    out.put(b" ***\n");
}

// What was found, each canister's curve and each reading.
#[tactic(auto, using(text_buffer::specs::laws::Text::writing), unfolding(crate::specs::Report::results_text))]
fn results_of(out: &mut Text<'_>, f: &Findings<'_>)
    ensures { out.new ≡ wrote out.old (results_text (findings_lists f.now)) }
{
    let s = &f.subject;
    theta_of(out, &f.refit);
    fit_of(out, s.curve, s.place, &f.refit);
    curve_of_all(out, s);
    canisters(out, s);
    readings(out, s);
    warnings_of(out, f);
}

// The report of a refit that was not refused.
#[tactic(auto, using(text_buffer::specs::laws::Text::writing), unfolding(crate::specs::Report::told_text))]
fn told(out: &mut Text<'_>, o: &Task, f: &Findings<'_>)
    ensures { out.new ≡ wrote out.old (told_text o.now (findings_lists f.now)) }
{
    let s = &f.subject;
    beginning(out, o, s, first(f).is_some());
    starts_of(out, s.curve, o.given.is_some(), f.refit.adjusted, f.starts);
    results_of(out, f);
}

// Without start values nothing more is told than the refusal; a refusal after them comes below them.
#[tactic(auto, using(text_buffer::specs::laws::Text::writing), unfolding(crate::specs::Report::begun_text))]
fn begun(out: &mut Text<'_>, curve: Curve, given: bool, starts: &[f64], e: Refused)
    ensures { out.new ≡ wrote out.old (begun_text (code_of curve) given starts.now e) }
{
    match e.step {
        Step::Start => {}
        Step::Search | Step::Fit => starts_of(out, curve, given, e.adjusted, starts),
    }
}

#[tactic(auto, using(text_buffer::specs::laws::Text::writing), unfolding(crate::specs::Report::without_text))]
fn without(out: &mut Text<'_>, o: &Task, r: &Outcome<'_>, e: Refused)
    ensures { out.new ≡ wrote out.old (without_text o.now (subject_lists r.now.subject) r.now.starts.now e) }
{
    let s = &r.subject;
    beginning(out, o, s, false);
    begun(out, s.curve, o.given.is_some(), r.starts, e);
    refused(out, e);
}

#[tactic(auto, unfolding(crate::specs::Report::report_text))]
pub fn report(out: &mut Text<'_>, o: &Task, r: &Outcome<'_>)
    ensures { out.new ≡ wrote out.old (report_text o.now (subject_lists r.now.subject) r.now.starts.now r.now.answer) }
{
    match r.answer {
        Ok(refit) => told(out, o, &r.found(o.settings.n_agq, refit)),
        Err(e) => without(out, o, r, e),
    }
}
