// The warnings in words.
ghost use Rattle.std.specs.Prelude.{◌≡◌, find};
ghost use Rattle.curves.specs.MeanFn.{code_of};
ghost use Rattle.text_buffer.specs.Text.{wrote};
ghost use Rattle.refit_warnings.specs.Warnings.{findings_lists, warns};
ghost use Rattle.refit_warnings.specs.Told.{what_of, remedy_of, warned_value_text, warning_line_text, warned_text, warning_lines_for, warning_lines_text, first_warning, warning_title};

use crate::findings::{Findings, Warning};
use crate::warns;
use curves::Curve;
use refit_options::words::name;
use text_buffer::Text;

// All warnings, the gravest first.
const ALL: [Warning; 13] = [
    Warning::Unmoved(0),
    Warning::Unmoved(1),
    Warning::Unmoved(2),
    Warning::Unmoved(3),
    Warning::Search,
    Warning::Fit,
    Warning::Step,
    Warning::Nothing,
    Warning::Few,
    Warning::Low,
    Warning::High,
    Warning::Alone,
    Warning::Quadrature,
];

// What is wrong; of a value that did not move its name stands before.
#[tactic(auto, unfolding(svg_axes::specs::Subject::value_names, refit_options::specs::Words::value_name_text, crate::specs::Told::what_of))]
fn what(warning: Warning) -> &'static [u8]
    ensures { result.now ≡ what_of warning }
{
    match warning {
        Warning::Unmoved(_) => b" did not move from its start",
        Warning::Search => b"The search over theta did not converge",
        Warning::Fit => b"The fit did not converge",
        Warning::Step => b"scal ended at its floor, 1e-06: the curve is a step",
        Warning::Nothing =>
            b"The curve comes no nearer to the readings than a constant for each canister: it explains nothing",
        Warning::Few =>
            b"There are no more readings than values to be found, or fewer doses than the curve has values",
        Warning::Low =>
            b"theta lies at the lower end of the searched range: the best theta may be smaller",
        Warning::High =>
            b"theta lies at the upper end of the searched range: the best theta may be larger",
        Warning::Alone => b"There is one canister only, so that theta and the spread mean nothing",
        Warning::Quadrature =>
            b"Quadrature follows the published Rust, whose correction moves theta far away from where other programs find it",
    }
}

// What to do.
#[tactic(auto, unfolding(crate::specs::Told::remedy_of))]
fn remedy(warning: Warning) -> &'static [u8]
    ensures { result.now ≡ remedy_of warning }
{
    match warning {
        Warning::Unmoved(_) =>
            b"Do not use these numbers. From this start the readings told nothing of it: give another one (--start), or try another --curve.",
        Warning::Search | Warning::Fit =>
            b"Do not use these numbers. Look for a reading that is far off, give start values (--start), or try another --curve.",
        Warning::Step =>
            b"Do not use these numbers. Do the readings fall with the dose? Give start values (--start), or try another --curve.",
        Warning::Nothing =>
            b"Do not use these numbers. Give start values (--start), or try another --curve or --effect.",
        Warning::Few =>
            b"Do not use these numbers: a curve can be laid through almost anything then. Weigh more doses.",
        Warning::Low =>
            b"The canisters differ too little to be told apart: their own curves are nearly that of all canisters.",
        Warning::High =>
            b"Each canister's curve stands nearly alone. Is each name one canister, and was each weighed at several doses?",
        Warning::Alone =>
            b"The curve does not depend on them. To learn how much canisters differ, weigh a second one.",
        Warning::Quadrature => b"Leave --quadrature out unless you want just those numbers.",
    }
}

#[tactic(auto, using(text_buffer::specs::laws::Text::writing), unfolding(crate::specs::Told::warned_value_text))]
fn value(out: &mut Text<'_>, curve: Curve, warning: Warning)
    ensures { out.new ≡ wrote out.old (warned_value_text (code_of curve) warning) }
{
    if let Warning::Unmoved(i) = warning {
        name(out, curve, i);
    }
}

fn line(out: &mut Text<'_>, curve: Curve, warning: Warning)
    ensures { out.new ≡ wrote out.old (warning_line_text (code_of curve) warning) }
{
    out.put(b"  *** ");
    value(out, curve, warning);
    out.put(what(warning));
    out.put(b" ***\n      ");
    out.put(remedy(warning));
    out.put(b"\n");
}

#[tactic(auto, using(text_buffer::specs::laws::Text::writing), unfolding(crate::specs::Told::warned_text))]
fn warned(out: &mut Text<'_>, f: &Findings<'_>, warning: Warning)
    ensures { out.new ≡ wrote out.old (warned_text (findings_lists f.now) warning) }
{
    if warns(f, warning) {
        line(out, f.subject.curve, warning);
    }
}

#[tactic(auto, using(crate::proofs::Laws::lines))]
fn lines_for(out: &mut Text<'_>, f: &Findings<'_>, warnings: &[Warning])
    ensures { out.new ≡ wrote out.old (warning_lines_for (findings_lists f.now) warnings.now) }
{
    for &warning in warnings {
        warned(out, f, warning);
    }
}

// What is wrong and what to do, a line for each warning.
#[tactic(auto, unfolding(crate::specs::Told::warning_lines_text))]
pub fn lines(out: &mut Text<'_>, f: &Findings<'_>)
    ensures { out.new ≡ wrote out.old (warning_lines_text (findings_lists f.now)) }
{
    lines_for(out, f, &ALL);
}

fn first_among(f: &Findings<'_>, warnings: &[Warning]) -> Option<Warning>
    ensures { result ≡ find (warns (findings_lists f.now)) warnings.now }
{
    warnings.iter().copied().find(|warning| warns(f, *warning))
}

// The gravest warning.
#[tactic(auto, unfolding(crate::specs::Told::first_warning))]
pub fn first(f: &Findings<'_>) -> Option<Warning>
    ensures { result ≡ first_warning (findings_lists f.now) }
{
    first_among(f, &ALL)
}

// What a picture's title says, by the gravest warning.
#[tactic(auto, unfolding(crate::specs::Told::warning_title))]
pub fn title(first: Option<Warning>) -> &'static [u8]
    ensures { result.now ≡ warning_title first }
{
    match first {
        None => b": what was weighed, and each canister's fitted curve",
        Some(Warning::Unmoved(_)) =>
            b": <tspan fill=\"#b00020\">DO NOT USE THIS FIT: a value did not move from its start</tspan>",
        Some(Warning::Search) =>
            b": <tspan fill=\"#b00020\">DO NOT USE THIS FIT: the search did not converge</tspan>",
        Some(Warning::Fit) =>
            b": <tspan fill=\"#b00020\">DO NOT USE THIS FIT: it did not converge</tspan>",
        Some(Warning::Step) =>
            b": <tspan fill=\"#b00020\">DO NOT USE THIS FIT: the curve is a step</tspan>",
        Some(Warning::Nothing) =>
            b": <tspan fill=\"#b00020\">DO NOT USE THIS FIT: it explains nothing</tspan>",
        Some(Warning::Few) =>
            b": <tspan fill=\"#b00020\">DO NOT USE THIS FIT: too few readings</tspan>",
        Some(Warning::Low) => b": the fitted curves; theta at the lower end of its range",
        Some(Warning::High) => b": the fitted curves; theta at the upper end of its range",
        Some(Warning::Alone) => b": the fitted curve; one canister only, so no theta",
        Some(Warning::Quadrature) => b": the fitted curves; theta by the Rust's quadrature",
    }
}
