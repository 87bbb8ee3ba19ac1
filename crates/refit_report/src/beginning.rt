// What begins a report: where the readings are from and what was asked.
ghost use Rattle.std.specs.Prelude.{◌≡◌, cond, []};
ghost use Rattle.text_buffer.specs.Text.{wrote};
ghost use Rattle.svg_axes.specs.Subject.{subject_lists};
ghost use Rattle.refit_report.specs.Report.{asked_text, quadrature_text, report_beginning_text};

use refit_options::options::Task;
use refit_options::words::{curve, name};
use svg_axes::subject::Subject;
use text_buffer::Text;
use text_lines::template::fill;

// The text where it is so.
#[tactic(auto, using(text_buffer::specs::laws::Text::writing))]
pub fn when(out: &mut Text<'_>, is: bool, text: &[u8])
    ensures { out.new ≡ wrote out.old (cond is text.now []) }
{
    if is {
        out.put(text);
    }
}

pub fn either(out: &mut Text<'_>, is: bool, text: &[u8], other: &[u8])
    ensures { out.new ≡ wrote out.old (cond is text.now other.now) }
{
    out.put(if is { text } else { other });
}

fn asked(out: &mut Text<'_>, s: &Subject<'_>)
    ensures { out.new ≡ wrote out.old (asked_text (subject_lists s.now)) }
{
    let counts = [s.doses.len() as u64, s.effects.len() as u64];
    fill(
        out,
        b"Refit\n  readings      %n, of %n canisters\n  curve         ",
        &counts,
        &[],
    );
    curve(out, s.curve);
    out.put(b"\n  effect        each canister has its own ");
    name(out, s.curve, s.place);
    out.put(b"\n");
}

#[tactic(auto, using(text_buffer::specs::laws::Text::writing), unfolding(crate::specs::Report::quadrature_text))]
fn quadrature(out: &mut Text<'_>, order: u64)
    ensures { out.new ≡ wrote out.old (quadrature_text order) }
{
    if order > 1 {
        fill(out, b"  quadrature    order %n\n", &[order], &[]);
    }
}

pub fn beginning(out: &mut Text<'_>, o: &Task, s: &Subject<'_>, warned: bool)
    ensures { out.new ≡ wrote out.old (report_beginning_text o.now (subject_lists s.now) warned) }
{
    when(
        out,
        o.example,
        b"No file was named: this is R's data set Orange, with the age in days as the dose, the circumference\nin mm as the grams and the tree as the canister. 'refit help' tells what else can be asked.\n\n",
    );
    asked(out, s);
    either(
        out,
        o.settings.reml,
        b"  method        restricted maximum likelihood\n",
        b"  method        maximum likelihood\n",
    );
    quadrature(out, o.settings.n_agq);
    when(out, warned, b"  *** WARNINGS: read them at the end ***\n");
}
