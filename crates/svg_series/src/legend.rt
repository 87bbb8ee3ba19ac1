// A canister's row of the legend: a piece of its line, its mark and its name.
ghost use Rattle.std.specs.Prelude.{◌≡◌};
ghost use Rattle.text_buffer.specs.Text.{wrote};
ghost use Rattle.svg_axes.specs.Subject.{subject_lists};
ghost use Rattle.svg_series.specs.Canister.{legend_name_text, legend_y, legend_line_text, legend_key_text, legend_label_text, legend_text};

use svg_axes::subject::Subject;
use svg_marks::escape::escaped;
use svg_marks::{BASELINE, colour, number, shape};
use text_buffer::Text;

// A row for each of the canisters that a refit takes; all others would stand in the first one.
const ROWS: usize = 32;

const FIRST_ROW: f64 = 60.0;

const ROW_HEIGHT: f64 = 14.0;

#[tactic(auto, unfolding(crate::specs::Canister::legend_name_text))]
fn name(out: &mut Text<'_>, s: &Subject<'_>, g: usize)
    ensures { out.new ≡ wrote out.old (legend_name_text (subject_lists s.now) g) }
{
    if g < ROWS {
        escaped(out, s.name(g));
    } else {
        out.put(b"?");
    }
}

#[tactic(auto, unfolding(crate::specs::Canister::legend_y))]
fn row_y(g: usize) -> f64
    ensures { result ≡ legend_y g }
{
    if g < ROWS {
        FIRST_ROW + ROW_HEIGHT * std::num::nearest_u64_to_f64(g as u64)
    } else {
        FIRST_ROW
    }
}

// After the readings' end, a piece of the line.
fn line(out: &mut Text<'_>, g: usize, y: f64)
    ensures { out.new ≡ wrote out.old (legend_line_text g y) }
{
    out.put(b"</g>\n<path fill=\"none\" stroke-width=\"1.6\" stroke=\"");
    colour(out, g);
    number(out, b"\" d=\"M694 ", y);
    out.put(b"h28\"/>\n<g fill=\"");
}

fn key(out: &mut Text<'_>, g: usize, y: f64)
    ensures { out.new ≡ wrote out.old (legend_key_text g y) }
{
    line(out, g, y);
    colour(out, g);
    number(out, b"\"><path d=\"M708.0 ", y);
    shape(out, g);
}

fn label(out: &mut Text<'_>, s: &Subject<'_>, g: usize, y: f64)
    ensures { out.new ≡ wrote out.old (legend_label_text (subject_lists s.now) g y) }
{
    number(out, b"</g><text x=\"730\" y=\"", y);
    out.put(b"\">");
    name(out, s, g);
    out.put(b"</text>\n");
}

#[tactic(auto, using(text_buffer::specs::laws::Text::writing), unfolding(crate::specs::Canister::legend_text))]
pub fn legend(out: &mut Text<'_>, s: &Subject<'_>, g: usize)
    ensures { out.new ≡ wrote out.old (legend_text (subject_lists s.now) g) }
{
    let y = row_y(g);
    key(out, g, y);
    label(out, s, g, y + BASELINE);
}
