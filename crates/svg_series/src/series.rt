// A canister's curve and its readings. `s`, `f` and `g` go from function to function apart: each contract would take a struct of
// them to pieces again, as `drawn_curve_text (subject_lists c.s.now) c.f.now c.g`.
ghost use Rattle.std.specs.Prelude.{◌≡◌};
ghost use Rattle.text_buffer.specs.Text.{wrote};
ghost use Rattle.svg_marks.specs.Escape.{each_text};
ghost use Rattle.svg_axes.specs.Subject.{subject_lists};
ghost use Rattle.svg_series.specs.Canister.{point_text, vertex_text, drawn_curve_text, reading_text, marks_text, drawn_readings_text};

use svg_axes::axes::{x_pixel, y_pixel};
use svg_axes::curve_at;
use svg_axes::frame::Frame;
use svg_axes::ranges::{SAMPLES, sample};
use svg_axes::subject::Subject;
use svg_marks::{colour, number, shape};
use text_buffer::Text;

// Where a reading or a point of the curve stands, after a text.
#[tactic(auto, using(text_buffer::specs::laws::Text::writing), unfolding(crate::specs::Canister::point_text))]
fn point(out: &mut Text<'_>, before: &[u8], f: &Frame, dose: f64, grams: f64)
    ensures { out.new ≡ wrote out.old (point_text before.now f.now dose grams) }
{
    number(out, before, x_pixel(f.x, dose));
    number(out, b" ", y_pixel(f.y, grams));
}

// A point of a curve; none where the curve's value is not finite.
#[tactic(auto, using(text_buffer::specs::laws::Text::writing), unfolding(crate::specs::Canister::vertex_text))]
fn vertex(out: &mut Text<'_>, s: &Subject<'_>, f: &Frame, g: usize, j: u64)
    ensures { out.new ≡ wrote out.old (vertex_text (subject_lists s.now) f.now g j) }
{
    let dose = sample(f.doses, j);
    let grams = curve_at(s, g, dose);
    if math::is_finite(grams) {
        point(out, b" ", f, dose, grams);
    }
}

#[tactic(auto, using(svg_marks::proofs::Laws::running))]
fn vertices(out: &mut Text<'_>, s: &Subject<'_>, f: &Frame, g: usize)
    ensures { out.new ≡ wrote out.old (each_text (vertex_text (subject_lists s.now) f.now g) 61) }
{
    for j in 0..SAMPLES {
        vertex(out, s, f, g, j);
    }
}

pub fn curve(out: &mut Text<'_>, s: &Subject<'_>, f: &Frame, g: usize)
    ensures { out.new ≡ wrote out.old (drawn_curve_text (subject_lists s.now) f.now g) }
{
    out.put(b"<polyline fill=\"none\" stroke-width=\"1.6\" stroke=\"");
    colour(out, g);
    out.put(b"\" points=\"");
    vertices(out, s, f, g);
}

// The mark of a reading, if it is one of canister g.
#[tactic(auto, using(text_buffer::specs::laws::Text::writing), unfolding(crate::specs::Canister::reading_text))]
fn reading(out: &mut Text<'_>, f: &Frame, g: usize, of: usize, dose: f64, grams: f64)
    ensures { out.new ≡ wrote out.old (reading_text f.now g of dose grams) }
{
    if of == g {
        point(out, b"<path d=\"M", f, dose, grams);
        shape(out, g);
    }
}

#[tactic(auto, using(svg_marks::proofs::Laws::running), unfolding(crate::specs::Canister::marks_text))]
fn marks(out: &mut Text<'_>, s: &Subject<'_>, f: &Frame, g: usize)
    ensures { out.new ≡ wrote out.old (marks_text (subject_lists s.now) f.now g) }
{
    // By place and not zipped: a dose or grams that a shorter list lacks counts as NaN.
    for (i, &of) in s.groups.iter().enumerate() {
        reading(out, f, g, of, math::at(s.doses, i), math::at(s.grams, i));
    }
}

pub fn readings(out: &mut Text<'_>, s: &Subject<'_>, f: &Frame, g: usize)
    ensures { out.new ≡ wrote out.old (drawn_readings_text (subject_lists s.now) f.now g) }
{
    out.put(b"\"/>\n<g stroke=\"white\" stroke-width=\"0.7\" fill=\"");
    colour(out, g);
    out.put(b"\">\n");
    marks(out, s, f, g);
}
