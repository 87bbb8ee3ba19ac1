// The title, the axes with their grid, and what stands at them.
ghost use Rattle.std.specs.Prelude.{◌≡◌};
ghost use Rattle.curves.specs.MeanFn.{code_of};
ghost use Rattle.text_buffer.specs.Text.{wrote};
ghost use Rattle.svg_picture.specs.Framing.{grid_text, tick_text, ticks_text, title_text, axes_text, noted, labels_text, framing_text};

use curves::Curve;
use svg_axes::axes::{Axis, x_pixel, y_pixel};
use svg_axes::frame::Frame;
use svg_axes::subject::curve_name;
use svg_marks::{BASELINE, number};
use text_buffer::Text;
use text_floats::fixed;

// Which way an axis runs: the doses across the picture, the grams up.
#[derive(Clone, Copy, Debug, PartialEq, Eq)]
pub enum Way {
    Across,
    Up,
}

// A line of the grid, up to where its label stands.
fn grid(out: &mut Text<'_>, a: Axis, way: Way, v: f64)
    ensures { out.new ≡ wrote out.old (grid_text a way v) }
{
    match way {
        Way::Across => {
            let x = x_pixel(a, v);
            number(out, b"<path stroke=\"#dddddd\" d=\"M", x);
            number(
                out,
                b" 50V450\"/><text text-anchor=\"middle\" y=\"468\" x=\"",
                x,
            );
        }
        Way::Up => {
            let y = y_pixel(a, v);
            number(out, b"<path stroke=\"#dddddd\" d=\"M70 ", y);
            number(
                out,
                b"H670\"/><text text-anchor=\"end\" x=\"62\" y=\"",
                y + BASELINE,
            );
        }
    }
}

fn tick(out: &mut Text<'_>, a: Axis, way: Way, i: u64)
    ensures { out.new ≡ wrote out.old (tick_text a way i) }
{
    let v = (a.first + std::num::nearest_u64_to_f64(i)) * a.step;
    grid(out, a, way, v);
    out.put(b"\">");
    fixed(out, v, a.decimals);
    out.put(b"</text>\n");
}

#[tactic(auto, using(svg_marks::proofs::Laws::running), unfolding(crate::specs::Framing::ticks_text))]
fn ticks(out: &mut Text<'_>, a: Axis, way: Way)
    ensures { out.new ≡ wrote out.old (ticks_text a way) }
{
    for i in 0..=a.count {
        tick(out, a, way, i);
    }
}

fn axes(out: &mut Text<'_>, f: &Frame)
    ensures { out.new ≡ wrote out.old (axes_text f.now) }
{
    ticks(out, f.x, Way::Across);
    out.put(b"<path stroke=\"#222222\" d=\"M70 450H670\"/>\n");
    ticks(out, f.y, Way::Up);
    out.put(b"<path stroke=\"#222222\" d=\"M70 50V450\"/>\n");
}

// The curve's name, and then what is shown, or why it is not to be used.
fn title(out: &mut Text<'_>, curve: Curve, said: &[u8])
    ensures { out.new ≡ wrote out.old (title_text (code_of curve) said.now) }
{
    out.put(b"<text x=\"70\" y=\"30\" font-size=\"16\" font-weight=\"bold\">");
    out.put(curve_name(curve));
    out.put(said);
    out.put(b"</text>\n");
}

// A label, and what it is in the example.
#[tactic(auto, using(text_buffer::specs::laws::Text::writing))]
fn labelled(out: &mut Text<'_>, label: &[u8], example: bool, note: &[u8])
    ensures { out.new ≡ wrote out.old (noted label.now example note.now) }
{
    out.put(label);
    if example {
        out.put(note);
    }
}

fn labels(out: &mut Text<'_>, example: bool)
    ensures { out.new ≡ wrote out.old (labels_text example) }
{
    labelled(
        out,
        b"<text x=\"370\" y=\"492\" text-anchor=\"middle\">dose",
        example,
        b" (Orange: the tree's age in days)",
    );
    labelled(
        out,
        b"</text>\n<text transform=\"translate(20 250) rotate(-90)\" text-anchor=\"middle\">grams",
        example,
        b" (Orange: the trunk's circumference in mm)",
    );
    labelled(
        out,
        b"</text>\n<text x=\"694\" y=\"40\">canister",
        example,
        b" (Orange: tree)",
    );
    out.put(b"</text>\n");
}

#[tactic(auto, using(text_buffer::specs::laws::Text::writing), unfolding(crate::specs::Framing::framing_text))]
pub fn framing(out: &mut Text<'_>, curve: Curve, f: &Frame, example: bool, said: &[u8])
    ensures { out.new ≡ wrote out.old (framing_text (code_of curve) f.now example said.now) }
{
    title(out, curve, said);
    axes(out, f);
    labels(out, example);
}
