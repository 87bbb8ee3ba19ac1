// A picture of the readings with each canister's fitted curve, as SVG: 960 by 510, the frame from 70 to 670 and from 50 to 450.
#![tactic(auto)]

pub mod framing;

ghost use Rattle.std.specs.Prelude.{◌≡◌, length};
ghost use Rattle.text_buffer.specs.Text.{wrote};
ghost use Rattle.svg_marks.specs.Escape.{each_text};
ghost use Rattle.svg_axes.specs.Subject.{subject_lists};
ghost use Rattle.svg_picture.specs.Picture.{drawn_canister_text, drawn_text, picture_text};

use crate::framing::framing;
use svg_axes::frame::{Frame, frame_of};
use svg_axes::subject::Subject;
use svg_series::legend::legend;
use svg_series::series::{curve, readings};
use text_buffer::Text;

// Canister g: its curve, its readings and its row of the legend; `s`, `f` and `g` apart, as in svg_series.
#[tactic(auto, using(text_buffer::specs::laws::Text::writing), unfolding(crate::specs::Picture::drawn_canister_text))]
fn canister(out: &mut Text<'_>, s: &Subject<'_>, f: &Frame, g: usize)
    ensures { out.new ≡ wrote out.old (drawn_canister_text (subject_lists s.now) f.now g) }
{
    curve(out, s, f, g);
    readings(out, s, f, g);
    legend(out, s, g);
}

// A loop of its own, as other texts over a count have one: one for all would take a closure, and what it writes as a ghost value.
#[tactic(auto, using(svg_marks::proofs::Laws::running))]
fn canisters(out: &mut Text<'_>, s: &Subject<'_>, f: &Frame)
    ensures { out.new ≡ wrote out.old (each_text (drawn_canister_text (subject_lists s.now) f.now) (length s.now.effects.now)) }
{
    for g in 0..s.effects.len() {
        canister(out, s, f, g);
    }
}

fn drawn(out: &mut Text<'_>, s: &Subject<'_>, f: &Frame, example: bool, said: &[u8])
    ensures { out.new ≡ wrote out.old (drawn_text (subject_lists s.now) f.now example said.now) }
{
    out.put(
        b"<svg xmlns=\"http://www.w3.org/2000/svg\" width=\"960\" height=\"510\" viewBox=\"0 0 960 510\"\n font-family=\"Helvetica, Arial, sans-serif\" font-size=\"12\" fill=\"#222222\">\n<rect width=\"960\" height=\"510\" fill=\"white\"/>\n",
    );
    framing(out, s.curve, f, example, said);
    canisters(out, s, f);
    out.put(b"</svg>\n");
}

// The whole picture, with what its title says after the curve's name; nothing is written where the readings span no range
// that can be drawn. `example` is no part of the subject, by which nothing but the labels goes.
#[tactic(auto, using(text_buffer::specs::laws::Text::writing), unfolding(crate::specs::Picture::picture_text))]
pub fn draw(out: &mut Text<'_>, s: &Subject<'_>, example: bool, said: &[u8])
    ensures { out.new ≡ wrote out.old (picture_text (subject_lists s.now) example said.now) }
{
    if let Some(f) = frame_of(s) {
        drawn(out, s, &f, example, said);
    }
}
