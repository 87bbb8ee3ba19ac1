// A number of the picture, and the colour and the shape of a canister's marks: eight colours that the colour-blind tell apart (Okabe and Ito, with grey
// in place of yellow, which is too light on white) and five shapes. No two of 32 canisters have both alike.
#![tactic(auto)]

pub mod escape;

ghost use Rattle.std.specs.Prelude.{◌≡◌};
ghost use Rattle.text_buffer.specs.Text.{wrote};
ghost use Rattle.svg_marks.specs.Marks.{number_text, colour_text, path_text, shape_text};

use text_buffer::Text;
use text_floats::fixed;
use text_lines::words::word;

// How far below the middle of what a text stands beside its letters stand.
pub const BASELINE: f64 = 4.0;

// A text and then a number with one decimal.
#[tactic(auto, using(text_buffer::specs::laws::Text::writing))]
pub fn number(out: &mut Text<'_>, before: &[u8], x: f64)
    ensures { out.new ≡ wrote out.old (number_text before.now x) }
{
    out.put(before);
    fixed(out, x, 1);
}

const COLOURS: [&[u8]; 8] = [
    b"#0072B2", b"#D55E00", b"#009E73", b"#CC79A7", b"#E69F00", b"#56B4E9", b"#000000", b"#999999",
];

#[tactic(auto, unfolding(crate::specs::Marks::colour_text))]
pub fn colour(out: &mut Text<'_>, g: usize)
    ensures { out.new ≡ wrote out.old (colour_text g) }
{
    word(out, &COLOURS, g % COLOURS.len());
}

// A circle, a square, a triangle, a diamond, a triangle on its point.
const SHAPES: [&[u8]; 5] = [
    b"m-4 0a4 4 0 1 0 8 0a4 4 0 1 0-8 0z",
    b"m-3.6-3.6h7.2v7.2h-7.2z",
    b"m0-4.8l4.4 7.8h-8.8z",
    b"m0-5l4.6 5l-4.6 5l-4.6-5z",
    b"m0 4.8l4.4-7.8h-8.8z",
];

#[tactic(auto, unfolding(crate::specs::Marks::path_text))]
fn path(out: &mut Text<'_>, g: usize)
    ensures { out.new ≡ wrote out.old (path_text g) }
{
    word(
        out,
        &SHAPES,
        (g % COLOURS.len() + g / COLOURS.len() * 4) % SHAPES.len(),
    );
}

// What follows a path's first point.
#[tactic(auto, using(text_buffer::specs::laws::Text::writing), unfolding(crate::specs::Marks::shape_text))]
pub fn shape(out: &mut Text<'_>, g: usize)
    ensures { out.new ≡ wrote out.old (shape_text g) }
{
    path(out, g);
    out.put(b"\"/>\n");
}
