// A line of a text with numbers in it: a template's bytes as they stand, but for marks of two bytes, `%n`, `%g`, `%1`.
ghost use Rattle.std.specs.Prelude.{◌≡◌, drop};
ghost use Rattle.std.specs.Slice.Iter.{iter_rest};
ghost use Rattle.text_buffer.specs.Text.{wrote, whole_text};
ghost use Rattle.text_floats.specs.Floats.{figure_text};
ghost use Rattle.text_lines.specs.Lines.{next_number, one_decimal, for_mark, wholes_after, floats_after, template_text};

use std::slice::Iter;
use text_buffer::Text;
use text_floats::{figure, fixed};

// What stands in a line: a number in one of the ways of the marks, or a byte as it is.
#[derive(Clone, Copy)]
enum Item {
    Whole(u64),
    Figure(f64),
    OneDecimal(f64),
    Byte(u8),
}

// What a byte after `%` stands for.
#[tactic(auto, unfolding(crate::specs::Lines::one_decimal, crate::specs::Lines::for_mark, crate::specs::Lines::wholes_after, crate::specs::Lines::floats_after))]
fn mark(out: &mut Text<'_>, c: u8, wholes: &mut Iter<'_, u64>, floats: &mut Iter<'_, f64>)
    ensures text { out.new ≡ wrote out.old (for_mark c (iter_rest wholes.old) (iter_rest floats.old)) }
    ensures wholes { iter_rest wholes.new ≡ wholes_after c (iter_rest wholes.old) }
    ensures floats { iter_rest floats.new ≡ floats_after c (iter_rest floats.old) }
{
    let item = match c {
        b'n' => wholes.next().map(|n| Item::Whole(*n)),
        b'g' => floats.next().map(|x| Item::Figure(*x)),
        b'1' => floats.next().map(|x| Item::OneDecimal(*x)),
        _ => Some(Item::Byte(c)),
    };
    match item {
        Some(Item::Whole(n)) => out.whole(n),
        Some(Item::Figure(x)) => figure(out, x),
        Some(Item::OneDecimal(x)) => fixed(out, x, 1),
        Some(Item::Byte(b)) => out.byte(b),
        None => out.byte(b'?'),
    }
}

// The template with the numbers in the place of its marks, each taken once, in order; `?` where none is left.
#[tactic(auto, using(crate::proofs::Lines::filling))]
pub fn fill(out: &mut Text<'_>, template: &[u8], wholes: &[u64], floats: &[f64])
    ensures { out.new ≡ wrote out.old (template_text template.now wholes.now floats.now) }
{
    let mut wholes = wholes.iter();
    let mut floats = floats.iter();
    let mut bytes = template.iter();
    // No `for`: a mark takes its second byte from the same iterator.
    while let Some(&b) = bytes.next() {
        if b != b'%' {
            out.byte(b);
            continue;
        }
        let Some(&c) = bytes.next() else {
            return;
        };
        mark(out, c, &mut wholes, &mut floats);
    }
}
