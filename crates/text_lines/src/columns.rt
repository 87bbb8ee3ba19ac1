// Columns: text at the right or the left of a given width, spaces beside it. A text that is wider is written whole.
ghost use Rattle.std.specs.Prelude.{◌-◌, ◌≡◌, ◌++◌, ℕ, List, drop, length, replicate, take};
ghost use Rattle.std.specs.Borrow.{MutBor};
ghost use Rattle.std.specs.Fn.{FnOnceReturnsAtMut};
ghost use Rattle.text_buffer.specs.Text.{Written, empty, text, wrote};
ghost use Rattle.text_floats.specs.Floats.{fixed_text, figure_text};
ghost use Rattle.text_lines.specs.Lines.{spaces, left_text, right_text, cell_text};

use text_buffer::Text;

// Spaces from n places up to the width.
#[tactic(auto, using(crate::proofs::Lines::padding))]
fn pad(out: &mut Text<'_>, width: usize, n: usize)
    ensures { out.new ≡ wrote out.old (spaces (width - n)) }
{
    for _i in n..width {
        out.byte(b' ');
    }
}

#[tactic(auto, using(text_buffer::specs::laws::Text::writing), unfolding(crate::specs::Lines::right_text))]
pub fn right(out: &mut Text<'_>, width: usize, text: &[u8])
    ensures { out.new ≡ wrote out.old (right_text width text.now) }
{
    pad(out, width, text.len());
    out.put(text);
}

#[tactic(auto, using(text_buffer::specs::laws::Text::writing), unfolding(crate::specs::Lines::left_text))]
pub fn left(out: &mut Text<'_>, width: usize, text: &[u8])
    ensures { out.new ≡ wrote out.old (left_text width text.now) }
{
    out.put(text);
    pad(out, width, text.len());
}

// A number's text is written into a room first, as its length is known only then; it is fixed, as there is no heap.
const ROOM: usize = 64;

// What `write` leaves in an empty room, at the right of the width.
fn cell<F: FnOnce(&mut Text<'_>)>(out: &mut Text<'_>, width: usize, write: F)
    requires { F.IsAlwaysCallable write }
    ensures { (room : MutBor (List ℕ)) × (t : Written) × (room.now ≡ replicate 64 0) × FnOnceReturnsAtMut F.FnOnce write (empty room) tt t × (out.new ≡ wrote out.old (right_text width (text t))) }
{
    let mut room = [0; ROOM];
    let mut text = Text::new(&mut room);
    write(&mut text);
    right(out, width, text.written());
}

// A number at the right of the width.
#[tactic(auto, using(text_buffer::specs::laws::Text::held))]
pub fn fixed(out: &mut Text<'_>, width: usize, x: f64, decimals: u64)
    ensures { out.new ≡ wrote out.old (cell_text width (fixed_text x decimals)) }
{
    cell(out, width, |text| text_floats::fixed(text, x, decimals));
}

#[tactic(auto, using(text_buffer::specs::laws::Text::held))]
pub fn figure(out: &mut Text<'_>, width: usize, x: f64)
    ensures { out.new ≡ wrote out.old (cell_text width (figure_text x)) }
{
    cell(out, width, |text| text_floats::figure(text, x));
}

#[cfg(test)]
mod tests {
    use super::*;

    // Whoever lends a buffer knows each byte of it afterwards: what was written, then the rest as it was.
    #[tactic(auto, using(text_buffer::specs::laws::Text::lending))]
    fn lend(out: &mut [u8], width: usize, word: &[u8])
        ensures { out.new ≡ take (length out.old) (right_text width word.now) ++ drop (length (right_text width word.now)) out.old }
    {
        let mut text = Text::new(out);
        right(&mut text, width, word);
    }

    #[test]
    fn the_lender_knows_each_byte(rt: HostRuntime) {
        let mut out = *b"......";
        lend(&mut out, 4, b"ok");
        assert!(rt; out == *b"  ok..");
    }
}
