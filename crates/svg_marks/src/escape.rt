// Text inside an XML element.
ghost use Rattle.std.specs.Prelude.{◌≡◌};
ghost use Rattle.std.specs.List.{flat_map};
ghost use Rattle.text_buffer.specs.Text.{wrote};
ghost use Rattle.svg_marks.specs.Escape.{escaped_byte};

use text_buffer::Text;

// The four characters that XML keeps for itself by their names, `?` for what ASCII does not print.
#[tactic(auto, unfolding(crate::specs::Escape::escaped_byte))]
fn byte(out: &mut Text<'_>, b: u8)
    ensures { out.new ≡ wrote out.old (escaped_byte b) }
{
    match b {
        b'&' => out.put(b"&amp;"),
        b'<' => out.put(b"&lt;"),
        b'>' => out.put(b"&gt;"),
        b'"' => out.put(b"&quot;"),
        b' '..=b'~' => out.byte(b),
        _ => out.byte(b'?'),
    }
}

#[tactic(auto, using(std::proofs::lemmas::Grind::common_steps, text_buffer::specs::laws::Text::writing))]
pub fn escaped(out: &mut Text<'_>, text: &[u8])
    ensures { out.new ≡ wrote out.old (flat_map escaped_byte text.now) }
{
    for &b in text {
        byte(out, b);
    }
}
