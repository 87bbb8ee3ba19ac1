// A word of a table.
ghost use Rattle.std.specs.Prelude.{◌≡◌, map};
ghost use Rattle.text_buffer.specs.Text.{wrote};
ghost use Rattle.text_lines.specs.Lines.{word_text};

use text_buffer::Text;

// The word number k, from 0; nothing past the last.
#[tactic(auto, using(std::proofs::lemmas::Grind::common_steps, text_buffer::specs::laws::Text::wrote_none), unfolding(crate::specs::Lines::word_text))]
pub fn word(out: &mut Text<'_>, words: &[&[u8]], k: usize)
    ensures { out.new ≡ wrote out.old (word_text k (map (λ w. w.now) words.now)) }
{
    if let Some(word) = words.get(k) {
        out.put(word);
    }
}
