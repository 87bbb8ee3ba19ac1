// Words, capitals and small letters alike.
ghost use Rattle.std.specs.Prelude.{◌≡◌, map, position};
ghost use Rattle.std.specs.List.{list_any};
ghost use Rattle.std.specs.Str.{str_eq_ignore_ascii_case};

// Std's `eq_ignore_ascii_case` by a short name, for options told one by one: `same_word(b"--ml", word)` beside `is_among(&[..], word)`.
pub fn same_word(a: &[u8], b: &[u8]) -> bool
    ensures { result ≡ str_eq_ignore_ascii_case a.now b.now }
{
    a.eq_ignore_ascii_case(b)
}

pub fn is_among(words: &[&[u8]], word: &[u8]) -> bool
    ensures { result ≡ list_any (λ w. str_eq_ignore_ascii_case w.now word.now) words.now }
{
    words.iter().any(|w| w.eq_ignore_ascii_case(word))
}

fn place_among(words: &[&[u8]], word: &[u8]) -> Option<usize>
    ensures { result ≡ position (λ w. str_eq_ignore_ascii_case w.now word.now) words.now }
{
    words.iter().position(|w| w.eq_ignore_ascii_case(word))
}

// The place of the first of the words that is this one.
#[tactic(auto, using(crate::proofs::Sought::position_of_map))]
pub fn find_word(words: &[&[u8]], word: &[u8]) -> Option<usize>
    ensures { result ≡ position (λ w. str_eq_ignore_ascii_case w word.now) (map (λ w. w.now) words.now) }
{
    place_among(words, word)
}
