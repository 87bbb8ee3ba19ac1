// A header: which column each of its names means.
ghost use Rattle.std.specs.Prelude.{◌≡◌};
ghost use Rattle.read_table.specs.Header.{is_column_word, column_at, fits_column, columns_in_order};

use crate::classes::{Stop, scan};
use text_buffer::Span;
use text_lines::same::is_among;

#[derive(Clone, Copy, Debug, PartialEq, Eq)]
pub enum Column {
    Dose,
    Grams,
    Canister,
}

const COLUMNS: [Column; 3] = [Column::Dose, Column::Grams, Column::Canister];

impl Column {
    // Whether the word, in capitals or small letters, is one of the five that stand for the column.
    #[tactic(auto, unfolding(crate::specs::Header::is_column_word))]
    fn has(self, word: &[u8]) -> bool
        ensures { result ≡ is_column_word word.now self }
    {
        match self {
            Column::Dose => is_among(&[b"dose", b"doses", b"steps", b"age", b"conc"], word),
            Column::Grams => is_among(
                &[b"grams", b"weight", b"density", b"height", b"circumference"],
                word,
            ),
            Column::Canister => is_among(&[b"canister", b"tree", b"seed", b"run", b"group"], word),
        }
    }
}

// The column that a field's first letters name, where they are a known word.
#[tactic(auto, using(crate::proofs::Spans::part_is_slice), unfolding(crate::specs::Header::column_at))]
fn column_at(line: &[u8], start: usize) -> Option<Column>
    ensures { result ≡ column_at line.now start }
{
    let stop = scan(line, start, Stop::EndOfLetters);
    let letters = Span { start, stop }.of(line);
    COLUMNS.iter().copied().find(|column| column.has(letters))
}

// Whether a field names this column, or none.
#[tactic(auto, unfolding(crate::specs::Header::fits_column))]
fn fits(line: &[u8], start: usize, column: Column) -> bool
    ensures { result ≡ fits_column line.now start column }
{
    match column_at(line, start) {
        None => true,
        Some(named) => named == column,
    }
}

// Whether no field of a header names another column than its own.
#[tactic(auto, unfolding(crate::specs::Header::columns_in_order))]
pub fn columns_in_order(line: &[u8], dose: usize, grams: usize, canister: usize) -> bool
    ensures { result ≡ columns_in_order line.now dose grams canister }
{
    fits(line, dose, Column::Dose)
        && fits(line, grams, Column::Grams)
        && fits(line, canister, Column::Canister)
}
