// One line: its three fields, and what they say.
ghost use Rattle.std.specs.Prelude.{◌≡◌, ◌≤◌, ◌<◌, ◌+◌, IfSome, IfOk, length};
ghost use Rattle.std.specs.List.{list_all};
ghost use Rattle.read_table.specs.Classes.{is_name_byte};
ghost use Rattle.read_decimal.specs.Decimal.{decimal_float};
ghost use Rattle.read_table.specs.Row.{Within, closing_quote, word_at, next_field, field_at, is_canister_name, comma_in, decimal_comma, decimal_fault, number_or_fault, field_number, reading_in, row_at};

use crate::classes::{Stop, is_name_byte, met, scan};
use crate::fault::TableFault;
use crate::header::columns_in_order;
use read_decimal::{DecimalError, read_decimal};
use text_buffer::Span;

// A field's bytes, and the place after it and its quotes.
#[derive(Clone, Copy)]
pub struct Word {
    pub bytes: Span,
    pub tail: usize,
}

// A field's bytes, the place after it and the spaces that follow, and the place of the next field.
#[derive(Clone, Copy)]
pub struct Field {
    pub bytes: Span,
    pub after: usize,
    pub next: usize,
}

// A dose, what was weighed, and where the canister's name stands.
#[derive(Clone, Copy)]
pub struct Reading {
    pub dose: f64,
    pub grams: f64,
    pub name: Span,
}

// What a line says. `blank`: it has nothing but spaces, or a comment; `letters`: its first two fields begin with letters, as a
// header's do; `ordered`: as a header, it names no column in another's place. Flags and no enum: a line of letters is a header
// only where all before it was blank, and `read_row` promises the other three of a blank line too.
#[derive(Clone, Copy)]
pub struct Row {
    pub blank: bool,
    pub letters: bool,
    pub ordered: bool,
    pub reading: Result<Reading, TableFault>,
}

// Where the quotes close that open at `at`.
#[tactic(auto, unfolding(crate::specs::Row::closing_quote))]
fn closing(line: &[u8], at: usize) -> Option<usize>
    ensures value { result ≡ closing_quote line.now at }
    ensures upper_bound { IfSome result (λ close. (at + 1 ≤ close) × (close < length line.now)) }
{
    if met(line, at, Stop::Quote) {
        let close = scan(line, at + 1, Stop::Quote);
        if close < line.len() {
            return Some(close);
        }
    }
    None
}

#[tactic(auto, unfolding(crate::specs::Row::word_at))]
fn read_word(line: &[u8], at: usize) -> Word
    ensures value { result ≡ word_at line.now at }
    ensures inside { at ≤ length line.now → Within line.now result.bytes × (result.tail ≤ length line.now) }
{
    match closing(line, at) {
        Some(close) => Word {
            bytes: Span {
                start: at + 1,
                stop: close,
            },
            tail: close + 1,
        },
        None => {
            let stop = scan(line, at, Stop::EndOfWord);
            Word {
                bytes: Span { start: at, stop },
                tail: stop,
            }
        }
    }
}

// The place of the next field, past a separator.
#[tactic(auto, unfolding(crate::specs::Row::next_field))]
fn next_field(line: &[u8], after: usize) -> usize
    ensures value { result ≡ next_field line.now after }
    ensures inside { after ≤ length line.now → result ≤ length line.now }
{
    if met(line, after, Stop::Separator) {
        scan(line, after + 1, Stop::EndOfSpaces)
    } else {
        after
    }
}

#[tactic(auto, unfolding(crate::specs::Row::field_at))]
fn read_field(line: &[u8], at: usize) -> Field
    ensures value { result ≡ field_at line.now at }
    ensures inside { at ≤ length line.now → Within line.now result.bytes × (result.next ≤ length line.now) }
{
    let word = read_word(line, at);
    let after = scan(line, word.tail, Stop::EndOfSpaces);
    Field {
        bytes: word.bytes,
        after,
        next: next_field(line, after),
    }
}

fn are_name_bytes(bytes: &[u8]) -> bool
    ensures { result ≡ list_all is_name_byte bytes.now }
{
    bytes.iter().all(|b| is_name_byte(*b))
}

// Whether the bytes are a name: 1 to 32 of them, each one that a name may have.
#[tactic(auto, unfolding(crate::specs::Row::is_canister_name))]
fn named(name: &[u8]) -> bool
    ensures { result ≡ is_canister_name name.now }
{
    !name.is_empty() && name.len() <= 32 && are_name_bytes(name)
}

// The fault of a number; `no_decimal` is the one of a field that is none.
fn told(error: DecimalError, no_decimal: TableFault) -> TableFault
    ensures { result ≡ decimal_fault no_decimal error }
{
    match error {
        DecimalError::NotADecimal => no_decimal,
        DecimalError::TooManyDigits => TableFault::TooManyDigits,
        DecimalError::PowerOutOfRange => TableFault::PowerOutOfRange,
    }
}

fn read_number(field: &[u8], no_decimal: TableFault) -> Result<f64, TableFault>
    ensures { result ≡ number_or_fault no_decimal (decimal_float field.now) }
{
    read_decimal(field).map_err(|error| told(error, no_decimal))
}

// Whether a field's bytes hold a comma.
#[tactic(auto, unfolding(crate::specs::Row::comma_in))]
fn comma_in(field: &[u8]) -> bool
    ensures { result ≡ comma_in field.now }
{
    field.contains(&b',')
}

// Whether a comma stands inside a number, or separates on one side of the grams and not on the other.
#[tactic(auto, using(crate::proofs::Spans::part_is_slice), unfolding(crate::specs::Row::decimal_comma))]
fn decimal_comma(line: &[u8], d: Field, g: Field) -> bool
    ensures { result ≡ decimal_comma line.now d g }
{
    comma_in(d.bytes.of(line))
        || comma_in(g.bytes.of(line))
        || (g.next < line.len()
            && met(line, d.after, Stop::Comma) != met(line, g.after, Stop::Comma))
}

// What three fields say.
#[tactic(auto, using(crate::proofs::Spans::part_is_slice), unfolding(crate::specs::Row::reading_in))]
fn read_reading(line: &[u8], d: Field, g: Field, c: Field) -> Result<Reading, TableFault>
    ensures value { result ≡ reading_in line.now d g c }
    ensures name { IfOk result (λ r. r.name ≡ c.bytes) }
{
    if decimal_comma(line, d, g) {
        return Err(TableFault::DecimalComma);
    }
    let three = g.next < line.len() && c.after == line.len();
    if !three {
        return Err(TableFault::NotThreeFields);
    }
    let dose = read_number(d.bytes.of(line), TableFault::DoseNotADecimal)?;
    let grams = read_number(g.bytes.of(line), TableFault::GramsNotADecimal)?;
    if !named(c.bytes.of(line)) {
        return Err(TableFault::NotAName);
    }
    Ok(Reading {
        dose,
        grams,
        name: c.bytes,
    })
}

// The line ends with `line`; it begins at `at`.
#[tactic(auto, unfolding(crate::specs::Row::row_at))]
pub fn read_row(line: &[u8], at: usize) -> Row
    ensures value { result ≡ row_at line.now at }
    ensures start_le_stop { at ≤ length line.now → IfOk result.reading (λ r. Within line.now r.name) }
{
    let first = scan(line, at, Stop::EndOfSpaces);
    let d = read_field(line, first);
    let g = read_field(line, d.next);
    let c = read_field(line, g.next);
    Row {
        blank: first == line.len() || met(line, first, Stop::Comment),
        letters: met(line, d.bytes.start, Stop::Letter) && met(line, g.bytes.start, Stop::Letter),
        ordered: columns_in_order(line, d.bytes.start, g.bytes.start, c.bytes.start),
        reading: read_reading(line, d, g, c),
    }
}
