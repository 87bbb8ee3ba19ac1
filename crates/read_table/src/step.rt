// One line after the other: what a line says, and what it changes.
ghost use Rattle.std.specs.Prelude.{◌≡◌, ◌≤◌, ◌<◌, ◌^◌, length};
ghost use Rattle.read_table.specs.Table.{settled_of, table_lists, table_state, next_line, CountsInBounds};

use crate::Table;
use crate::classes::{Stop, scan};
use crate::enter::enter;
use crate::fault::TableFault;
use crate::row::{Reading, Row, read_row};
use text_buffer::Span;

// The place of the next line, whether a line was more than blank, and what was read.
#[derive(Clone, Copy)]
pub struct Progress {
    pub at: usize,
    pub started: bool,
    pub read: Table,
}

// A header is skipped where no line before it was more than blank.
#[tactic(auto, unfolding(crate::specs::Table::settled_of))]
fn settled(row: Row, started: bool) -> Result<Option<Reading>, TableFault>
    ensures { result ≡ settled_of row started }
{
    if row.blank {
        return Ok(None);
    }
    if row.letters && !started {
        return if row.ordered {
            Ok(None)
        } else {
            Err(TableFault::HeaderOutOfOrder)
        };
    }
    row.reading.map(Some)
}

// The line at p's place.
#[tactic(auto, unfolding(crate::specs::Table::next_line))]
pub fn next_line(
    text: &[u8],
    p: &mut Progress,
    doses: &mut [f64],
    grams: &mut [f64],
    groups: &mut [usize],
    names: &mut [Span],
) -> Result<(), TableFault>
    requires at_in_bounds { (p.old.at < length text.now) × (p.old.read.lines < 2 ^ 63) }
    requires in_bounds { CountsInBounds (table_lists p.old.read doses.old grams.old groups.old names.old) }
    ensures value { (result, table_state p.new doses.new grams.new groups.new names.new)
        ≡ next_line text.now (table_state p.old doses.old grams.old groups.old names.old) }
    ensures in_bounds { CountsInBounds (table_lists p.new.read doses.new grams.new groups.new names.new) }
    ensures further { (p.old.at < p.new.at) × (p.old.read.lines ≤ p.old.at → p.new.read.lines ≤ p.new.at) }
{
    let end = scan(text, p.at, Stop::Newline);
    let row = read_row(&text[..end], p.at);
    let said = settled(row, p.started);
    p.at = end + 1;
    p.started |= !row.blank;
    p.read.lines += 1;
    match said? {
        Some(reading) => enter(text, reading, &mut p.read, doses, grams, groups, names),
        None => Ok(()),
    }
}
