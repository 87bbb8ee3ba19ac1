// Reads a table of readings: a line for each, with dose, grams and canister.
#![tactic(auto)]

pub mod classes;
pub mod enter;
pub mod fault;
pub mod header;
pub mod row;
pub mod step;

ghost use Rattle.std.specs.Prelude.{◌≡◌, length};
ghost use Rattle.read_table.specs.Table.{after_mark, table_of, finish_of, table_lists, read_so_far, CountsInBounds};

use crate::fault::TableFault;
use crate::step::{Progress, next_line};
use text_buffer::Span;

// What was read: the lines, and at the front of the lists the readings and the canisters' names.
#[derive(Clone, Copy, Debug, PartialEq, Eq)]
pub struct Table {
    pub lines: u64,
    pub count: usize,
    pub canisters: usize,
}

// A fault, and what was read up to it, with the line that has it.
#[derive(Clone, Copy, Debug, PartialEq, Eq)]
pub struct TableError {
    pub fault: TableFault,
    pub read: Table,
}

// The place after a byte order mark, which some programs put before the first line.
#[tactic(auto, unfolding(crate::specs::Table::after_mark))]
fn after_mark(text: &[u8]) -> usize
    ensures { result ≡ after_mark text.now }
{
    if text.starts_with(b"\xef\xbb\xbf") {
        3
    } else {
        0
    }
}

#[tactic(auto, using(crate::proofs::LinesLaws::turn, crate::proofs::LinesLaws::lines_end), unfolding(crate::specs::Table::table_of))]
// The readings of `text`, entered at the front of the lists, which say how many are taken: a list for
// each, as a fit takes them. The name of canister g is text[names[g].start..names[g].stop].
pub fn read_table(
    text: &[u8],
    doses: &mut [f64],
    grams: &mut [f64],
    groups: &mut [usize],
    names: &mut [Span],
) -> Result<Table, TableError>
    ensures value { result ≡ finish_of (table_of text.now doses.old grams.old groups.old names.old) }
    ensures lists_after { table_lists (read_so_far result) doses.new grams.new groups.new names.new
        ≡ (table_of text.now doses.old grams.old groups.old names.old).1.read }
    ensures count_in_bounds { CountsInBounds (table_lists (read_so_far result) doses.new grams.new groups.new names.new) }
{
    let mut p = Progress {
        at: after_mark(text),
        started: false,
        read: Table {
            lines: 0,
            count: 0,
            canisters: 0,
        },
    };
    // By place: how far a line goes is known once it is read.
    while p.at < text.len() {
        if let Err(fault) = next_line(text, &mut p, doses, grams, groups, names) {
            return Err(TableError {
                fault,
                read: p.read,
            });
        }
    }
    if p.read.count == 0 {
        return Err(TableError {
            fault: TableFault::NoReadings,
            read: p.read,
        });
    }
    Ok(p.read)
}
