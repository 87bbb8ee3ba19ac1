// A reading, entered into the lists.
ghost use Rattle.std.specs.Prelude.{◌≡◌, ◌≤◌, ◌<◌, IfOk, IfSome, length};
ghost use Rattle.read_table.specs.Table.{seen_canister, canister_of, enter_of, table_lists, CountsInBounds};

use crate::Table;
use crate::fault::TableFault;
use crate::row::Reading;
use text_buffer::Span;

// The canister that was seen under this name.
#[tactic(auto, unfolding(crate::specs::Table::seen_canister, crate::specs::Table::same_name))]
fn find(text: &[u8], seen: &[Span], name: &[u8]) -> Option<usize>
    ensures value { result ≡ seen_canister text.now seen.now name.now }
    ensures upper_bound { IfSome result (λ g. g < length seen.now) }
{
    seen.iter()
        .position(|other| text.get(other.start..other.stop) == Some(name))
}

// The canister of this name: one that was seen, or else a new one.
#[tactic(auto, using(crate::proofs::Spans::part_is_slice), unfolding(crate::specs::Table::canister_of))]
fn canister_of(
    text: &[u8],
    name: Span,
    read: &mut Table,
    names: &mut [Span],
) -> Result<usize, TableFault>
    requires { read.old.canisters ≤ length names.old }
    ensures value { (result, read.new, names.new) ≡ canister_of text.now name read.old names.old }
    ensures canisters { read.new.canisters ≤ length names.old }
    ensures count { (read.new.count ≡ read.old.count) × (read.new.lines ≡ read.old.lines) }
{
    let n = read.canisters;
    if let Some(group) = find(text, &names[..n], name.of(text)) {
        return Ok(group);
    }
    if n == names.len() {
        return Err(TableFault::TooManyCanisters);
    }
    names[n] = name;
    read.canisters += 1;
    Ok(n)
}

// One reading more. The lists are parameters: a struct of them would have to say in each contract, and of each list, that it is the same one still.
#[tactic(auto, unfolding(crate::specs::Table::enter_of))]
pub fn enter(
    text: &[u8],
    reading: Reading,
    read: &mut Table,
    doses: &mut [f64],
    grams: &mut [f64],
    groups: &mut [usize],
    names: &mut [Span],
) -> Result<(), TableFault>
    requires { CountsInBounds (table_lists read.old doses.old grams.old groups.old names.old) }
    ensures value { (result, table_lists read.new doses.new grams.new groups.new names.new)
        ≡ enter_of text.now reading (table_lists read.old doses.old grams.old groups.old names.old) }
    ensures in_bounds { CountsInBounds (table_lists read.new doses.new grams.new groups.new names.new) }
    ensures same_lines { read.new.lines ≡ read.old.lines }
{
    let i = read.count;
    if i == doses.len() || i == grams.len() || i == groups.len() {
        return Err(TableFault::TooManyReadings);
    }
    let group = canister_of(text, reading.name, read, names)?;
    doses[i] = reading.dose;
    grams[i] = reading.grams;
    groups[i] = group;
    read.count += 1;
    Ok(())
}
