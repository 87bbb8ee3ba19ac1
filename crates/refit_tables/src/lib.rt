// The two tables of a report: each canister's own curve, and each reading beside its curve.
#![tactic(auto)]

ghost use Rattle.std.specs.Prelude.{◌≡◌, length};
ghost use Rattle.curves.specs.MeanFn.{code_of};
ghost use Rattle.text_buffer.specs.Text.{wrote};
ghost use Rattle.svg_axes.specs.Subject.{subject_lists};
ghost use Rattle.svg_marks.specs.Escape.{each_text};
ghost use Rattle.refit_tables.specs.Tables.{name_cell_text, first_column_text, decimals_for, own_value_text, own_text, row_with_effect, canister_row, heads_text, canisters_table_text, reading_row, reading_rows, readings_table_text};

use curves::Curve;
use svg_axes::curve_at;
use svg_axes::subject::{Subject, value_names};
use text_buffer::Text;
use text_floats::decimals;
use text_lines::columns;

// A canister's name, at the left of 14 places.
#[tactic(auto, unfolding(crate::specs::Tables::name_cell_text))]
fn name(out: &mut Text<'_>, s: &Subject<'_>, g: usize)
    ensures { out.new ≡ wrote out.old (name_cell_text (subject_lists s.now) g) }
{
    columns::left(out, 14, s.name(g));
}

#[tactic(auto, using(text_buffer::specs::laws::Text::writing), unfolding(crate::specs::Tables::first_column_text))]
fn canister(out: &mut Text<'_>, s: &Subject<'_>, g: usize)
    ensures { out.new ≡ wrote out.old (first_column_text (subject_lists s.now) g) }
{
    out.put(b"  ");
    name(out, s, g);
}

// The decimals of a column whose numbers are about this size: six significant digits.
#[tactic(auto, unfolding(crate::specs::Tables::decimals_for))]
fn decimals_for(size: f64) -> u64
    ensures { result ≡ decimals_for size }
{
    if size < 1e-5 {
        6
    } else {
        decimals(size).saturating_sub(1)
    }
}

// Value i of a canister: where the effect stands, with it.
fn own_value(out: &mut Text<'_>, s: &Subject<'_>, effect: f64, value: f64, i: usize)
    ensures { out.new ≡ wrote out.old (own_value_text (subject_lists s.now) effect value i) }
{
    let own = if i == s.place { value + effect } else { value };
    columns::fixed(out, 13, own, decimals_for(math::abs(value)));
}

// A loop of one call, as of canister_rows and of svg_picture's canisters: each calls a function of its own.
#[tactic(auto, using(svg_marks::proofs::Laws::running), unfolding(crate::specs::Tables::own_text))]
fn own_values(out: &mut Text<'_>, s: &Subject<'_>, effect: f64)
    ensures { out.new ≡ wrote out.old (each_text (own_text (subject_lists s.now) effect) (length s.now.values.now)) }
{
    for (i, &value) in s.values.iter().enumerate() {
        own_value(out, s, effect, value, i);
    }
}

#[tactic(auto, using(text_buffer::specs::laws::Text::writing), unfolding(crate::specs::Tables::row_with_effect))]
fn canister_row(out: &mut Text<'_>, s: &Subject<'_>, effect: f64, g: usize)
    ensures { out.new ≡ wrote out.old (row_with_effect (subject_lists s.now) effect g) }
{
    let d = decimals_for(math::abs(math::at(s.values, s.place)));
    canister(out, s, g);
    columns::fixed(out, 13, effect, d);
    own_values(out, s, effect);
    out.put(b"\n");
}

#[tactic(auto, using(svg_marks::proofs::Laws::running), unfolding(crate::specs::Tables::canister_row))]
fn canister_rows(out: &mut Text<'_>, s: &Subject<'_>)
    ensures { out.new ≡ wrote out.old (each_text (canister_row (subject_lists s.now)) (length s.now.effects.now)) }
{
    for (g, &effect) in s.effects.iter().enumerate() {
        canister_row(out, s, effect, g);
    }
}

// Over the values their names.
#[tactic(auto, using(std::proofs::lemmas::Grind::common_steps, text_buffer::specs::laws::Text::writing))]
fn heads(out: &mut Text<'_>, curve: Curve)
    ensures { out.new ≡ wrote out.old (heads_text (code_of curve)) }
{
    let names = value_names(curve);
    for &name in names {
        columns::right(out, 13, name);
    }
}

pub fn canisters(out: &mut Text<'_>, s: &Subject<'_>)
    ensures { out.new ≡ wrote out.old (canisters_table_text (subject_lists s.now)) }
{
    out.put(b"\nEach canister's own curve\n  canister             effect");
    heads(out, s.curve);
    out.put(b"\n");
    canister_rows(out, s);
}

// Reading i, of canister g: what was weighed, what the curve says, and the difference, with so many decimals.
#[tactic(auto, using(text_buffer::specs::laws::Text::writing), unfolding(crate::specs::Tables::reading_row))]
fn reading_row(out: &mut Text<'_>, s: &Subject<'_>, d: u64, g: usize, i: usize)
    ensures { out.new ≡ wrote out.old (reading_row (subject_lists s.now) d g i) }
{
    let dose = math::at(s.doses, i);
    let grams = math::at(s.grams, i);
    let says = curve_at(s, g, dose);
    canister(out, s, g);
    columns::figure(out, 13, dose);
    columns::figure(out, 13, grams);
    columns::fixed(out, 13, says, d);
    columns::fixed(out, 14, grams - says, d);
    out.put(b"\n");
}

#[tactic(auto, using(svg_marks::proofs::Laws::running), unfolding(crate::specs::Tables::reading_rows))]
fn reading_rows(out: &mut Text<'_>, s: &Subject<'_>, d: u64)
    ensures { out.new ≡ wrote out.old (reading_rows (subject_lists s.now) d) }
{
    for (i, &g) in s.groups.iter().enumerate() {
        reading_row(out, s, d, g, i);
    }
}

pub fn readings(out: &mut Text<'_>, s: &Subject<'_>)
    ensures { out.new ≡ wrote out.old (readings_table_text (subject_lists s.now)) }
{
    let d = decimals_for(math::largest(s.grams));
    out.put(
        b"\nEach reading\n  canister               dose      weighed   curve says    difference\n",
    );
    reading_rows(out, s, d);
}
