// What a word names, and meanings in words.
ghost use Rattle.std.specs.Prelude.{◌≡◌};
ghost use Rattle.curves.specs.MeanFn.{code_of};
ghost use Rattle.text_buffer.specs.Text.{wrote};
ghost use Rattle.refit_options.specs.Words.{is_value_name, value_place, is_curve_name, curve_named, value_name_text, equation, curve_equation_text, refusal_text, table_fault_text, line_fault_text};

use curves::Curve;
use read_table::fault::TableFault;
use refusal::Refusal;
use svg_axes::subject::{curve_name, value_names};
use text_buffer::Text;
use text_lines::same::{find_word, same_word};

const CURVES: [Curve; 4] = [
    Curve::Sslogis,
    Curve::Ssasymp,
    Curve::Ssmicmen,
    Curve::Ssfpl,
];

// The place of a name among those of a curve's values.
#[tactic(auto, unfolding(crate::specs::Words::value_place))]
pub fn place_of(curve: Curve, word: &[u8]) -> Option<usize>
    ensures { result ≡ value_place (code_of curve) word.now }
{
    find_word(value_names(curve), word)
}

// Whether a word names a value of some curve.
#[tactic(auto, unfolding(crate::specs::Words::is_value_name))]
pub fn is_name(word: &[u8]) -> bool
    ensures { result ≡ is_value_name word.now }
{
    CURVES.iter().any(|curve| place_of(*curve, word).is_some())
}

fn is_curve(curve: Curve, word: &[u8]) -> bool
    ensures { result ≡ is_curve_name word.now curve }
{
    same_word(curve_name(curve), word)
}

// The curve that a word names.
#[tactic(auto, unfolding(crate::specs::Words::curve_named))]
pub fn curve_named(word: &[u8]) -> Option<Curve>
    ensures { result ≡ curve_named word.now }
{
    CURVES.iter().copied().find(|curve| is_curve(*curve, word))
}

// The name of value i of a curve.
#[tactic(auto, unfolding(crate::specs::Words::value_name_text))]
pub fn name(out: &mut Text<'_>, curve: Curve, i: usize)
    ensures { out.new ≡ wrote out.old (value_name_text (code_of curve) i) }
{
    out.put(value_names(curve).get(i).copied().unwrap_or(b"?"));
}

// What the curve says that the grams are.
#[tactic(auto, unfolding(crate::specs::Words::equation))]
fn equation(curve: Curve) -> &'static [u8]
    ensures { result.now ≡ equation (code_of curve) }
{
    match curve {
        Curve::Sslogis => b"Asym / (1 + exp((xmid - dose) / scal))",
        Curve::Ssasymp => b"Asym + (R0 - Asym) * exp(-exp(lrc) * dose)",
        Curve::Ssmicmen => b"Vm * dose / (K + dose)",
        Curve::Ssfpl => b"A + (B - A) / (1 + exp((xmid - dose) / scal))",
    }
}

// A curve's name and its equation.
pub fn curve(out: &mut Text<'_>, curve: Curve)
    ensures { out.new ≡ wrote out.old (curve_equation_text (code_of curve)) }
{
    out.put(curve_name(curve));
    out.put(b": grams = ");
    out.put(equation(curve));
}

#[tactic(auto, unfolding(crate::specs::Words::refusal_text))]
fn refusal_words(refusal: Refusal) -> &'static [u8]
    ensures { result.now ≡ refusal_text refusal }
{
    match refusal {
        Refusal::Code => b"no such curve",
        Refusal::Readings => b"no readings, more than 512, or lists of unequal lengths",
        Refusal::Groups => b"no canisters or more than 32",
        Refusal::Group => b"a reading of a canister that is not there",
        Refusal::Effects => b"the effect is not a value of the curve",
        Refusal::Lengths => b"a list of starts, bounds or theta has a wrong length",
        Refusal::Numbers => {
            b"a reading, a start value or theta is not a finite number, or a bound is none"
        }
        Refusal::Bounds => b"a lower bound above its upper one",
        Refusal::Outputs => b"a list for the answer has a wrong length",
        Refusal::Limits => b"too many rounds or narrowings, or two effects",
    }
}

// What it means that the library refuses.
pub fn refusal(out: &mut Text<'_>, refusal: Refusal)
    ensures { out.new ≡ wrote out.old (refusal_text refusal) }
{
    out.put(refusal_words(refusal));
}

// What is wrong with a line of the text.
#[tactic(auto, unfolding(crate::specs::Words::table_fault_text))]
fn fault_words(fault: TableFault) -> &'static [u8]
    ensures { result.now ≡ table_fault_text fault }
{
    match fault {
        TableFault::NotThreeFields => {
            b"not three fields: dose, grams, canister (a comment has a line of its own)"
        }
        TableFault::DoseNotADecimal => b"the dose is not a decimal number",
        TableFault::GramsNotADecimal => b"the grams are not a decimal number",
        TableFault::TooManyDigits => b"a number of more than 15 significant digits",
        TableFault::PowerOutOfRange => b"a number whose exponent is out of range",
        TableFault::NotAName => {
            b"the canister's name is empty, longer than 32 bytes, or has a sign that is no letter, digit, '-', '.' or '_'"
        }
        TableFault::TooManyReadings => b"more than 512 readings",
        TableFault::TooManyCanisters => b"more than 32 canisters",
        TableFault::NoReadings => b"there are no readings",
        TableFault::DecimalComma => {
            b"a decimal comma, or a comma beside another separator: write decimals with a point, and one separator in a line"
        }
        TableFault::HeaderOutOfOrder => {
            b"the header names its columns in another order than dose, grams, canister"
        }
    }
}

// The fault of a line with its number, where it is known.
#[tactic(auto, using(text_buffer::specs::laws::Text::wrote_then), unfolding(crate::specs::Words::line_fault_text))]
pub fn line_fault(out: &mut Text<'_>, line: Option<u64>, fault: TableFault)
    ensures { out.new ≡ wrote out.old (line_fault_text line fault) }
{
    match line {
        Some(line) => {
            out.put(b"line ");
            out.whole(line);
            out.put(b": ");
            out.put(fault_words(fault));
        }
        None => out.put(fault_words(fault)),
    }
}
