// Readings, and how many there may be.
use text_buffer::Span;

pub const READINGS: usize = 512;

pub const CANISTERS: usize = 32;

// Readings, each of a canister; where the canisters' names stand in the text, and how many canisters there are: a canister
// need have no name. A list for each, as a fit takes them.
#[derive(Clone, Copy)]
pub struct Readings<'a> {
    pub text: &'a [u8],
    pub doses: &'a [f64],
    pub grams: &'a [f64],
    pub groups: &'a [usize],
    pub names: &'a [Span],
    pub canisters: usize,
}
