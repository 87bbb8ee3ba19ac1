// What a report and a picture are about, and the names of what they show.
ghost use Rattle.std.specs.Prelude.{◌≡◌, map};
ghost use Rattle.curves.specs.MeanFn.{code_of};
ghost use Rattle.svg_axes.specs.Subject.{subject_lists, canister_name, curve_name, value_names};

use curves::Curve;
use text_buffer::Span;

// The readings, each of a canister; where the canisters' names stand in a text; the values of the curve, and each
// canister's effect, which is added to the value at `place`. A list for each, as a fit takes them.
#[derive(Clone, Copy)]
pub struct Subject<'a> {
    pub curve: Curve,
    pub place: usize,
    pub doses: &'a [f64],
    pub grams: &'a [f64],
    pub groups: &'a [usize],
    pub text: &'a [u8],
    pub names: &'a [Span],
    pub values: &'a [f64],
    pub effects: &'a [f64],
}

impl<'a> Subject<'a> {
    // Canister g's name, empty where there is none.
    #[tactic(auto, unfolding(crate::specs::Subject::canister_name))]
    pub fn name(&self, g: usize) -> &[u8]
        ensures { result.now ≡ canister_name (subject_lists self.now) g }
    {
        match self.names.get(g) {
            Some(span) => span.of(self.text),
            None => b"",
        }
    }
}

pub fn curve_name(curve: Curve) -> &'static [u8]
    ensures { result.now ≡ curve_name (code_of curve) }
{
    match curve {
        Curve::Sslogis => b"SSlogis",
        Curve::Ssasymp => b"SSasymp",
        Curve::Ssmicmen => b"SSmicmen",
        Curve::Ssfpl => b"SSfpl",
    }
}

// The names of a curve's values, which R's users know.
#[tactic(auto, unfolding(crate::specs::Subject::value_names))]
pub fn value_names(curve: Curve) -> &'static [&'static [u8]]
    ensures { map (λ w. w.now) result.now ≡ value_names (code_of curve) }
{
    match curve {
        Curve::Sslogis => &[b"Asym", b"xmid", b"scal"],
        Curve::Ssasymp => &[b"Asym", b"R0", b"lrc"],
        Curve::Ssmicmen => &[b"Vm", b"K"],
        Curve::Ssfpl => &[b"A", b"B", b"xmid", b"scal"],
    }
}
