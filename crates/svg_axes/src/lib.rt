// What a picture shows of the readings and the curves, and where a value stands in its frame.
#![tactic(auto)]

pub mod axes;
pub mod frame;
pub mod ranges;
pub mod subject;

ghost use Rattle.std.specs.Prelude.{◌≡◌};
ghost use Rattle.svg_axes.specs.Subject.{subject_lists};
ghost use Rattle.svg_axes.specs.Ranges.{canister_curve_at};

use crate::subject::Subject;
use curves::mean_fn::four;

// What the curve of canister g says at a dose.
#[tactic(auto, unfolding(crate::specs::Ranges::canister_curve_at))]
pub fn curve_at(s: &Subject<'_>, g: usize, dose: f64) -> f64
    ensures { result ≡ canister_curve_at (subject_lists s.now) g dose }
{
    let offsets = [math::at(s.effects, g)];
    let mean = s
        .curve
        .eval_mean_with_re(dose, four(s.values), &[s.place], &offsets);
    mean.mu
}
