// The frame of a picture: the range of the doses, and an axis each for the doses and the grams.
ghost use Rattle.std.specs.Prelude.{◌≡◌};
ghost use Rattle.svg_axes.specs.Subject.{subject_lists};
ghost use Rattle.svg_axes.specs.Frame.{frame_of};

use crate::axes::{Axis, axis_of};
use crate::ranges::{Range, all_curves, list_range};
use crate::subject::Subject;

#[derive(Clone, Copy)]
pub struct Frame {
    pub doses: Range,
    pub x: Axis,
    pub y: Axis,
}

// None where the readings and the curves span no range that can be drawn.
#[tactic(auto, unfolding(crate::specs::Frame::frame_of))]
pub fn frame_of(s: &Subject<'_>) -> Option<Frame>
    ensures { result ≡ frame_of (subject_lists s.now) }
{
    let doses = list_range(s.doses);
    let x = axis_of(doses)?;
    let y = axis_of(all_curves(list_range(s.grams), s, doses))?;
    Some(Frame { doses, x, y })
}
