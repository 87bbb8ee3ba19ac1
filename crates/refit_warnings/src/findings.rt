// A refit, and what was found where it was not refused.
ghost use Rattle.std.specs.Prelude.{◌≡◌};
ghost use Rattle.refit_warnings.specs.Warnings.{found_of};

use refit_calculation::{Answer, Refused};
use svg_axes::subject::Subject;

// What was refitted, from which start values, and what came of it.
#[derive(Clone, Copy)]
pub struct Outcome<'a> {
    pub subject: Subject<'a>,
    pub starts: &'a [f64],
    pub answer: Result<Answer, Refused>,
}

// What was refitted and found, from which start values, and the order of quadrature that was asked for.
#[derive(Clone, Copy)]
pub struct Findings<'a> {
    pub subject: Subject<'a>,
    pub starts: &'a [f64],
    pub n_agq: u64,
    pub refit: Answer,
}

impl<'a> Outcome<'a> {
    // The findings of a refit that answered so.
    pub fn found(&self, n_agq: u64, refit: Answer) -> Findings<'a>
        ensures { result ≡ found_of self.now n_agq refit }
    {
        Findings {
            subject: self.subject,
            starts: self.starts,
            n_agq,
            refit,
        }
    }
}

// The first is of a value of the curve.
#[derive(Clone, Copy, Debug, PartialEq, Eq)]
pub enum Warning {
    Unmoved(usize),
    Search,
    Fit,
    Step,
    Nothing,
    Few,
    Low,
    High,
    Alone,
    Quadrature,
}
