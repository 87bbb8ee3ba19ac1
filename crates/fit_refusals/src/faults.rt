// The tests that take many of a call's lists; those of one list or number stand in `fit_faults`. p is the number of the
// curve's values.
ghost use Rattle.std.specs.Prelude.{◌≡◌, ◌≤◌, length};
ghost use Rattle.fit_faults.specs.Tests.{bad_lengths, bad_numbers, bad_order, bad_outputs};

use crate::Problem;
use fit_faults::{all_lower, all_upper, in_order};
use math::all_finite;

impl Problem<'_> {
    // 6 without theta.
    #[tactic(auto, unfolding(fit_faults::specs::Tests::bad_lengths))]
    pub fn bad_lengths(&self, p: usize) -> bool
        ensures { result ≡ bad_lengths p (length self.now.starts.now)
            (length self.now.lower.now) (length self.now.upper.now)
            (length self.now.group_lower.now) (length self.now.group_upper.now) }
    {
        self.starts.len() != p
            || self.lower.len() != p
            || self.upper.len() != p
            || self.group_lower.len() != p
            || self.group_upper.len() != p
    }

    // 7 without theta.
    #[tactic(auto, unfolding(fit_faults::specs::Tests::bad_numbers))]
    pub fn bad_numbers(&self) -> bool
        ensures { result ≡ bad_numbers self.now.doses.now self.now.grams.now self.now.starts.now
            self.now.lower.now self.now.upper.now self.now.group_lower.now self.now.group_upper.now }
    {
        !all_finite(self.doses)
            || !all_finite(self.grams)
            || !all_finite(self.starts)
            || !all_lower(self.lower)
            || !all_upper(self.upper)
            || !all_lower(self.group_lower)
            || !all_upper(self.group_upper)
    }

    // 8.
    #[tactic(auto, unfolding(fit_faults::specs::Tests::bad_order))]
    pub fn bad_order(&self) -> bool
        ensures { result ≡ bad_order self.now.lower.now self.now.upper.now
            self.now.group_lower.now self.now.group_upper.now }
    {
        !in_order(self.lower, self.upper) || !in_order(self.group_lower, self.group_upper)
    }

    // 9, of output lists so many values and effects long. At most 32 groups of at most 2 effects, so that the
    // product fits.
    #[tactic(auto, unfolding(fit_faults::specs::Tests::bad_outputs))]
    pub fn bad_outputs(&self, p: usize, values: usize, effects: usize) -> bool
        requires { (self.now.group_count ≤ 32) × (length self.now.places.now ≤ 2) }
        ensures { result ≡ bad_outputs p self.now.group_count (length self.now.places.now) values effects }
    {
        values != p || effects != self.group_count * self.places.len()
    }
}
