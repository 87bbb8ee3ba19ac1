// A problem's first fault, by rising number.
ghost use Rattle.std.specs.Prelude.{◌≡◌, IfOk};
ghost use Rattle.fit_refusals.specs.Given.{given, checked, number_in};
ghost use Rattle.fit_refusals.specs.Faults.{first_of_eight, refusal_of, search_refusal_of};
ghost use Rattle.fit_refusals.specs.Valid.{ValidFit, ValidSearch};

use crate::{NlmmProblem, Problem};
use curves::Curve;
use fit_faults::{all_below, bad_effects, bad_groups, bad_readings, bad_theta, too_many};
use math::all_finite;
use refusal::Refusal;

impl<'a> Problem<'a> {
    // 1 to 8; those of theta where it is read. A flag, and no Option of a list: theta is the problem's own in both cases, and
    // its tests, 6 and 7, stand among the others.
    #[tactic(auto, using(crate::specs::laws::Codes::known), unfolding(crate::specs::Faults::first_from, crate::specs::Faults::first_of_eight, fit_faults::specs::Tests::bad_code))]
    fn first_eight(&self, reads_theta: bool) -> Result<NlmmProblem<'a>, Refusal>
        ensures number { number_in result ≡ first_of_eight (given self.now) reads_theta }
        ensures same { IfOk result (λ q. checked q ≡ given self.now) }
    {
        let curve = Curve::try_from(self.code)?;
        if bad_readings(self.doses.len(), self.grams.len(), self.groups.len()) {
            return Err(Refusal::Readings);
        }
        if bad_groups(self.group_count) {
            return Err(Refusal::Groups);
        }
        if !all_below(self.groups, self.group_count) {
            return Err(Refusal::Group);
        }
        let p = curve.n_params();
        if bad_effects(p, self.places) {
            return Err(Refusal::Effects);
        }
        if self.bad_lengths(p) {
            return Err(Refusal::Lengths);
        }
        if reads_theta && bad_theta(self.places.len(), self.theta.len()) {
            return Err(Refusal::Lengths);
        }
        if self.bad_numbers() {
            return Err(Refusal::Numbers);
        }
        if reads_theta && !all_finite(self.theta) {
            return Err(Refusal::Numbers);
        }
        if self.bad_order() {
            return Err(Refusal::Bounds);
        }
        Ok(NlmmProblem {
            curve,
            doses: self.doses,
            grams: self.grams,
            groups: self.groups,
            group_count: self.group_count,
            places: self.places,
            starts: self.starts,
            lower: self.lower,
            upper: self.upper,
            group_lower: self.group_lower,
            group_upper: self.group_upper,
            theta: self.theta,
        })
    }

    // The problem of a fit or a criterion, with output lists of n_values and n_effects_out places.
    #[tactic(auto, using(crate::specs::laws::Codes::numbered, crate::proofs::Laws::fit_split))]
    pub fn for_fit(
        &self,
        max_rounds: u64,
        n_values: usize,
        n_effects_out: usize,
    ) -> Result<NlmmProblem<'a>, Refusal>
        ensures number { number_in result ≡ refusal_of (given self.now) n_values n_effects_out max_rounds }
        ensures same { IfOk result (λ q. checked q ≡ given self.now) }
        ensures valid { IfOk result (λ q. ValidFit (checked q) n_values n_effects_out max_rounds) }
    {
        let problem = self.first_eight(true)?;
        let p = problem.curve.n_params();
        if self.bad_outputs(p, n_values, n_effects_out) {
            return Err(Refusal::Outputs);
        }
        if too_many(max_rounds) {
            return Err(Refusal::Limits);
        }
        Ok(problem)
    }

    // The problem of a search, which finds a theta for one effect, and writes no list.
    #[tactic(auto, using(crate::specs::laws::Codes::numbered, crate::proofs::Laws::search_split))]
    pub fn for_search(
        &self,
        max_rounds: u64,
        max_narrowings: u64,
    ) -> Result<NlmmProblem<'a>, Refusal>
        ensures number { number_in result ≡ search_refusal_of (given self.now) max_rounds max_narrowings }
        ensures same { IfOk result (λ q. checked q ≡ given self.now) }
        ensures valid { IfOk result (λ q. ValidSearch (checked q) max_rounds max_narrowings) }
    {
        let problem = self.first_eight(false)?;
        if too_many(max_rounds) || self.places.len() == 2 || too_many(max_narrowings) {
            return Err(Refusal::Limits);
        }
        Ok(problem)
    }
}
