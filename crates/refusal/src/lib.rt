// Why a call is refused: document 01's numbered faults, which every public operation refuses by.
#![tactic(auto)]

ghost use Rattle.std.specs.Prelude.{◌≡◌};
ghost use Rattle.refusal.specs.Refusal.{number_of};

// In the order in which they are tested: the first that a call has is told.
#[derive(Clone, Copy, Debug, PartialEq, Eq)]
pub enum Refusal {
    // No curve has the code.
    Code = 1,
    // No readings, more than 512, or lists of unequal length.
    Readings,
    // No groups, or more than 32.
    Groups,
    // A reading's group is not below the number of groups.
    Group,
    // Neither one effect nor two, a place not below the number of curve values, or two equal ones.
    Effects,
    // A list of starts, bounds, group bounds, theta or curve values of the wrong length.
    Lengths,
    // A reading, start or theta that is not finite, or a bound that no value can keep.
    Numbers,
    // A lower bound above its upper.
    Bounds,
    // An output list of the wrong length.
    Outputs,
    // More than 1,000 rounds or narrowings, or a search over two effects.
    Limits,
}

impl Refusal {
    // Document 01's number, 1 to 10, in the order above.
    pub fn number(self) -> u64
        ensures { result ≡ number_of self }
    {
        self as u64
    }
}
