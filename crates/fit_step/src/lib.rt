// A fit between its leaves and its rounds: a state, its projection, the start, and the state that a
// trial tries. The fit calls these after all refusals.
#![tactic(auto)]

pub mod project;
pub mod trial;

// Four places for the curve values, of which the curve's own count, and 64 for the effects, group
// after group: fixed, since the library has no heap.
#[derive(Clone, Copy)]
pub struct State {
    pub values: [f64; 4],
    pub effects: [f64; 64],
}
