// block_solve.rs: the normal blocks of a fit, and the damped direction that they give.
#![tactic(auto)]

pub mod direction;
pub mod normal;
