// The linear algebra of a fit, on systems of at most four equations: document 01's 'The direction'.
#![tactic(auto)]

pub mod elimination;
pub mod pair;
