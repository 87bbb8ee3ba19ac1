// One canister in the picture: its curve, its readings and its row of the legend.
#![tactic(auto)]

pub mod legend;
pub mod series;
