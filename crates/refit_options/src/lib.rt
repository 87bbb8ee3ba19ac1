// The command line of the program `refit`, and the words by which it names curves, their values, refusals and faults.
#![tactic(auto)]

pub mod help;
pub mod options;
pub mod words;
