// Lines for a person, written into a lent buffer: columns, words of a table, and lines with numbers in them.
#![tactic(auto)]

pub mod columns;
pub mod same;
pub mod template;
pub mod words;
