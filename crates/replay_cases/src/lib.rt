// Reads answer lines: `exp 3ff0000000000000 = 4005bf0a8b14576a`. Words stand apart by one space, a
// float is the 16 lowercase digits of its bits or `nan`, a whole number is decimal, and a list is
// its length and then its elements. A fault in a line is an answer.
#![tactic(auto)]

pub mod digits;
pub mod lent;
pub mod lines;
pub mod replay;
pub mod same;
pub mod tally;
pub mod words;
