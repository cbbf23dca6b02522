// The leftmost bar outside parentheses, and the leftmost PCD that the table does not have.
#![tactic(auto)]

pub mod bars;
pub mod missing;
