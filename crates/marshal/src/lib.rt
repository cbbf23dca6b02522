// The answers of the layers below as numbers in lent arrays: one function for each exported call.
// Stays: numbers and codes in arrays with no types of their own, since C lends these arrays and reads them (the calls of `korzhinay`).
#![tactic(auto)]

mod dialects;
pub mod expressions;
pub mod fields;
pub mod selections;
pub mod tables;
pub mod tokens;
