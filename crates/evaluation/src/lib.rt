// The answer to an expression: its value and the number of operators that were applied, or a refusal.
#![tactic(auto)]

pub mod outcome;

use lookup::Value;

// A value with the count of operators. A string is a part of the expression or of the table.
#[derive(Clone, Copy)]
pub struct Evaluated {
    pub value: Value,
    pub count: usize,
}
