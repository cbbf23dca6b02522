// The selection of a file's lines.
#![tactic(auto)]

pub mod run;
pub mod selection;
pub mod step;

use units::LineNumber;

// The number of lines of a file that is selected, and the sum of the counts of operators.
#[derive(Clone, Copy)]
pub struct Selected {
    pub lines: LineNumber,
    pub count: usize,
}
