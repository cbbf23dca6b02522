// The lines of a file and their directives.
#![tactic(auto)]

pub mod cut;
pub mod word;

use units::Offset;

// The directive of a line by its word, or that the line is plain.
#[derive(Clone, Copy, Debug, PartialEq, Eq)]
pub enum Directive {
    Plain,
    If,
    Ifdef,
    Ifndef,
    Elseif,
    Else,
    Endif,
    Unknown,
}

// The head of a line: its directive, and the start of the text after its word.
#[derive(Clone, Copy)]
pub struct Head {
    pub directive: Directive,
    pub text: Offset,
}

// The condition of a directive: it holds or fails, with the number of operators that were applied. The crate `condition` evaluates it.
#[derive(Clone, Copy, Debug, PartialEq, Eq)]
pub enum Condition {
    Holds(usize),
    Fails(usize),
}
