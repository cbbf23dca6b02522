// Syntax: the postfix order of an expression, from the codes of its tokens only.
#![tactic(auto)]

pub mod descent;
pub mod tokens;
