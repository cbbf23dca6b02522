// The operands that wait for their operator, in lent memory.
#![tactic(auto)]

pub mod stack;
