// What a DEFINE line says, and the setting that it makes.
#![tactic(auto)]

pub mod settle;
pub mod shape;

// The outcome of a line that is kept and not refused: the number of bytes of the settings after it, and the number of operators that were
// applied.
#[derive(Clone, Copy)]
pub struct Defined {
    pub used: usize,
    pub count: usize,
}
