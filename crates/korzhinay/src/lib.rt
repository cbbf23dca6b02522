// The calls that C, Rust and Python see, one module per call. Each passes its arguments to the crate `marshal`; the crate `korzhinay_c`
// exports them.
#![tactic(auto)]

pub mod evaluate;
pub mod fields;
pub mod lookups;
pub mod selections;
pub mod table;
pub mod tokens;
