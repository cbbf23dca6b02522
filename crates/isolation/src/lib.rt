// Isolation of a selection: definitions and theorems only. The code is in the crate `select`.
#![tactic(auto)]
