// The operator that a refused expression is blamed on: definitions and theorems only. The code that carries its place is in the crate `value`.
#![tactic(auto)]
