// The answer to an expression in terms of derivations, and what it depends on: theorems only. The code is in the crate `evaluation`.
#![tactic(auto)]
