// The value of an expression has its kind, and does not depend on places: theorems only. The code is in the crate `value`.
#![tactic(auto)]
