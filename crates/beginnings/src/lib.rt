// Where tokens that derive nothing go wrong: definitions and theorems only. The recursive descent that finds the token is in the crate `syntax`.
#![tactic(auto)]
