// What the old and the new edition have in common: theorems only. The editions are in the crates `lexeme`, `token` and `condition`.
#![tactic(auto)]
