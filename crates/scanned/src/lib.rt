// Where the tokens of an expression are, and where reading it is refused: theorems only. The code is in the crate `token`.
#![tactic(auto)]
