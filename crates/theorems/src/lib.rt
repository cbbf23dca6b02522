// What is proved, on one page: specs/Main.antt. Theorems only; the code is in the crates below.
#![tactic(auto)]
