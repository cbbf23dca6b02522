// A file that is fed line by line to a running selection: what it shows is what the whole run gives. Theorems only. The code is in the crate
// `follow`.
#![tactic(auto)]
