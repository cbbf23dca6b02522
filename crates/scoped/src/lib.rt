// The record under a name, with settings of their own in front of the table: theorems only. The settings are in the crate `own`.
#![tactic(auto)]
