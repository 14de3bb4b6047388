// Reading for the gate controller's C program: a plan file into byte slices.
#![tactic(auto)]

mod answers;
pub mod call;
