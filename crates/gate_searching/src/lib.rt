// The search, for the gate controller's C program.
#![tactic(auto)]

mod answers;
pub mod call;
