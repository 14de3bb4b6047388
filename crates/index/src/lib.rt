// A reverse index of a list table, built by counting: for each state the commands whose list has it, one group after another; and for each
// command its state.
#![tactic(auto)]

pub mod grouping;
