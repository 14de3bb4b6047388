// Walking outcomes: which states are reached, by flags and a queue. Only the planner's own crates call this.
#![tactic(auto)]

pub mod queue;
