// Propagation of losing states from a set of states, layer by layer, in time linear in the plan.
#![tactic(auto)]

pub mod indexed;
pub mod layers;
