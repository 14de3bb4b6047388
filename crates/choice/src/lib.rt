// The lowest outcome that a command has in a set, and choosing a command by it: for the propagations, deciding, the search and the listing.
#![tactic(auto)]

pub mod choosing;
pub mod order;
pub mod state_set;
