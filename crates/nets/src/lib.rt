// The nets of a plan: which states are lost at once and which of their commands count, read off its rows, and what the propagations over
// them find.
#![tactic(auto)]

pub mod propagations;
mod ranges;
