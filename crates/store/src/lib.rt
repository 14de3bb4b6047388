// What the calls for C give back: entries of tables as bytes, two each, highest first, and a number.
#![tactic(auto)]

pub mod codes;
pub mod encoding;
