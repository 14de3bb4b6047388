// A plan that is lent as bytes, read into tables.
#![tactic(auto)]

pub mod decoding;
