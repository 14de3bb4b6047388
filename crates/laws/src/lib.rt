// Facts on numbers and lists, for any length, that every crate cites. There is no code here: see specs/ and proofs/.
#![tactic(auto)]
