// The rules of docs/SPECIFICATION.md as definitions, and what is proved of them. There is no code here: see specs/ and proofs/.
#![tactic(auto)]
