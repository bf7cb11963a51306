// Lists of numbers: what more than one crate says of them (specs/) and the laws of that (proofs/). There is no code here.
#![tactic(auto)]
