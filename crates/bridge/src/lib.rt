// Windows and stretches of a line say the same: the openings and the size sums from the listed runs (specs/), and the laws of that (proofs/). There is no code here.
#![tactic(auto)]
