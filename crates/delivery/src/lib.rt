// Delivery of a recording: only definitions (specs/) and laws (proofs/), over any reading of windows of any length.
#![tactic(auto)]
