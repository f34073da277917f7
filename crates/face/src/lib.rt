// What a caller from C has: the answer of each exported call, and what it leaves in lent memory, stated (specs/) and proved (proofs/) in
// numerals.
#![tactic(auto)]
