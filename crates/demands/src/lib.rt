// The customer's three demands: stated (specs/) and proved (proofs/) over the definitions that the calls' contracts name.
#![tactic(auto)]
