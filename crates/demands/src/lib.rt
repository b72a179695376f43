// The user's demands, as theorems over the promises of the crates below: stated in specs/, proved in proofs/. No function of its own.
#![tactic(auto)]
