// No code: that the plain engine answers as the tree does stands in specs/, the proof of it in proofs/.
#![tactic(auto)]
