// No code: what is promised of the calls on lent bytes stands in specs/, the proofs of it in proofs/.
#![tactic(auto)]
