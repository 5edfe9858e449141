// No code: that what is promised of the calls on lent bytes is promised of each function that host offers stands in specs/, its proof
// in proofs/. It rests on the functions' own statements: weaken a contract of host, and this crate is refused.
#![tactic(auto)]
