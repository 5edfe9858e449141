// No code: the plan of an update, which reads alone and counts the free pages, foresees the number that the page rules come to.
#![tactic(auto)]
