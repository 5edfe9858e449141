// No code: sound or not by spans and sums, with no walk over versions, is what rules 4 to 6 say.
#![tactic(auto)]
