// No code: that the bytes of a sound store are accepted and hold it, for what calls a store's code again on what it has left.
#![tactic(auto)]
