// The offered calls, for any bytes and any numbers lent: they find the edition that the bytes name, and go on by its limits, to `reads`,
// `changes` and, for lookup and range, `near`.
#![tactic(auto)]

mod any;

pub use any::{
    abandon, commit, delete, difference, insert, life, lookup, open, prune, range, return_to,
    state, visits,
};
