// Rules 1 to 3, 7 and 8: what can be told of a store page by page, one header, one slot, one entry and the page below it at a time.
// Rules 4 to 6, which want a walk at each version, are in `judge`.
#![tactic(auto)]

mod eighth;
mod entry;
mod first;
mod front;
mod pages;
mod second;
mod seventh;
mod third;

pub use eighth::eighth_rule;
pub use first::first_rule;
pub use front::front_right;
pub use pages::page_right;
pub use second::second_rule;
pub use seventh::seventh_rule;
pub use third::third_rule;
