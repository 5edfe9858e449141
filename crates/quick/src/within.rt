// Why the tests stop: something is wrong, or as many pages as may be were read, and nothing more is known. Whoever asked must then ask in
// another way.
#[derive(Clone, Copy, PartialEq, Eq)]
pub(crate) enum Stop {
    Wrong,
    UsedUp,
}
