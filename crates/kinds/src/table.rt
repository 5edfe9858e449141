// A table of kinds judged: keys rise, kinds are known, limits are in order.
ghost use Rattle.std.specs.Prelude.{◌≡◌, ◌+◌, ◌≤◌, length};
ghost use Rattle.model.specs.Kinds.{kind_number, in_limits, row_right, wrong_row};

use model::Kind;

// "Keys are 0 to 16,777,215".
const KEYS: u32 = 16777216;

// The number of a kind in a row.
pub fn number_of(kind: Kind) -> u32
    ensures { result ≡ kind_number kind }
{
    match kind {
        Kind::Whole(_, _) => 0,
        Kind::Switch => 1,
        Kind::Level(_, _) => 2,
    }
}

// Whether a kind's limits are in order: of a level whose limit is a NaN they are not.
fn in_limits(kind: Kind) -> bool
    ensures { result ≡ in_limits kind }
{
    match kind {
        Kind::Whole(low, high) => low <= high,
        Kind::Switch => true,
        Kind::Level(low, high) => low <= high,
    }
}

// Whether the row at place `at` is right, with a key of at least `least`.
fn row_right(table: &[u32], at: usize, least: u32) -> bool
    requires { at + 4 ≤ length table.now }
    ensures { result ≡ row_right table.now at least }
{
    (least..KEYS).contains(&table[at])
        && crate::row_kind(table[at + 1], table[at + 2], table[at + 3]).is_some_and(in_limits)
}

// The first wrong row of a table, counted from 1, or 0: a key that is no key or not above the one before, a number that is no kind, limits
// that are not in order, or numbers behind the last whole row. C is given this very number.
pub fn wrong_row(table: &[u32]) -> usize
    ensures { result ≡ wrong_row table.now }
{
    let rows = table.len() / 4;
    let mut least = 0;
    for i in 0..rows {
        if !row_right(table, 4 * i, least) {
            return i + 1;
        }
        least = table[4 * i] + 1;
    }
    if table.len() % 4 == 0 { 0 } else { rows + 1 }
}
