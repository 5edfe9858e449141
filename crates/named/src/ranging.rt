// The range of the layer: refused as a whole where it meets an unknown key, so that none is skipped.
ghost use Rattle.std.specs.Prelude.{◌≡◌, ◌<◌};
ghost use Rattle.model.specs.Walk.{key_limit, range_of};
ghost use Rattle.model.specs.Layout.{decode};
ghost use Rattle.model.specs.Named.{all_known, range_named_by, range_named};
ghost use Rattle.model.specs.Refusals.{listed_in};
ghost use Rattle.walk.specs.Sure.{Walkable};

use model::{Limits, ListRefusal, Refusal};
use store::edition_lent;

// Whether each setting from low to high at a version has a known key. Each step goes on behind a setting of a sound store, whose keys rise.
fn all_known(s: &[u8], l: Limits, table: &[u32], low: u32, high: u32, v: u32) -> bool
    requires { Walkable l s.now v × (low < key_limit) × (high < key_limit) }
    ensures { result ≡ all_known table.now (range_of (decode l.least s.now) low high v) }
{
    let mut key = low;
    while key <= high {
        let x = cursor::first_from(s, l, v, key);
        if high < x.key {
            return true;
        }
        if kinds::kind_of(table, x.key).is_none() {
            return false;
        }
        key = x.key + 1;
    }
    true
}

// The range by the limits of the store's edition. Nothing is written before all keys are known.
fn range_in(
    s: &[u8],
    l: Limits,
    table: &[u32],
    low: u32,
    high: u32,
    v: u32,
    list: &mut [u32],
) -> Result<usize, ListRefusal>
    ensures { listed_in result list.new
        ≡ range_named_by l.least table.now s.now low high v list.old }
{
    reads::guard_reading(s, l, near::guard::bad_range(low, high), v)?;
    if !all_known(s, l, table, low, high, v) {
        return Err(ListRefusal::Refused(Refusal::KeyUnknown));
    }
    near::range(s, l, low, high, v, list)
}

// The settings from low to high, both included, in key order, if each has a known key: their number, and key, value, key, value in the
// caller's list.
pub fn range(
    s: &[u8],
    table: &[u32],
    low: u32,
    high: u32,
    v: u32,
    list: &mut [u32],
) -> Result<usize, ListRefusal>
    ensures { listed_in result list.new ≡ range_named table.now s.now low high v list.old }
{
    let l = edition_lent(s)?;
    range_in(s, l, table, low, high, v, list)
}
