// From key to key: the keys between two that are found have no value, at either of two versions.
ghost use Rattle.std.specs.Prelude.{◌≡◌, ◌*◌, ◌≤◌, length};
ghost use Rattle.model.specs.Basic.{is_empty};
ghost use Rattle.model.specs.Walk.{key_limit};
ghost use Rattle.plain.specs.Plain.{differs};
ghost use Rattle.plain.specs.Items.{from};
ghost use Rattle.plain.specs.Scan.{Lower, SkipsKeys};

use crate::{KEYS, items};
use model::Entry;

// The item's key, where it is from a on and below r, and the item is alive at u or at v; else r.
fn lower(e: Entry, a: u32, r: u32, u: u32, v: u32) -> u32
    requires { a ≤ r }
    ensures { Lower e a r u v result }
{
    if a <= e.key && e.key < r && (items::says(e, e.key, u) || items::says(e, e.key, v)) {
        e.key
    } else {
        r
    }
}

// The lowest key from a on that has a value at u or at v, or KEYS: the end of the keys that are passed, so that no caller tests for none.
pub fn next_key(items: &[u32], n: usize, a: u32, u: u32, v: u32) -> u32
    requires { (4 * n ≤ length items.now) × (a ≤ key_limit) }
    ensures { SkipsKeys a result u v (from items.now 0 n) }
{
    let mut r = KEYS;
    for i in 0..n {
        r = lower(items::item(items, i), a, r, u, v);
    }
    r
}

// Whether two versions have the same settings.
pub fn same_settings(items: &[u32], n: usize, u: u32, v: u32) -> bool
    requires { 4 * n ≤ length items.now }
    ensures { result ≡ is_empty (differs u v (from items.now 0 n)) }
{
    let mut k = next_key(items, n, 0, u, v);
    while k < KEYS {
        if items::value_at(items, n, k, u) != items::value_at(items, n, k, v) {
            return false;
        }
        k = next_key(items, n, k + 1, u, v);
    }
    true
}
