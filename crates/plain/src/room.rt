// The items that a return puts into the list, counted before it begins.
ghost use Rattle.std.specs.Prelude.{◌≡◌, ◌*◌, ◌≤◌, length};
ghost use Rattle.model.specs.Basic.{those};
ghost use Rattle.model.specs.Return.{comes};
ghost use Rattle.model.specs.Refusals.{found_in};
ghost use Rattle.model.specs.Walk.{key_limit};
ghost use Rattle.plain.specs.Plain.{differs};
ghost use Rattle.plain.specs.Items.{from};
ghost use Rattle.plain.specs.Guard.{comes_by};

use crate::{KEYS, items, scan};

// 1 where the second has a value, and the first not the same; else 0.
fn coming(a: Option<u32>, b: Option<u32>) -> usize
    ensures { result ≡ comes_by (found_in a) (found_in b) }
{
    usize::from(b.is_some() && a != b)
}

// How many keys a return from w to v inserts.
pub fn comings(items: &[u32], n: usize, w: u32, v: u32) -> usize
    requires { 4 * n ≤ length items.now }
    ensures { (result ≡ length (those comes (differs w v (from items.now 0 n)))) × (result ≤ key_limit) }
{
    let mut found = 0;
    let mut k = scan::next_key(items, n, 0, w, v);
    while k < KEYS {
        let a = items::value_at(items, n, k, w);
        let b = items::value_at(items, n, k, v);
        found += coming(a, b);
        k = scan::next_key(items, n, k + 1, w, v);
    }
    found
}
