// The settings of a range and the differences of two versions: each is counted in one pass, and written in a second.
// `write: bool` stays: the definitions (model's Space, Gathers) have the flag, and a closure would carry the list with it.
// Each kind of thing has its own function that puts one or none: a closure that makes an array of it has no contract to go by.
ghost use Rattle.std.specs.Prelude.{◌≡◌, true, ◌+◌, ◌*◌, ◌≤◌, ◌<◌, length};
ghost use Rattle.std.proofs.lemmas.List.Edits.{sets};
ghost use Rattle.model.specs.Basic.{pick};
ghost use Rattle.model.specs.Differ.{says_of};
ghost use Rattle.model.specs.Refusals.{found_in};
ghost use Rattle.model.specs.Telling.{Space, Gathers, deltas};
ghost use Rattle.model.specs.Walk.{key_limit};
ghost use Rattle.plain.specs.Plain.{setting, settings, differs};
ghost use Rattle.plain.specs.Items.{from};
ghost use Rattle.plain.specs.Tell.{pairs, those_in};

use crate::{KEYS, items, scan};
use model::Delta;

// The numbers of thing k of a list that takes N each, where they are to be written.
pub fn put<const N: usize>(list: &mut [u32], k: usize, numbers: [u32; N], write: bool)
    requires { write ≡ true → N * k + N ≤ length list.old }
    ensures { list.new ≡ pick write (sets list.old (N * k) numbers.entry) list.old }
{
    if write {
        list[N * k..N * k + N].copy_from_slice(&numbers);
    }
}

// A setting behind the first k of a list, where one is found; gives how many there are then.
fn tell_setting(list: &mut [u32], k: usize, key: u32, value: Option<u32>, write: bool) -> usize
    requires { Space pairs write list.old k (setting key (found_in value)) }
    ensures { Gathers pairs write list.old list.new k result (setting key (found_in value)) }
{
    match value {
        Some(value) => {
            put(list, k, [key, value], write);
            k + 1
        }
        None => k,
    }
}

// The settings from low to high at v, into a list or only counted; gives how many there are.
pub fn tell_settings(
    items: &[u32],
    n: usize,
    low: u32,
    high: u32,
    v: u32,
    list: &mut [u32],
    write: bool,
) -> usize
    requires { (4 * n ≤ length items.now) × (high < key_limit) × (low ≤ high)
        × Space pairs write list.old 0 (settings low high v (from items.now 0 n)) }
    ensures { Gathers pairs write list.old list.new 0 result
        (settings low high v (from items.now 0 n)) }
{
    let mut found = 0;
    let mut k = scan::next_key(items, n, low, v, v);
    while k <= high {
        found = tell_setting(list, found, k, items::value_at(items, n, k, v), write);
        k = scan::next_key(items, n, k + 1, v, v);
    }
    found
}

// What differs at a key: "0 for added, 1 for removed or 2 for changed, the old value and the new, zero where there is none".
fn delta(key: u32, old: Option<u32>, new: Option<u32>) -> Option<Delta>
    ensures { those_in result ≡ says_of key (found_in old) (found_in new) }
{
    match (old, new) {
        (None, Some(new)) => Some(Delta {
            key,
            kind: 0,
            old: 0,
            new,
        }),
        (Some(old), None) => Some(Delta {
            key,
            kind: 1,
            old,
            new: 0,
        }),
        (Some(old), Some(new)) if old != new => Some(Delta {
            key,
            kind: 2,
            old,
            new,
        }),
        _ => None,
    }
}

// A difference behind the first k of a list, where there is one; gives how many there are then.
fn tell_delta(list: &mut [u32], k: usize, d: Option<Delta>, write: bool) -> usize
    requires { Space deltas write list.old k (those_in d) }
    ensures { Gathers deltas write list.old list.new k result (those_in d) }
{
    match d {
        Some(d) => {
            put(list, k, [d.key, d.kind, d.old, d.new], write);
            k + 1
        }
        None => k,
    }
}

// What differs from u to v, into a list or only counted; gives how many keys.
pub fn tell_differences(
    items: &[u32],
    n: usize,
    u: u32,
    v: u32,
    list: &mut [u32],
    write: bool,
) -> usize
    requires { (4 * n ≤ length items.now) × Space deltas write list.old 0 (differs u v (from items.now 0 n)) }
    ensures { Gathers deltas write list.old list.new 0 result (differs u v (from items.now 0 n)) }
{
    let mut found = 0;
    let mut k = scan::next_key(items, n, 0, u, v);
    while k < KEYS {
        let a = items::value_at(items, n, k, u);
        let b = items::value_at(items, n, k, v);
        found = tell_delta(list, found, delta(k, a, b), write);
        k = scan::next_key(items, n, k + 1, u, v);
    }
    found
}
