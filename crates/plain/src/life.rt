// The life of a key: from change to change, and not version by version.
ghost use Rattle.std.specs.Prelude.{◌≡◌, ◌*◌, ◌≤◌, ◌<◌, ltb, length};
ghost use Rattle.model.specs.Basic.{pick};
ghost use Rattle.model.specs.Entry.{alive};
ghost use Rattle.model.specs.Life.{life_of};
ghost use Rattle.model.specs.Inner.{Lasts};
ghost use Rattle.model.specs.Refusals.{found_in};
ghost use Rattle.model.specs.Telling.{Space, Gathers};
ghost use Rattle.plain.specs.Plain.{value_at};
ghost use Rattle.plain.specs.Items.{from};
ghost use Rattle.model.specs.Still.{stretches, Sooner, Until};
ghost use Rattle.plain.specs.Lived.{ItemStill, shown};

use crate::{ALIVE, items, tell};
use model::Entry;

// r, or x where it stands between v and r. The crates life and notes have their own, since this one uses model alone.
fn sooner(v: u32, r: u32, x: u32) -> u32
    requires { v < r }
    ensures { Sooner v r x result }
{
    if v < x { r.min(x) } else { r }
}

// r, or where the item starts or ends before r, behind v, if it is the key's.
fn change_of(e: Entry, key: u32, v: u32, r: u32) -> u32
    requires { v < r }
    ensures { ItemStill e key v r result }
{
    if e.key != key {
        return r;
    }
    sooner(v, sooner(v, r, e.start), e.end)
}

// The key has one value, or none, from v up to here, r at most.
fn next_change(items: &[u32], n: usize, key: u32, v: u32, r: u32) -> u32
    requires { (4 * n ≤ length items.now) × (v < r) }
    ensures { Until v r (λ w. value_at key w (from items.now 0 n)) result }
{
    let mut q = r;
    for i in (0..n).rev() {
        q = change_of(items::item(items, i), key, v, q);
    }
    q
}

// The first version behind v at which the key has another value, or the first behind c.
fn change_after(items: &[u32], n: usize, key: u32, v: u32, c: u32, was: Option<u32>) -> u32
    requires { (4 * n ≤ length items.now) × (c ≤ 1048574) × (v ≤ c) × (found_in was ≡ value_at key v (from items.now 0 n)) }
    ensures { Lasts c (λ w. value_at key w (from items.now 0 n)) v result }
{
    let mut u = next_change(items, n, key, v, c + 1);
    while u <= c {
        if items::value_at(items, n, key, u) != was {
            return u;
        }
        u = next_change(items, n, key, u, c + 1);
    }
    u
}

// The end of a stretch as it is told: 1,048,575 where the version c is in it.
fn shown_end(c: u32, r: u32) -> u32
    ensures { result ≡ pick (ltb c r) alive r }
{
    if c < r { ALIVE } else { r }
}

// A stretch behind the first k of a list, where a value is found; gives how many there are then.
fn tell_stretch(
    list: &mut [u32],
    k: usize,
    v: u32,
    e: u32,
    value: Option<u32>,
    write: bool,
) -> usize
    requires { Space stretches write list.old k (shown v e (found_in value)) }
    ensures { Gathers stretches write list.old list.new k result (shown v e (found_in value)) }
{
    match value {
        Some(value) => {
            tell::put(list, k, [v, e, value], write);
            k + 1
        }
        None => k,
    }
}

// The stretches from version old up to c, into a list or only counted; gives how many there are.
pub fn tell_life(
    items: &[u32],
    n: usize,
    key: u32,
    old: u32,
    c: u32,
    list: &mut [u32],
    write: bool,
) -> usize
    requires { (4 * n ≤ length items.now) × (c ≤ 1048574)
        × Space stretches write list.old 0 (life_of old c (λ w. value_at key w (from items.now 0 n))) }
    ensures { Gathers stretches write list.old list.new 0 result
        (life_of old c (λ w. value_at key w (from items.now 0 n))) }
{
    let mut found = 0;
    let mut v = old;
    while v <= c {
        let a = items::value_at(items, n, key, v);
        let r = change_after(items, n, key, v, c, a);
        found = tell_stretch(list, found, v, shown_end(c, r), a, write);
        v = r;
    }
    found
}
