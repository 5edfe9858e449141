// A return: "first it deletes keys absent there or with another value, then it inserts what is missing, each in rising key order". No step
// can be refused here. Each pass has its own loop: to a closure for the step the list is lent anew, and what it asks changes with the list.
ghost use Rattle.std.specs.Prelude.{◌*◌, ◌≤◌, length};
ghost use Rattle.model.specs.Basic.{count};
ghost use Rattle.plain.specs.Plain.{keys, end_other, set_missing, in_turn};
ghost use Rattle.plain.specs.Items.{Lent, from};
ghost use Rattle.plain.specs.Turns.{Turned};

use crate::{ALIVE, KEYS, items, scan, sweep};
use model::Entry;

// A key that has another value at v, or none, ended at w.
fn end_other(items: &mut [u32], n: usize, w: u32, v: u32, key: u32) -> usize
    requires { Lent n items.old }
    ensures { Turned (end_other w v key) items.old n items.new result }
{
    let a = items::value_at(items, n, key, w);
    let b = items::value_at(items, n, key, v);
    if a == b {
        return n;
    }
    sweep::sweep(items, n, |e| sweep::ended(e, w, key))
}

pub fn end_others(items: &mut [u32], n: usize, w: u32, v: u32) -> usize
    requires { Lent n items.old }
    ensures { Turned (in_turn (end_other w v) (count 0 keys)) items.old n items.new result }
{
    let mut m = n;
    let mut k = scan::next_key(items, m, 0, w, v);
    while k < KEYS {
        m = end_other(items, m, w, v, k);
        k = scan::next_key(items, m, k + 1, w, v);
    }
    m
}

// A key that has no value at w, set to the one that it has at v.
fn set_one(items: &mut [u32], n: usize, w: u32, v: u32, key: u32) -> usize
    requires { Lent n items.old × (4 * length (set_missing w v key (from items.old 0 n)) ≤ length items.old) }
    ensures { Turned (set_missing w v key) items.old n items.new result }
{
    if items::value_at(items, n, key, w).is_some() {
        return n;
    }
    match items::value_at(items, n, key, v) {
        Some(value) => {
            items::put(
                items,
                n,
                Entry {
                    key,
                    start: w,
                    end: ALIVE,
                    value,
                },
            );
            n + 1
        }
        None => n,
    }
}

pub fn set_missing(items: &mut [u32], n: usize, w: u32, v: u32) -> usize
    requires { Lent n items.old
        × (4 * length (in_turn (set_missing w v) (count 0 keys) (from items.old 0 n)) ≤ length items.old) }
    ensures { Turned (in_turn (set_missing w v) (count 0 keys)) items.old n items.new result }
{
    let mut m = n;
    let mut k = scan::next_key(items, m, 0, w, v);
    while k < KEYS {
        m = set_one(items, m, w, v, k);
        k = scan::next_key(items, m, k + 1, w, v);
    }
    m
}
