// The live entries of one page, and what a rule asks of them.
ghost use Rattle.std.specs.Prelude.{◌≡◌, ◌+◌, ◌*◌, ◌^◌, ◌≤◌, ◌<◌, length, ltb};
ghost use Rattle.model.specs.Basic.{pick};
ghost use Rattle.model.specs.Sound.{fewest, starts_at};
ghost use Rattle.model.specs.Layout.{read_entry};
ghost use Rattle.reach.specs.Pending.{NextLive, pairs_from, open_ok, step_ok};

use crate::marks::Item;
use model::{Entry, Limits};

// The place of the first live entry from i on, or n.
pub(crate) fn next_live(page: &[u8], v: u32, i: usize, n: usize) -> usize
    requires { (16 + 12 * n ≤ length page.now) × (length page.now ≤ 2 ^ 40) × (i ≤ n) }
    ensures { NextLive page.now v i n result }
{
    for k in i..n {
        let e = page::entry_at(page, k);
        if page::alive_at(e, v) {
            return k;
        }
    }
    n
}

fn count_live(page: &[u8], v: u32, n: usize) -> usize
    requires { (16 + 12 * n ≤ length page.now) × (length page.now ≤ 2 ^ 40) }
    ensures { result ≡ length (pairs_from page.now v 0 n) }
{
    let mut c = 0;
    let mut k = next_live(page, v, 0, n);
    while k < n {
        c += 1;
        k = next_live(page, v, k + 1, n);
    }
    c
}

// The key at place k, or `high` behind the last one: "the next one's", or the bound that the page itself inherited.
pub(crate) fn upper(page: &[u8], k: usize, n: usize, high: u32) -> u32
    requires { (16 + 12 * n ≤ length page.now) × (length page.now ≤ 2 ^ 40) }
    ensures { result ≡ pick (ltb k n) (read_entry page.now (128 + 96 * k)).key high }
{
    if k < n {
        page::entry_at(page, k).key
    } else {
        high
    }
}

// "at least 4 live entries; an index root at least 2; a leaf root any number"
fn fewest(l: Limits, root: bool, up: usize) -> usize
    ensures { result ≡ fewest l.least root up }
{
    if !root {
        l.least
    } else if up == 0 {
        0
    } else {
        2
    }
}

// The first live entry, if there is one, has the page's low key.
fn starts_at(page: &[u8], v: u32, n: usize, low: u32) -> bool
    requires { (16 + 12 * n ≤ length page.now) × (length page.now ≤ 2 ^ 40) }
    ensures { result ≡ starts_at low (pairs_from page.now v 0 n) }
{
    let j = next_live(page, v, 0, n);
    n <= j || page::entry_at(page, j).key == low
}

// What rule 4 or 5 asks of a reached page as a whole; rule 6 asks nothing of it.
#[tactic(auto, unfolding(crate::specs::Pending::open_ok))]
pub(crate) fn opens(page: &[u8], l: Limits, v: u32, n: usize, rule: u32, it: Item) -> bool
    requires { (16 + 12 * n ≤ length page.now) × (length page.now ≤ 2 ^ 40) }
    ensures { result ≡ open_ok l.least rule it.root it.up it.low (pairs_from page.now v 0 n) }
{
    if rule == 4 {
        it.up == 0 || starts_at(page, v, n, it.low)
    } else {
        rule != 5 || fewest(l, it.root, it.up) <= count_live(page, v, n)
    }
}

// What rule 4 asks of each live entry: its key lies in the page's bounds and below the next one's.
#[tactic(auto, unfolding(crate::specs::Pending::step_ok))]
pub(crate) fn steps(rule: u32, low: u32, high: u32, next: u32, key: u32) -> bool
    ensures { result ≡ step_ok rule low high next key }
{
    rule != 4 || (low <= key && key < high && key < next)
}
