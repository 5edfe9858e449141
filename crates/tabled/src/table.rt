// A range on bytes made to keep it busy: routers of many pages lead to few, and the ways down multiply. A later router hands its child its
// own key, so what stands below it depends on the router alone. Here it is found once for each, and kept in a table: for each page and
// place one number of the routers from there on, 0 where a walk below one of them is wrong, else one more than the settings found there.
// The number is no Option: that would take two words a place, of a table that has to lie on the stack.
//
// What bounds the steps: each router of each page is gone down once, a page a level, and the routers behind the one followed there are
// told by the table: 4,096 pages of 20 routers, six levels, a search in one page each.
ghost use Rattle.std.specs.Prelude.{◌≡◌, true, pred, ◌+◌, ◌*◌, ◌-◌, ◌^◌, ◌≤◌, ◌<◌, length, get_or, set};
ghost use Rattle.model.specs.Near.{page_right};
ghost use Rattle.local.specs.Right.{Known};
ghost use Rattle.tabled.specs.Told.{join};
ghost use Rattle.tabled.specs.Table.{found, turn};
ghost use Rattle.tabled.specs.Cells.{Table};

use crate::Asked;
use model::{Entry, Limits};
use walk::Query;

fn place(l: Limits, n: usize, i: usize) -> usize
    requires { (n < 4096) × (i ≤ 5 * l.least) }
    ensures { result ≡ n * (5 * l.least + 1) + i }
{
    n * (5 * l.least + 1) + i
}

pub(crate) fn cell(table: &[usize], l: Limits, n: usize, i: usize) -> usize
    requires { (n < 4096) × (i ≤ 5 * l.least) × (4096 * (5 * l.least + 1) ≤ length table.now) }
    ensures { result ≡ get_or table.now (n * (5 * l.least + 1) + i) 0 }
{
    table[place(l, n, i)]
}

fn put(table: &mut [usize], l: Limits, n: usize, i: usize, x: usize)
    requires { (n < 4096) × (i ≤ 5 * l.least) × (4096 * (5 * l.least + 1) ≤ length table.old) }
    ensures { table.new ≡ set table.old (n * (5 * l.least + 1) + i) x }
{
    table[place(l, n, i)] = x;
}

// Two walks, one after the other.
fn joined(a: usize, b: usize) -> usize
    requires { (a ≤ 2 ^ 50) × (b ≤ 2 ^ 50) }
    ensures { result ≡ join a b }
{
    if a == 0 || b == 0 { 0 } else { a - 1 + b }
}

// A walk that has come to page n, a leaf.
fn leaf(s: &[u8], l: Limits, q: Asked, n: usize) -> usize
    requires { Known l.least s.now q.size q.last × (length s.now ≤ 2 ^ 40) }
    ensures { result ≡ found l.least s.now q.version q.low q.high 0 0 n }
{
    if !local::page_right(s, l, q.last, q.size, 1, n) {
        return 0;
    }
    let p = store::part(s, l, n);
    let h = page::head_of(p, l);
    let counting = Query {
        low: q.low,
        high: q.high,
        version: q.version,
        write: false,
    };
    let mut none = [0; 1];
    walk::settings(p, h.count, counting, &mut none, 0) + 1
}

// One page of a walk: the number of the routers behind the one followed, and the page that that one leads to. Where the page is wrong the
// number is 0, as the table would have it.
#[derive(Clone, Copy)]
struct Passed {
    rest: usize,
    page: usize,
}

fn step(s: &[u8], l: Limits, q: Asked, table: &[usize], n: usize, level: u32, at: u32) -> Passed
    requires { Known l.least s.now q.size q.last × (length s.now ≤ 2 ^ 40) × (1 < level)
        × Table l.least s.now q.version q.low q.high ((level + 1) * 4096) table.now }
    ensures { (found l.least s.now q.version q.low q.high (pred level) at n ≡ join result.rest (found l.least s.now q.version q.low q.high (pred (level - 1)) at result.page)) × (result.rest ≤ 2 ^ 41) }
{
    if !local::page_right(s, l, q.last, q.size, level, n)
        || !crate::starts(s, l, n, q.version, at)
    {
        return Passed { rest: 0, page: 0 };
    }
    let p = store::part(s, l, n);
    let h = page::head_of(p, l);
    let o = walk::own_router(p, h.count, q.version, at);
    Passed {
        rest: cell(table, l, n, o.next),
        page: o.page as usize,
    }
}

// The walk from page n, which is to have this level and cover the key `at`.
pub fn down(s: &[u8], l: Limits, q: Asked, table: &[usize], n: usize, level: u32, at: u32) -> usize
    requires { Known l.least s.now q.size q.last × (length s.now ≤ 2 ^ 40) × (0 < level) × (level ≤ 7)
        × Table l.least s.now q.version q.low q.high ((level + 1) * 4096) table.now }
    ensures { result ≡ found l.least s.now q.version q.low q.high (pred level) at n }
{
    let mut sum = 1;
    let mut m = n;
    for k in (2..=level).rev() {
        let w = step(s, l, q, table, m, k, at);
        sum = joined(sum, w.rest);
        m = w.page;
    }
    joined(sum, leaf(s, l, q, m))
}

// The walk below a router; 1 for one that the range does not follow.
fn through(s: &[u8], l: Limits, q: Asked, table: &[usize], e: Entry, level: u32) -> usize
    requires { Known l.least s.now q.size q.last × (length s.now ≤ 2 ^ 40) × (0 < level) × (level ≤ 7)
        × Table l.least s.now q.version q.low q.high ((level + 1) * 4096) table.now }
    ensures { result ≡ turn l.least s.now q.version q.low q.high (pred level) e }
{
    if page::alive_at(e, q.version) && e.key <= q.high {
        down(s, l, q, table, e.value as usize, level, e.key)
    } else {
        1
    }
}

// The numbers of page n, which is right and has this level, from its last router on.
fn fill_page(table: &mut [usize], s: &[u8], l: Limits, q: Asked, n: usize, level: u32)
    requires { Known l.least s.now q.size q.last × (length s.now ≤ 2 ^ 40) × (1 < level) × (level ≤ 7)
        × (page_right l.least s.now level n ≡ true) × Table l.least s.now q.version q.low q.high (level * 4096 + n) table.old }
    ensures { Table l.least s.now q.version q.low q.high (level * 4096 + n + 1) table.new }
{
    let p = store::part(s, l, n);
    let h = page::head_of(p, l);
    let mut rest = 1;
    put(table, l, n, h.count, rest);
    for i in (0..h.count).rev() {
        let e = page::entry_at(p, i);
        rest = joined(rest, through(s, l, q, table, e, level - 1));
        put(table, l, n, i, rest);
    }
}

// Page n, if it is right and has this level.
fn fill_at(table: &mut [usize], s: &[u8], l: Limits, q: Asked, n: usize, level: u32)
    requires { Known l.least s.now q.size q.last × (length s.now ≤ 2 ^ 40) × (1 < level) × (level ≤ 7) × (n < 4096)
        × Table l.least s.now q.version q.low q.high (level * 4096 + n) table.old }
    ensures { Table l.least s.now q.version q.low q.high (level * 4096 + n + 1) table.new }
{
    if local::page_right(s, l, q.last, q.size, level, n) {
        fill_page(table, s, l, q, n, level);
    }
}

// The pages of one level.
fn fill_level(table: &mut [usize], s: &[u8], l: Limits, q: Asked, level: u32)
    requires { Known l.least s.now q.size q.last × (length s.now ≤ 2 ^ 40) × (1 < level) × (level ≤ 7)
        × Table l.least s.now q.version q.low q.high (level * 4096) table.old }
    ensures { Table l.least s.now q.version q.low q.high ((level + 1) * 4096) table.new }
{
    for n in 0..4096 {
        fill_at(table, s, l, q, n, level);
    }
}

// The pages of each level up to this one, from the lowest up: a walk goes down a level at a time.
pub fn fill_levels(table: &mut [usize], s: &[u8], l: Limits, q: Asked, level: u32)
    requires { Known l.least s.now q.size q.last × (length s.now ≤ 2 ^ 40) × (0 < level) × (level ≤ 7)
        × (4096 * (5 * l.least + 1) ≤ length table.old) }
    ensures { Table l.least s.now q.version q.low q.high ((level + 1) * 4096) table.new }
{
    for k in 2..=level {
        fill_level(table, s, l, q, k);
    }
}
