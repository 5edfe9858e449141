// A range's settings by the table: a router below which nothing is found is not followed, so that each one followed leads to a setting that
// is written.
ghost use Rattle.std.specs.Prelude.{◌≡◌, true, ◌+◌, ◌*◌, ◌≤◌};
ghost use Rattle.model.specs.Walk.{range_below};
ghost use Rattle.model.specs.Layout.{page_of, decode};
ghost use Rattle.local.specs.Local.{count_at};
ghost use Rattle.model.specs.Near.{range_right};
ghost use Rattle.walk.specs.Written.{PairSpace, PairGathers};
ghost use Rattle.tabled.specs.Across.{right_from};
ghost use Rattle.tabled.specs.Here.{Reads};
ghost use Rattle.tabled.specs.Cells.{Table};
ghost use Rattle.tabled.specs.Skips.{Turns, Skips};

use model::Limits;
use walk::Query;

// The place of the next router of page n, from i on, that the range follows and below which it finds a setting; the count if there is none.
// The page's children stand `up` levels above the leaves.
fn next_some(table: &[usize], s: &[u8], l: Limits, q: Query, n: usize, up: usize, i: usize) -> usize
    requires { Turns l s.now q.version q.low q.high up n table.now × (i ≤ count_at l.least s.now n)
        × (right_from l.least s.now q.version q.high up (page_of l.least s.now n) (count_at l.least s.now n) i ≡ true) }
    ensures { Skips l.least s.now q.version q.low q.high up n i result }
{
    let p = store::part(s, l, n);
    let h = page::head_of(p, l);
    let count = h.count;
    let mut k = walk::next_place(p, count, q.version, 0, q.high, i);
    while k < count {
        if crate::table::cell(table, l, n, k) != crate::table::cell(table, l, n, k + 1) {
            return k;
        }
        k = walk::next_place(p, count, q.version, 0, q.high, k + 1);
    }
    k
}

// The settings that a range asks for below page n, `up` levels above the leaves, behind the first `found` of a list; gives how many there
// are then. Its walk has been found right, and the table has the numbers of its pages.
pub fn gather_by(
    table: &[usize],
    s: &[u8],
    l: Limits,
    q: Query,
    n: usize,
    up: usize,
    at: u32,
    list: &mut [u32],
    found: usize,
) -> usize
    requires { Reads l s.now × (range_right l.least s.now q.version up q.high at n ≡ true)
        × PairSpace q.write list.old found (range_below up (decode l.least s.now).pages q.version q.low q.high at n)
        × Table l.least s.now q.version q.low q.high ((up + 2) * 4096) table.now }
    ensures { PairGathers q.write list.old list.new found result
        (range_below up (decode l.least s.now).pages q.version q.low q.high at n) }
{
    let p = store::part(s, l, n);
    let h = page::head_of(p, l);
    let count = h.count;
    if up == 0 {
        return walk::settings(p, count, q, list, found);
    }
    let o = walk::own_router(p, count, q.version, at);
    let mut k = gather_by(table, s, l, q, o.page as usize, up - 1, at, list, found);
    let mut i = next_some(table, s, l, q, n, up - 1, o.next);
    while i < count {
        let e = page::entry_at(p, i);
        k = gather_by(table, s, l, q, e.value as usize, up - 1, e.key, list, k);
        i = next_some(table, s, l, q, n, up - 1, i + 1);
    }
    k
}
