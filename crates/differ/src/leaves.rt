// What differs between two leaves, each at its own version, in a stretch of keys.
ghost use Rattle.std.specs.Prelude.{◌≡◌, true, ◌&&◌, [], ◌+◌, ◌≤◌, eqb};
ghost use Rattle.walk.specs.Scan.{Stands, from};
ghost use Rattle.walk.specs.Sure.{Walkable};
ghost use Rattle.cursor.specs.First.{at_or_above};
ghost use Rattle.cursor.specs.Leaf.{Below};
ghost use Rattle.differ.specs.Side.{rest, At, Ordered};
ghost use Rattle.differ.specs.Quiet.{moves, quiet};
ghost use Rattle.differ.specs.Leaves.{asked, in_leaves};
ghost use Rattle.model.specs.Inner.{rising};
ghost use Rattle.model.specs.Telling.{Space, Gathers, deltas};

use cursor::Under;
use model::{Entry, Limits, Pair};
use walk::KEYS;

// What is asked: the two versions, the lowest and the highest key, and whether the differences are to be written or only counted. That is a
// flag and no closure, since one contract says of both passes what is gathered (model/specs/Telling).
#[derive(Clone, Copy)]
pub struct Ask {
    pub old: u32,
    pub new: u32,
    pub low: u32,
    pub high: u32,
    pub write: bool,
}

// How far a leaf is gone through: the place of its next setting in the stretch, and the setting, or none.
#[derive(Clone, Copy)]
pub struct Side {
    pub place: usize,
    pub pair: Pair,
}

// The next setting from place i on.
fn side_from(page: &[u8], n: usize, v: u32, low: u32, high: u32, i: usize) -> Side
    requires { Stands page.now n × (i ≤ n) × (rising (rest page.now n v low high i) ≡ true) }
    ensures { At page.now n v low high result
        × (rest page.now n v low high result.place ≡ rest page.now n v low high i) }
{
    let place = walk::next_place(page, n, v, low, high, i);
    let pair = if place < n {
        let e = page::entry_at(page, place);
        Pair {
            key: e.key,
            value: e.value,
        }
    } else {
        cursor::NONE
    };
    Side { place, pair }
}

// The next setting at or above a key that is at most one above where the side stands.
fn on(page: &[u8], n: usize, v: u32, low: u32, high: u32, x: Side, key: u32) -> Side
    requires { Stands page.now n × At page.now n v low high x × (key ≤ x.pair.key + 1) }
    ensures { At page.now n v low high result
        × (rest page.now n v low high result.place ≡ at_or_above key (rest page.now n v low high x.place)) }
{
    if key <= x.pair.key || n <= x.place {
        x
    } else {
        side_from(page, n, v, low, high, x.place + 1)
    }
}

// What differs from the stretch in the leaf p, of m entries, to that in the leaf q, of n, behind the first `found` of a list; gives how
// many there are then. Each step leaves an entry of one of the two leaves behind.
fn merge(p: &[u8], m: usize, q: &[u8], n: usize, a: Ask, list: &mut [u32], found: usize) -> usize
    requires { Stands p.now m × Stands q.now n × Ordered (rest p.now m a.old a.low a.high 0)
        × Ordered (rest q.now n a.new a.low a.high 0)
        × Space deltas a.write list.old found (asked p.now m q.now n a) }
    ensures { Gathers deltas a.write list.old list.new found result
        (asked p.now m q.now n a) }
{
    let mut sum = found;
    let mut key = 0;
    let mut x = side_from(p, m, a.old, a.low, a.high, 0);
    let mut y = side_from(q, n, a.new, a.low, a.high, 0);
    while key < KEYS {
        let d = crate::telling::compared(x.pair, y.pair);
        sum = crate::telling::put(list, sum, d, a.write);
        key = d.key + 1;
        x = on(p, m, a.old, a.low, a.high, x, key);
        y = on(q, n, a.new, a.low, a.high, y, key);
    }
    sum
}

// Whether an entry is alive at one of two versions and not at the other.
fn moves(e: Entry, u: u32, v: u32) -> bool
    ensures { result ≡ moves u v e }
{
    page::alive_at(e, u) != page::alive_at(e, v)
}

// Whether none of a page's entries is: it shows the same at both.
fn quiet(page: &[u8], n: usize, u: u32, v: u32) -> bool
    requires { Stands page.now n }
    ensures { result ≡ quiet u v (from page.now 0 n) }
{
    (0..n).all(|i| !moves(page::entry_at(page, i), u, v))
}

// Whether two leaves are one page that shows the same at both versions.
fn same(page: &[u8], n: usize, a: Ask, x: usize, y: usize) -> bool
    requires { Stands page.now n }
    ensures { result ≡ (eqb x y && quiet a.old a.new (from page.now 0 n)) }
{
    x == y && quiet(page, n, a.old, a.new)
}

// Whether the leaves of a stretch are such a page: nothing differs there.
pub fn alike(s: &[u8], l: Limits, a: Ask, x: Under, y: Under) -> bool
    requires { Walkable l s.now a.old × Walkable l s.now a.new × Below l s.now a.old 0 a.low x
        × Below l s.now a.new 0 a.low y }
    ensures { result ≡ true → in_leaves l s.now a x y ≡ [] }
{
    let p = store::part(s, l, x.page);
    let h = page::head_of(p, l);
    same(p, h.count, a, x.page, y.page)
}

// What differs in a stretch from the leaf x of the old version to the leaf y of the new one.
pub fn tell(
    s: &[u8],
    l: Limits,
    a: Ask,
    x: Under,
    y: Under,
    list: &mut [u32],
    found: usize,
) -> usize
    requires { Walkable l s.now a.old × Walkable l s.now a.new × Below l s.now a.old 0 a.low x
        × Below l s.now a.new 0 a.low y × Space deltas a.write list.old found (in_leaves l s.now a x y) }
    ensures { Gathers deltas a.write list.old list.new found result (in_leaves l s.now a x y) }
{
    let p = store::part(s, l, x.page);
    let h = page::head_of(p, l);
    if same(p, h.count, a, x.page, y.page) {
        return found;
    }
    let q = store::part(s, l, y.page);
    let g = page::head_of(q, l);
    merge(p, h.count, q, g.count, a, list, found)
}
