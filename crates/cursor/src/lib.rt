// A cursor over the settings of a version on a sound store: the first one at or above a key. It goes down as a lookup does and takes
// along the key at which the next leaf begins, so that it finds its way on without a list of pages.
#![tactic(auto)]

ghost use Rattle.std.specs.Prelude.{◌≡◌, ◌+◌, ◌<◌};
ghost use Rattle.model.specs.Page.{pairs_at};
ghost use Rattle.model.specs.Store.{page};
ghost use Rattle.model.specs.Walk.{settings, key_limit};
ghost use Rattle.model.specs.Layout.{decode};
ghost use Rattle.walk.specs.Sure.{Walkable};
ghost use Rattle.cursor.specs.First.{at_or_above, leads};
ghost use Rattle.cursor.specs.Leaf.{Below};

use model::{Limits, Pair};
use walk::KEYS;

// A key behind all keys stands for no setting: two cursors are compared by it, with no case for the one that has come to its end.
pub const NONE: Pair = Pair {
    key: KEYS,
    value: 0,
};

// A page on the way down for a key, and the key at which the next page of its level begins; behind the last one 16,777,216.
#[derive(Clone, Copy)]
pub struct Under {
    pub page: usize,
    pub high: u32,
}

// One page further down, to a page `up` levels above the leaves.
fn step(s: &[u8], l: Limits, v: u32, key: u32, u: Under, up: usize) -> Under
    requires { Walkable l s.now v × Below l s.now v (up + 1) key u }
    ensures { Below l s.now v up key result }
{
    let p = store::part(s, l, u.page);
    let h = page::head_of(p, l);
    let o = walk::own_router(p, h.count, v, key);
    let i = walk::next_place(p, h.count, v, 0, KEYS - 1, o.next);
    let high = if i < h.count {
        page::entry_at(p, i).key
    } else {
        u.high
    };
    Under {
        page: o.page as usize,
        high,
    }
}

// The leaf for a key.
pub fn leaf_for(s: &[u8], l: Limits, v: u32, key: u32) -> Under
    requires { Walkable l s.now v × (key < key_limit) }
    ensures { Below l s.now v 0 key result }
{
    let n = walk::root_at(s, l, v);
    let mut u = Under {
        page: n,
        high: KEYS,
    };
    for up in (0..walk::height_of(s, l, n)).rev() {
        u = step(s, l, v, key, u, up);
    }
    u
}

// The first setting of a leaf at or above a key.
fn first_in(s: &[u8], l: Limits, v: u32, key: u32, u: Under) -> Pair
    requires { Walkable l s.now v × Below l s.now v 0 key u }
    ensures { result ≡ leads (at_or_above key (pairs_at v (page (decode l.least s.now).pages u.page))) }
{
    let p = store::part(s, l, u.page);
    let h = page::head_of(p, l);
    let i = walk::next_place(p, h.count, v, key, KEYS - 1, 0);
    if i < h.count {
        let e = page::entry_at(p, i);
        Pair {
            key: e.key,
            value: e.value,
        }
    } else {
        NONE
    }
}

// The first setting of a version at or above a key.
pub fn first_from(s: &[u8], l: Limits, v: u32, low: u32) -> Pair
    requires { Walkable l s.now v }
    ensures { result ≡ leads (at_or_above low (settings (decode l.least s.now) v)) }
{
    let mut key = low;
    while key < KEYS {
        let u = leaf_for(s, l, v, key);
        let x = first_in(s, l, v, key, u);
        if x.key < KEYS {
            return x;
        }
        key = u.high;
    }
    NONE
}
