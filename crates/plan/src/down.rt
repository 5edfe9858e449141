// The way down to the leaf for a key at the open version, with each level's neighbours.
ghost use Rattle.std.specs.Prelude.{◌≡◌, ◌-◌, ◌≤◌, ◌<◌, length};
ghost use Rattle.model.specs.Walk.{key_limit, around};
ghost use Rattle.model.specs.Page.{pairs_at};
ghost use Rattle.model.specs.Store.{page};
ghost use Rattle.gather.specs.Gather.{Good, pairs_in};
ghost use Rattle.parts.specs.Kept.{ExactBytes, Inside, pages_of};
ghost use Rattle.walk.specs.Sure.{Walkable};
ghost use Rattle.group.specs.Group.{around_of};
ghost use Rattle.plan.specs.Way.{Among, place_at, Leads};

use crate::Way;
use gather::Gather;
use group::Around;
use model::{Limits, Pair};

// The place of the i-th of some pairs, from 1 on.
fn at_place(g: Gather, i: usize) -> Around
    requires { Good g × (g.n < 56) × (1 ≤ i) × (i ≤ g.n) }
    ensures { (around_of result ≡ place_at (pairs_in g) i) × Among (pairs_in g) result }
{
    let list = g.list;
    let left = if i < 2 { None } else { Some(list[i - 2]) };
    let right = if g.n <= i { None } else { Some(list[i]) };
    Around {
        left,
        own: list[i - 1],
        right,
    }
}

// The place of a key among routers: that of the last one at or below it.
fn around_in(g: Gather, key: u32) -> Around
    requires { Good g × (0 < g.n) × (g.n < 56) }
    ensures { (around_of result ≡ around key (pairs_in g)) × Among (pairs_in g) result }
{
    let list = g.list;
    for i in 1..g.n {
        if key < list[i].key {
            return at_place(g, i);
        }
    }
    at_place(g, g.n)
}

// The place of a key among the routers of page n alive at w.
fn place_below(s: &[u8], l: Limits, n: usize, w: u32, key: u32) -> Around
    requires { ExactBytes l s.now × Inside l s.now n × (0 < length (pairs_at w (page (pages_of l s.now) n))) }
    ensures { (around_of result ≡ around key (pairs_at w (page (pages_of l s.now) n)))
        × Among (pairs_at w (page (pages_of l s.now) n)) result }
{
    around_in(parts::live_of(s, l, n, w), key)
}

// The way down to the leaf for a key at version w.
pub fn way_to(s: &[u8], l: Limits, w: u32, key: u32) -> Way
    requires { Walkable l s.now w × (key < key_limit) }
    ensures { Leads l s.now w key result }
{
    let no = Pair { key: 0, value: 0 };
    let nowhere = Around {
        left: None,
        own: no,
        right: None,
    };
    let root = walk::root_at(s, l, w);
    let n = parts::level_of(s, l, root) as usize - 1;
    let mut list = [nowhere; 8];
    let mut at = root;
    for i in 0..n {
        let a = place_below(s, l, at, w, key);
        list[i] = a;
        at = a.own.value as usize;
    }
    Way { root, list, n }
}
