// One level of an update: the place of its page, the pages rebuilt together, and what the parent then has to change.
// Nothing is written here: the plan and the application both read through these functions.
#![tactic(auto)]

ghost use Rattle.std.specs.Prelude.{◌≡◌, ◌*◌, ◌<◌, ◌&&◌, leb, ltb, eqb, length};
ghost use Rattle.model.specs.Basic.{pick};
ghost use Rattle.model.specs.Store.{page};
ghost use Rattle.model.specs.Rules.{gather_by};
ghost use Rattle.model.specs.Needs.{takes_in_place};
ghost use Rattle.edit.specs.Change.{change_of};
ghost use Rattle.gather.specs.Gather.{Good, pairs_in};
ghost use Rattle.gather.specs.Kept.{Fits};
ghost use Rattle.parts.specs.Kept.{ExactBytes, Inside, pages_of};
ghost use Rattle.group.specs.Group.{around_of, group_of, Placed, Grouped};

use edit::Change;
use gather::Gather;
use model::{Limits, Pair};

mod parent;
mod used;

pub use parent::{parent_change, routers_to};
pub use used::{active_ones, usable};

// The place of a key among a page's live routers: the last one at or below it, and its neighbours.
#[derive(Clone, Copy)]
pub struct Around {
    pub left: Option<Pair>,
    pub own: Pair,
    pub right: Option<Pair>,
}

// One router or two, by key.
#[derive(Clone, Copy)]
pub struct Routers {
    pub first: Pair,
    pub second: Option<Pair>,
}

// The pages of one level that are rebuilt together: their routers, and the pairs gathered from them.
#[derive(Clone, Copy)]
pub struct Group {
    pub routers: Routers,
    pub all: Gather,
}

// Up to two page numbers; in the place of one that is not there stands 0. No Option: the plan of an update reads the 0, the number of no
// router, in a router to a page that is yet to be taken.
#[derive(Clone, Copy)]
pub struct Numbers {
    pub n: usize,
    pub first: usize,
    pub second: usize,
}

// "A page takes its change in place if it then has at most 20 entries, dead ones counted, and [..] has at least 4 live."
pub fn takes_in_place(s: &[u8], l: Limits, n: usize, w: u32, c: Change) -> bool
    requires { ExactBytes l s.now × Inside l s.now n × Fits c }
    ensures { result ≡ takes_in_place l.least w (change_of c) (page (pages_of l s.now) n) }
{
    parts::has_room(s, l, n, w, c) && parts::has_enough(s, l, n, w, c)
}

// "First of all, an index root whose wanted list is one router goes".
pub fn goes(s: &[u8], l: Limits, n: usize, live: usize) -> bool
    requires { ExactBytes l s.now × Inside l s.now n }
    ensures { result ≡ (leb 2 (page (pages_of l s.now) n).level && eqb live 1) }
{
    2 <= parts::level_of(s, l, n) && live == 1
}

// "Gather the wanted list. If the page isn't the root and the list has under 8, add the live entries of its neighbour under the same
// parent: the right one, else the left."
pub fn gathered(s: &[u8], l: Limits, w: u32, a: Around, want: Gather) -> Group
    requires { ExactBytes l s.now × Placed l s.now a × Good want × (want.n < 7 * l.least) }
    ensures { Grouped l s.now result
        × (group_of result ≡ gather_by (ltb (length (pairs_in want)) (2 * l.least)) w (pages_of l s.now) (around_of a) (pairs_in want)) }
{
    let own = a.own;
    if want.n < l.merge {
        if let Some(right) = a.right {
            let routers = Routers {
                first: own,
                second: Some(right),
            };
            let all = gather::joined(want, parts::live_of(s, l, right.value as usize, w));
            return Group { routers, all };
        }
        if let Some(left) = a.left {
            let routers = Routers {
                first: left,
                second: Some(own),
            };
            let all = gather::joined(parts::live_of(s, l, left.value as usize, w), want);
            return Group { routers, all };
        }
    }
    let routers = Routers {
        first: own,
        second: None,
    };
    Group { routers, all: want }
}

// "Up to 16 gathered entries fill one page; more fill two."
pub fn fills(l: Limits, n: usize) -> usize
    ensures { result ≡ pick (leb n (4 * l.least)) 1 2 }
{
    if n <= l.full { 1 } else { 2 }
}
