// What the parent of a group has to change.
ghost use Rattle.std.specs.Prelude.{◌≡◌, ◌^◌, ◌<◌};
ghost use Rattle.model.specs.Basic.{any};
ghost use Rattle.model.specs.Rules.{same_pair, exchange};
ghost use Rattle.edit.specs.Change.{change_of};
ghost use Rattle.edit.specs.Fill.{Fitting};
ghost use Rattle.gather.specs.Gather.{Good};
ghost use Rattle.gather.specs.Kept.{Fits};
ghost use Rattle.group.specs.Group.{routers_of, routers_now, RoutersFit, Apart};

use crate::{Group, Numbers, Routers};
use edit::Change;
use model::{Limits, Pair};

// The routers that lead to the pages now used. "The first new low key is the lowest old one; the second is the second page's first key."
pub fn routers_to(g: Group, l: Limits, first: usize, second: usize) -> Routers
    requires { Good g.all × Fitting g.routers.first × (first < 2 ^ 32) × (second < 2 ^ 32) }
    ensures { (routers_of result ≡ routers_now l g first second)
        × RoutersFit result }
{
    let n = g.all.n;
    let one = Pair {
        key: g.routers.first.key,
        value: first as u32,
    };
    if n <= l.full {
        return Routers {
            first: one,
            second: None,
        };
    }
    let list = g.all.list;
    let k = (n + 1) / 2;
    let next = Pair {
        key: list[k].key,
        value: second as u32,
    };
    Routers {
        first: one,
        second: Some(next),
    }
}

// As the definition has it by name, which `among` tests with.
fn same_pair(x: Pair, y: Pair) -> bool
    ensures { result ≡ same_pair x y }
{
    x == y
}

// Whether x is one of these.
fn among(x: Pair, rs: Routers) -> bool
    ensures { result ≡ any (same_pair x) (routers_of rs) }
{
    same_pair(x, rs.first)
        || match rs.second {
            Some(y) => same_pair(x, y),
            None => false,
        }
}

// How many of these are not among those, and the pairs: the first n of two.
fn apart(rs: Routers, others: Routers) -> (u32, Pair, Pair)
    ensures { Apart rs others result.0 result.1 result.2 }
{
    let x = rs.first;
    let first = !among(x, others);
    match rs.second {
        Some(y) if !among(y, others) => { if first { (2, x, y) } else { (1, y, y) } }
        _ => (if first { 1 } else { 0 }, x, x),
    }
}

// "The parent's wanted list drops the old routers and takes one for each page now used; a router with the same low key and page stays
// untouched."
fn exchange(olds: Routers, news: Routers) -> Change
    requires { RoutersFit news }
    ensures { (change_of result ≡ exchange (routers_of olds) (routers_of news)) × Fits result }
{
    let (drops, x, y) = apart(olds, news);
    let (takes, take1, take2) = apart(news, olds);
    Change {
        drops,
        drop1: x.key,
        drop2: y.key,
        takes,
        take1,
        take2,
    }
}

// What the parent of a group has to change when its pages are now these.
pub fn parent_change(g: Group, l: Limits, u: Numbers) -> Change
    requires { Good g.all × Fitting g.routers.first × (u.first < 2 ^ 32) × (u.second < 2 ^ 32) }
    ensures { (change_of result ≡ exchange (routers_of g.routers) (routers_now l g u.first u.second)) × Fits result }
{
    exchange(g.routers, routers_to(g, l, u.first, u.second))
}
