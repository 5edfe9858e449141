// The page rules applied to a store, level by level, from the leaf up to below the root.
#![tactic(auto)]

mod refill;

ghost use Rattle.std.specs.Prelude.{◌≡◌, ◌^◌, ◌<◌, length};
ghost use Rattle.model.specs.Rules.{regroup, work};
ghost use Rattle.edit.specs.Change.{change_of};
ghost use Rattle.gather.specs.Kept.{Fits};
ghost use Rattle.parts.specs.Kept.{ExactBytes, pages_of};
ghost use Rattle.group.specs.Group.{around_of, group_of, Placed, Grouped};
ghost use Rattle.plan.specs.Plan.{ups_of, Led};
ghost use Rattle.climb.specs.Work.{Works};
ghost use Rattle.climb.specs.Climb.{climb_up};

use edit::Change;
use group::{Around, Group};
use model::{Limits, Refusal};
use plan::Way;
pub use refill::rebuild;

// A group is rebuilt, and its parent has the routers to exchange; or a page is lacking, and nothing is written.
fn regroup(
    s: &mut [u8],
    l: Limits,
    w: u32,
    level: u32,
    g: Group,
    size: usize,
) -> Result<Option<Change>, Refusal>
    requires { ExactBytes l s.old × Grouped l s.old g × (w < 2 ^ 20) × (level < 2 ^ 4) × (size ≡ length (pages_of l s.old)) }
    ensures { Works l s.old s.new
        (regroup l.least w level (pages_of l s.old) (group_of g)) result }
{
    let u = group::usable(s, l, w, g.routers, size);
    if u.n < group::fills(l, g.all.n) {
        return Err(Refusal::NoPageFree);
    }
    let c = group::parent_change(g, l, u);
    rebuild(s, l, w, level, g, u);
    Ok(Some(c))
}

// One page that is not the root: what its parent has to take, or nothing where it takes the change in place.
pub fn work(
    s: &mut [u8],
    l: Limits,
    w: u32,
    a: Around,
    c: Change,
    size: usize,
) -> Result<Option<Change>, Refusal>
    requires { ExactBytes l s.old × Placed l s.old a × Fits c × (w < 2 ^ 20) × (size ≡ length (pages_of l s.old)) }
    ensures { Works l s.old s.new
        (work l.least w (pages_of l s.old) (around_of a) (change_of c)) result }
{
    let n = a.own.value as usize;
    if group::takes_in_place(s, l, n, w, c) {
        parts::change_in(s, l, n, w, c);
        return Ok(None);
    }
    let want = parts::wanted_of(s, l, n, w, c);
    let level = parts::level_of(s, l, n);
    let g = group::gathered(s, l, w, a, want);
    regroup(s, l, w, level, g, size)
}

// "Work goes from the leaf up", to below the root: what the root has to take, or nothing where a page below takes the change in place.
pub fn climb_up(
    s: &mut [u8],
    l: Limits,
    w: u32,
    way: Way,
    c: Change,
    size: usize,
) -> Result<Option<Change>, Refusal>
    requires { ExactBytes l s.old × Led l s.old way × Fits c × (w < 2 ^ 20) × (size ≡ length (pages_of l s.old)) }
    ensures { Works l s.old s.new
        (climb_up l.least w (ups_of way.list way.n) (change_of c) (pages_of l s.old)) result }
{
    let list = way.list;
    let mut d = c;
    for k in (0..way.n).rev() {
        let a = list[k];
        match work(s, l, w, a, d, size)? {
            Some(e) => d = e,
            None => return Ok(None),
        }
    }
    Ok(Some(d))
}
