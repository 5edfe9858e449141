// The plan of an update: the number that it will come to, known before the first write. It reads the pages as they stand, from the leaf
// up, and carries the change that the next page has to take and how many pages are free by then.
#![tactic(auto)]

mod down;

ghost use Rattle.std.specs.Prelude.{◌≡◌, ◌+◌, ◌*◌, ◌^◌, ◌≤◌, ◌<◌, leb, IfErr};
ghost use Rattle.model.specs.Basic.{pick};
ghost use Rattle.model.specs.declared.refusal.Refusal.TheVariants.{NoPageFree};
ghost use Rattle.model.specs.Needs.{goes};
ghost use Rattle.outlook.specs.Plan.{plan_group, plan_work, plan_root, plan_up};
ghost use Rattle.edit.specs.Change.{change_of};
ghost use Rattle.gather.specs.Kept.{Fits};
ghost use Rattle.parts.specs.Kept.{ExactBytes, Inside, pages_of};
ghost use Rattle.group.specs.Group.{around_of, group_of, Placed, Grouped};
ghost use Rattle.plan.specs.Plan.{planned_of, PlannedFits, outlook_of, ups_of, Led};

pub use down::way_to;
use edit::Change;
use group::{Around, Group};
use model::{Limits, Refusal};

// The way down to a leaf: the root, and the first n places below it, the root's child first.
#[derive(Clone, Copy)]
pub struct Way {
    pub root: usize,
    pub list: [Around; 8],
    pub n: usize,
}

// A group is rebuilt: "An active page left over is freed", and a page needed beyond the active ones is taken from the free ones. Its parent
// has a change to take, and so many pages are free by then.
fn plan_group(
    s: &[u8],
    l: Limits,
    w: u32,
    g: Group,
    left: usize,
) -> Result<Option<(Change, usize)>, Refusal>
    requires { ExactBytes l s.now × Grouped l s.now g × (left ≤ 2 ^ 20) }
    ensures { (planned_of result ≡ plan_group l.least w (pages_of l s.now) (group_of g) left)
        × PlannedFits left result × IfErr result (λ r. r ≡ NoPageFree) }
{
    let u = group::active_ones(s, l, w, g.routers);
    let need = group::fills(l, g.all.n);
    let have = u.n + left;
    if have < need {
        return Err(Refusal::NoPageFree);
    }
    Ok(Some((group::parent_change(g, l, u), have - need)))
}

// One page that is not the root: what its parent has to take, or nothing where it takes its change in place.
fn plan_level(
    s: &[u8],
    l: Limits,
    w: u32,
    a: Around,
    c: Change,
    left: usize,
) -> Result<Option<(Change, usize)>, Refusal>
    requires { ExactBytes l s.now × Placed l s.now a × Fits c × (left ≤ 2 ^ 20) }
    ensures { (planned_of result ≡ plan_work l.least w (pages_of l s.now) (around_of a) (change_of c) left)
        × PlannedFits left result × IfErr result (λ r. r ≡ NoPageFree) }
{
    let n = a.own.value as usize;
    if group::takes_in_place(s, l, n, w, c) {
        return Ok(None);
    }
    let want = parts::wanted_of(s, l, n, w, c);
    plan_group(s, l, w, group::gathered(s, l, w, a, want), left)
}

// A page for each half of the root, and "a new root one level up, taken after them".
fn root_fills(l: Limits, n: usize) -> usize
    ensures { result ≡ pick (leb n (4 * l.least)) 1 3 }
{
    if n <= l.full { 1 } else { 3 }
}

// The root: whether another page becomes it.
fn plan_root(s: &[u8], l: Limits, w: u32, n: usize, c: Change, left: usize) -> Result<bool, Refusal>
    requires { ExactBytes l s.now × Inside l s.now n × Fits c × (left ≤ 2 ^ 20) }
    ensures { (outlook_of result ≡ plan_root l.least w (pages_of l s.now) n (change_of c) left)
        × IfErr result (λ r. r ≡ NoPageFree) }
{
    let want = parts::wanted_of(s, l, n, w, c);
    if group::goes(s, l, n, want.n) {
        return Ok(true);
    }
    if parts::has_room(s, l, n, w, c) {
        return Ok(false);
    }
    let have = usize::from(parts::is_active(s, l, n, w)) + left;
    if have < root_fills(l, want.n) {
        return Err(Refusal::NoPageFree);
    }
    Ok(true)
}

// "Work goes from the leaf up": whether another page becomes the root.
pub fn plan_up(
    s: &[u8],
    l: Limits,
    w: u32,
    way: Way,
    c: Change,
    left: usize,
) -> Result<bool, Refusal>
    requires { ExactBytes l s.now × Led l s.now way × Fits c × (left ≤ 4096) }
    ensures { (outlook_of result ≡ plan_up l.least w (pages_of l s.now) way.root (ups_of way.list way.n) (change_of c) left)
        × IfErr result (λ r. r ≡ NoPageFree) }
{
    let list = way.list;
    let mut d = c;
    let mut free = left;
    for k in (0..way.n).rev() {
        let a = list[k];
        match plan_level(s, l, w, a, d, free)? {
            Some((e, n)) => {
                d = e;
                free = n;
            }
            None => return Ok(false),
        }
    }
    plan_root(s, l, w, way.root, d, free)
}
