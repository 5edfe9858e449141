// A group is rebuilt: its pages go, and the pages now used are filled with what was gathered.
ghost use Rattle.std.specs.Prelude.{◌*◌, ◌^◌, ◌≤◌, ◌<◌, set, take};
ghost use Rattle.model.specs.Page.{filled};
ghost use Rattle.model.specs.Rules.{retire, usable};
ghost use Rattle.model.specs.Needs.{fills};
ghost use Rattle.gather.specs.Gather.{pairs_in};
ghost use Rattle.parts.specs.Kept.{ExactBytes, Inside, pages_of};
ghost use Rattle.parts.specs.Becomes.{Becomes};
ghost use Rattle.group.specs.Group.{routers_of, Routed, Grouped};
ghost use Rattle.group.specs.Numbers.{Numbered};
ghost use Rattle.climb.specs.Work.{filled_two, Rebuilds};

use group::{Group, Numbers, Routers};
use model::Limits;

// "An active page left over is freed and zeroed. Inactive pages gathered [..] are killed": all of them go, and the pages used are
// filled after.
fn retire(s: &mut [u8], l: Limits, w: u32, rs: Routers)
    requires { ExactBytes l s.old × Routed l s.old rs × (w < 2 ^ 20) }
    ensures { Becomes l s.old s.new (retire w (pages_of l s.old) (routers_of rs)) }
{
    parts::go_in(s, l, rs.first.value as usize, w);
    if let Some(x) = rs.second {
        parts::go_in(s, l, x.value as usize, w);
    }
}

// "Up to 16 gathered entries fill one page".
fn one_page(s: &mut [u8], l: Limits, w: u32, level: u32, g: Group, to: usize)
    requires { ExactBytes l s.old × Grouped l s.old g × (w < 2 ^ 20) × (level < 2 ^ 4) × Inside l s.old to
        × (g.all.n ≤ 4 * l.least) }
    ensures { Becomes l s.old s.new
        (set (retire w (pages_of l s.old) (routers_of g.routers)) to (filled w level (pairs_in g.all))) }
{
    retire(s, l, w, g.routers);
    parts::fill_in(s, l, to, level, w, g.all, 0, g.all.n);
}

// "more fill two, the lower taking the odd one"
fn two_pages(s: &mut [u8], l: Limits, w: u32, level: u32, g: Group, to: usize, next: usize)
    requires { ExactBytes l s.old × Grouped l s.old g × (w < 2 ^ 20) × (level < 2 ^ 4) × Inside l s.old to
        × Inside l s.old next }
    ensures { Becomes l s.old s.new
        (filled_two w level (retire w (pages_of l s.old) (routers_of g.routers)) g to next) }
{
    retire(s, l, w, g.routers);
    let half = (g.all.n + 1) / 2;
    parts::fill_in(s, l, to, level, w, g.all, 0, half);
    parts::fill_in(s, l, next, level, w, g.all, half, g.all.n);
}

// A group is rebuilt into the pages u, of which there are enough.
pub fn rebuild(s: &mut [u8], l: Limits, w: u32, level: u32, g: Group, u: Numbers)
    requires { ExactBytes l s.old × Grouped l s.old g × (w < 2 ^ 20) × (level < 2 ^ 4)
        × Numbered u (take 2 (usable w (pages_of l s.old) (routers_of g.routers))) × (fills l.least (pairs_in g.all) ≤ u.n) }
    ensures { Rebuilds l s.old s.new w level g u }
{
    if g.all.n <= l.full {
        one_page(s, l, w, level, g, u.first);
    } else {
        two_pages(s, l, w, level, g, u.first, u.second);
    }
}
