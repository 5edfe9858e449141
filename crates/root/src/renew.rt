// The root rebuilt alone: into one page, which is the root then, or into two with a new root above.
ghost use Rattle.std.specs.Prelude.{◌≡◌, [], ◌∷◌, ◌^◌, ◌<◌, length};
ghost use Rattle.model.specs.Rules.{rebuilt, rebuild};
ghost use Rattle.model.specs.Climb.{new_root};
ghost use Rattle.edit.specs.Fill.{Fitting};
ghost use Rattle.gather.specs.Gather.{Lists};
ghost use Rattle.parts.specs.Kept.{ExactBytes, pages_of};
ghost use Rattle.group.specs.Group.{routers_of, group_of, Grouped, RoutersFit};
ghost use Rattle.root.specs.Root.{Roots};
ghost use Rattle.root.specs.Renew.{alone_with};

use gather::Gather;
use group::{Group, Routers};
use model::{Limits, Pair, Refusal};

// The root's group: no neighbour is gathered, and its low key is 0.
pub(crate) fn alone(n: usize, want: Gather) -> Group
    requires { n < 2 ^ 32 }
    ensures { result ≡ alone_with n want }
{
    let first = Pair {
        key: 0,
        value: n as u32,
    };
    Group {
        routers: Routers {
            first,
            second: None,
        },
        all: want,
    }
}

// Two routers, as the list that a page is filled from.
fn both(x: Pair, y: Pair) -> Gather
    requires { Fitting x × Fitting y }
    ensures { Lists result (x ∷ y ∷ []) }
{
    let mut list = [x; 56];
    list[1] = y;
    Gather { list, n: 2 }
}

// "A root that becomes two pages gets a new root one level up, taken after them, with low keys 0 and the second's."
fn crown(
    s: &mut [u8],
    l: Limits,
    w: u32,
    level: u32,
    rs: Routers,
    size: usize,
) -> Result<Option<usize>, Refusal>
    requires { ExactBytes l s.old × (w < 2 ^ 20) × (level < 15) × RoutersFit rs
        × (size ≡ length (pages_of l s.old)) }
    ensures { Roots l s.old s.new
        (new_root w level (rebuilt (pages_of l s.old) (routers_of rs))) result }
{
    let Some(next) = rs.second else {
        return Ok(Some(rs.first.value as usize));
    };
    let n = parts::first_free(s, l, 5, size);
    if n == size {
        return Err(Refusal::NoPageFree);
    }
    parts::fill_in(s, l, n, level + 1, w, both(rs.first, next), 0, 2);
    Ok(Some(n))
}

// A root at a level is rebuilt; nothing is written if there is no page for it.
pub(crate) fn new_root(
    s: &mut [u8],
    l: Limits,
    w: u32,
    level: u32,
    g: Group,
    size: usize,
) -> Result<Option<usize>, Refusal>
    requires { ExactBytes l s.old × Grouped l s.old g × (w < 2 ^ 20) × (level < 15) × (size ≡ length (pages_of l s.old)) }
    ensures { Roots l s.old s.new
        (new_root w level (rebuild l.least w level (pages_of l s.old) (group_of g))) result }
{
    let u = group::usable(s, l, w, g.routers, size);
    if u.n < group::fills(l, g.all.n) {
        return Err(Refusal::NoPageFree);
    }
    let rs = group::routers_to(g, l, u.first, u.second);
    climb::rebuild(s, l, w, level, g, u);
    crown(s, l, w, level, rs, size)
}
