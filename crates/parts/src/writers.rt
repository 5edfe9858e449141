// Page n of a store written in place: each writer is lent the page's part.
ghost use Rattle.std.specs.Prelude.{◌*◌, ◌-◌, ◌^◌, ◌≤◌, ◌<◌, length, set, take, drop};
ghost use Rattle.model.specs.Page.{filled, gone, changed};
ghost use Rattle.model.specs.Store.{page};
ghost use Rattle.edit.specs.Change.{change_of};
ghost use Rattle.gather.specs.Gather.{Good, pairs_in};
ghost use Rattle.gather.specs.Kept.{Fits};
ghost use Rattle.parts.specs.Kept.{ExactBytes, Inside, pages_of};
ghost use Rattle.parts.specs.Becomes.{Becomes};

use edit::Change;
use gather::Gather;
use model::Limits;

// Page n goes: an active page is freed and zeroed, another killed.
pub fn go_in(s: &mut [u8], l: Limits, n: usize, w: u32)
    requires { ExactBytes l s.old × Inside l s.old n × (w < 2 ^ 20) }
    ensures { Becomes l s.old s.new
        (set (pages_of l s.old) n (gone w (page (pages_of l s.old) n))) }
{
    let a = store::offset(l, n);
    edit::go(&mut s[a..a + l.bytes], l, w);
}

// Page n takes a change in place.
pub fn change_in(s: &mut [u8], l: Limits, n: usize, w: u32, c: Change)
    requires { ExactBytes l s.old × Inside l s.old n × (w < 2 ^ 20) × Fits c
        × (length (changed w (change_of c) (page (pages_of l s.old) n)).entries ≤ 5 * l.least) }
    ensures { Becomes l s.old s.new
        (set (pages_of l s.old) n (changed w (change_of c) (page (pages_of l s.old) n))) }
{
    let a = store::offset(l, n);
    edit::take_change(&mut s[a..a + l.bytes], l, w, c);
}

// Page n is filled with the pairs of a list from place `from` up to, not including, place `to`.
pub fn fill_in(
    s: &mut [u8],
    l: Limits,
    n: usize,
    level: u32,
    w: u32,
    g: Gather,
    from: usize,
    to: usize,
)
    requires { ExactBytes l s.old × Inside l s.old n × (level < 2 ^ 4) × (w < 2 ^ 20) × Good g × (from ≤ to) × (to ≤ g.n)
        × (to - from ≤ 5 * l.least) }
    ensures { Becomes l s.old s.new
        (set (pages_of l s.old) n (filled w level (take (to - from) (drop from (pairs_in g))))) }
{
    let a = store::offset(l, n);
    edit::fill(&mut s[a..a + l.bytes], l, level, w, g.list, from, to - from);
}
