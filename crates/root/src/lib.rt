// The root's step of an update, and the directory slot that a new root takes.
#![tactic(auto)]

mod renew;
mod slots;

ghost use Rattle.std.specs.Prelude.{◌≡◌, ◌^◌, ◌<◌, length, get_or, set};
ghost use Rattle.model.specs.Page.{gone};
ghost use Rattle.model.specs.Store.{page};
ghost use Rattle.model.specs.Climb.{work_root};
ghost use Rattle.edit.specs.Change.{change_of};
ghost use Rattle.edit.specs.Fill.{nil};
ghost use Rattle.gather.specs.Gather.{Good, pairs_in};
ghost use Rattle.gather.specs.Kept.{Fits};
ghost use Rattle.parts.specs.Kept.{ExactBytes, Inside, pages_of};
ghost use Rattle.parts.specs.Becomes.{Becomes};
ghost use Rattle.root.specs.Root.{Roots};

use edit::Change;
use gather::Gather;
use model::{Limits, Refusal};
pub use slots::{slot_left, take_slot};

// The root goes, and "that child becomes the root": the page of its first wanted router.
fn give_way(s: &mut [u8], l: Limits, w: u32, n: usize, want: Gather) -> usize
    requires { ExactBytes l s.old × Inside l s.old n × (w < 2 ^ 20) × Good want × (0 < want.n) }
    ensures { (result ≡ (get_or (pairs_in want) 0 nil).value)
        × Becomes l s.old s.new (set (pages_of l s.old) n (gone w (page (pages_of l s.old) n))) }
{
    parts::go_in(s, l, n, w);
    want.list[0].value as usize
}

// "First of all, an index root whose wanted list is one router goes"; else the root takes its change in place, or is rebuilt alone. Gives the page
// that becomes the root, or nothing where it stays.
pub fn work_root(
    s: &mut [u8],
    l: Limits,
    w: u32,
    n: usize,
    c: Change,
    size: usize,
) -> Result<Option<usize>, Refusal>
    requires { ExactBytes l s.old × Inside l s.old n × Fits c × (w < 2 ^ 20) × (size ≡ length (pages_of l s.old))
        × ((page (pages_of l s.old) n).level < 15) }
    ensures { Roots l s.old s.new
        (work_root l.least w (pages_of l s.old) n (change_of c)) result }
{
    let want = parts::wanted_of(s, l, n, w, c);
    if group::goes(s, l, n, want.n) {
        return Ok(Some(give_way(s, l, w, n, want)));
    }
    if parts::has_room(s, l, n, w, c) {
        parts::change_in(s, l, n, w, c);
        return Ok(None);
    }
    let level = parts::level_of(s, l, n);
    renew::new_root(s, l, w, level, renew::alone(n, want), size)
}
