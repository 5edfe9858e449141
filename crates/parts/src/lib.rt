// Page n of a store: what is read of it, and what is written in it.
#![tactic(auto)]

ghost use Rattle.std.specs.Prelude.{◌≡◌, leb, length};
ghost use Rattle.model.specs.Page.{wanted, pairs_at, active};
ghost use Rattle.model.specs.Store.{page};
ghost use Rattle.model.specs.Rules.{roomy};
ghost use Rattle.edit.specs.Change.{change_of};
ghost use Rattle.gather.specs.Gather.{Lists};
ghost use Rattle.gather.specs.Kept.{Fits};
ghost use Rattle.parts.specs.Kept.{ExactBytes, Inside, pages_of};

use edit::Change;
use gather::Gather;
use model::Limits;

mod free;
mod writers;

pub use free::{count_free, first_free, size_of};
pub use writers::{change_in, fill_in, go_in};

// Its level; 0 is a free page's.
pub fn level_of(s: &[u8], l: Limits, n: usize) -> u32
    requires { ExactBytes l s.now × Inside l s.now n }
    ensures { result ≡ (page (pages_of l s.now) n).level }
{
    page::head_of(store::part(s, l, n), l).level
}

// "A page is active if it starts at the open version."
pub fn is_active(s: &[u8], l: Limits, n: usize, w: u32) -> bool
    requires { ExactBytes l s.now × Inside l s.now n }
    ensures { result ≡ active w (page (pages_of l s.now) n) }
{
    page::head_of(store::part(s, l, n), l).start == w
}

// The pairs alive at w.
pub fn live_of(s: &[u8], l: Limits, n: usize, w: u32) -> Gather
    requires { ExactBytes l s.now × Inside l s.now n }
    ensures { Lists result (pairs_at w (page (pages_of l s.now) n)) }
{
    gather::live_pairs(store::part(s, l, n), l, w)
}

// Its wanted list.
pub fn wanted_of(s: &[u8], l: Limits, n: usize, w: u32, c: Change) -> Gather
    requires { ExactBytes l s.now × Inside l s.now n × Fits c }
    ensures { Lists result (wanted w (change_of c) (page (pages_of l s.now) n)) }
{
    gather::wanted(store::part(s, l, n), l, w, c)
}

// Whether it has "at most 20 entries, dead ones counted", with the change made in place.
pub fn has_room(s: &[u8], l: Limits, n: usize, w: u32, c: Change) -> bool
    requires { ExactBytes l s.now × Inside l s.now n × Fits c }
    ensures { result ≡ roomy l.least w (change_of c) (page (pages_of l s.now) n) }
{
    gather::has_room(store::part(s, l, n), l, w, c)
}

// Whether its wanted list has "at least 4".
pub fn has_enough(s: &[u8], l: Limits, n: usize, w: u32, c: Change) -> bool
    requires { ExactBytes l s.now × Inside l s.now n × Fits c }
    ensures { result ≡ leb l.least (length (wanted w (change_of c) (page (pages_of l s.now) n))) }
{
    gather::has_enough(store::part(s, l, n), l, w, c)
}
