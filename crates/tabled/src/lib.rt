// What a range asks of bytes made to keep it busy, where its own walk's budget is used up: a table with a number for each router of each
// page, and the settings told and written by it. And what any judging walk of a range asks of one page.
#![tactic(auto)]

mod table;
mod write;

ghost use Rattle.std.specs.Prelude.{◌≡◌, ◌^◌, ◌≤◌, length};
ghost use Rattle.model.specs.Page.{pairs_at};
ghost use Rattle.model.specs.Store.{page};
ghost use Rattle.model.specs.Layout.{decode};
ghost use Rattle.model.specs.Near.{starts_by};
ghost use Rattle.walk.specs.Sure.{PageStands};

use model::Limits;
pub use table::{down, fill_levels};
pub use write::gather_by;

// What a range asks of the pages of its walk: its low and high keys and its version; and what they are judged by.
#[derive(Clone, Copy)]
pub struct Asked {
    pub low: u32,
    pub high: u32,
    pub version: u32,
    pub last: u32,
    pub size: usize,
}

// Whether page n has a router alive at v at or below a key.
pub fn starts(s: &[u8], l: Limits, n: usize, v: u32, key: u32) -> bool
    requires { PageStands l.least s.now n × (length s.now ≤ 2 ^ 40) }
    ensures { result ≡ starts_by key (pairs_at v (page (decode l.least s.now).pages n)) }
{
    let p = store::part(s, l, n);
    let h = page::head_of(p, l);
    let count = h.count;
    walk::next_place(p, count, v, 0, key, 0) < count
}
