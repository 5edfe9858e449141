// Lists of pairs by value: what is gathered from pages.
#![tactic(auto)]

ghost use Rattle.std.specs.Prelude.{◌≡◌, [], ◌∷◌, ◌++◌, ◌&&◌, not, ◌+◌, ◌≤◌, ◌<◌, length, eqb};
ghost use Rattle.model.specs.Basic.{has};
ghost use Rattle.model.specs.Entry.{enter_pair, live_at};
ghost use Rattle.model.specs.Page.{wanted, changed, pairs_at};
ghost use Rattle.model.specs.Layout.{decode_page};
ghost use Rattle.edit.specs.Change.{change_of};
ghost use Rattle.edit.specs.Fill.{Fitting};
ghost use Rattle.gather.specs.Gather.{Good, Lists, pairs_in};
ghost use Rattle.gather.specs.Place.{place_in};
ghost use Rattle.gather.specs.Kept.{Counted, Fits, kept_pairs};

use edit::Change;
use model::{Entry, Limits, Pair};

mod test;

pub use test::{has_enough, has_room};

// Pairs gathered: the first n of the list. There is room for what two pages of the largest edition hold: 7 times its least, less one.
// A list and its length: there is no heap, and a gathered list is handed on by value.
#[derive(Clone, Copy)]
pub struct Gather {
    pub list: [Pair; 56],
    pub n: usize,
}

impl Gather {
    // Where a key stands: before the first greater one.
    fn place(&self, k: u32) -> usize
        requires { Good self.now }
        ensures place { result ≡ place_in k (pairs_in self.now) }
        ensures within { result ≤ self.now.n }
    {
        for i in 0..self.n {
            if k < self.list[i].key {
                return i;
            }
        }
        self.n
    }

    // A pair put into its place.
    fn entered(self, x: Pair) -> Gather
        requires { Good self × (self.n < 56) × Fitting x }
        ensures { Lists result (enter_pair x (pairs_in self)) }
    {
        let p = self.place(x.key);
        let n = self.n + 1;
        let mut list = self.list;
        list[p] = x;
        list[p + 1..n].copy_from_slice(&self.list[p..self.n]);
        Gather { list, n }
    }
}

// The pairs of b behind those of a.
pub fn joined(a: Gather, b: Gather) -> Gather
    requires { Good a × Good b × (a.n + b.n ≤ 56) }
    ensures { Lists result (pairs_in a ++ pairs_in b) }
{
    let n = a.n + b.n;
    let mut list = a.list;
    list[a.n..n].copy_from_slice(&b.list[..b.n]);
    Gather { list, n }
}

// Whether a key is among those that a change drops.
fn dropped(c: Change, k: u32) -> bool
    ensures { result ≡ has k (change_of c).drop }
{
    edit::sift::among(k, c.drops, c.drop1, c.drop2)
}

// Whether an entry of a page is still wanted at w after a change.
pub(crate) fn remains(e: Entry, w: u32, c: Change) -> bool
    ensures { result ≡ (live_at w e && not (has e.key (change_of c).drop)) }
{
    page::alive_at(e, w) && !dropped(c, e.key)
}

// Whether a change made in place lets an entry go: one that it ends and that starts at w.
fn goes(e: Entry, w: u32, c: Change) -> bool
    ensures { result ≡ ((live_at w e && has e.key (change_of c).drop) && eqb e.start w) }
{
    page::alive_at(e, w) && dropped(c, e.key) && e.start == w
}

// The pairs of a page alive at w, without those that a change drops.
fn kept_pairs(page: &[u8], l: Limits, w: u32, c: Change) -> Gather
    requires { Counted l page.now }
    ensures { Lists result (kept_pairs w (change_of c) (decode_page l.least page.now).entries) }
{
    let h = page::head_of(page, l);
    let mut list = [Pair { key: 0, value: 0 }; 56];
    let mut n = 0;
    for i in 0..h.count {
        let e = page::entry_at(page, i);
        // Each is written behind those kept so far, and counted if it is one of them: a list by value in a branch would be copied whole.
        list[n] = Pair {
            key: e.key,
            value: e.value,
        };
        n += usize::from(remains(e, w, c));
    }
    Gather { list, n }
}

// The pairs of a page alive at w.
pub fn live_pairs(page: &[u8], l: Limits, w: u32) -> Gather
    requires { Counted l page.now }
    ensures { Lists result (pairs_at w (decode_page l.least page.now)) }
{
    let no = Pair { key: 0, value: 0 };
    let c = Change {
        drops: 0,
        drop1: 0,
        drop2: 0,
        takes: 0,
        take1: no,
        take2: no,
    };
    kept_pairs(page, l, w, c)
}

// "Its wanted list is its live entries at the open version with the change made."
pub fn wanted(page: &[u8], l: Limits, w: u32, c: Change) -> Gather
    requires { Counted l page.now × Fits c }
    ensures { Lists result (wanted w (change_of c) (decode_page l.least page.now)) }
{
    let g = kept_pairs(page, l, w, c);
    if c.takes == 0 {
        g
    } else if c.takes == 1 {
        g.entered(c.take1)
    } else {
        g.entered(c.take1).entered(c.take2)
    }
}

// How many entries a page has, dead ones counted, with the change made in place: an entry that it ends goes only if it starts at w.
pub fn after(page: &[u8], l: Limits, w: u32, c: Change) -> usize
    requires { Counted l page.now × Fits c }
    ensures { result ≡ length (changed w (change_of c) (decode_page l.least page.now)).entries }
{
    let h = page::head_of(page, l);
    let mut n = 0;
    for i in 0..h.count {
        n += usize::from(!goes(page::entry_at(page, i), w, c));
    }
    n + c.takes as usize
}
