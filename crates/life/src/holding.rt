// How long an answer holds: up to the first version behind it at which anything starts or ends in a page on the key's way down, or the
// root directory has a slot. So the number of steps through a key's life is bounded by the slots and by the starts and ends that stand
// in the pages on its ways, twenty entries a page, and not by the number of versions.
ghost use Rattle.std.specs.Prelude.{◌≡◌, true, ◌^◌, ◌≤◌, ◌<◌, length};
ghost use Rattle.model.specs.Page.{pairs_at};
ghost use Rattle.model.specs.Store.{page};
ghost use Rattle.model.specs.Walk.{root_at, lookup, key_limit};
ghost use Rattle.model.specs.Layout.{decode};
ghost use Rattle.model.specs.Judged.{is_sound};
ghost use Rattle.walk.specs.Live.{live};
ghost use Rattle.walk.specs.Scan.{Stands, from};
ghost use Rattle.walk.specs.Sure.{PageStands, Walkable};
ghost use Rattle.model.specs.Still.{Until, Sooner};

use model::Limits;

// r, or x if it stands between v and r. The machine of `plain` has the same step, and shares no crate with the engine but `model`.
fn sooner(v: u32, r: u32, x: u32) -> u32
    requires { v < r }
    ensures { Sooner v r x result }
{
    if v < x { r.min(x) } else { r }
}

// The same entries of a page are alive from v up to here, r at most.
fn page_until(page: &[u8], n: usize, v: u32, r: u32) -> u32
    requires { Stands page.now n × (v < r) }
    ensures { Until v r (λ w. live w (from page.now 0 n)) result }
{
    let mut q = r;
    for i in (0..n).rev() {
        let e = page::entry_at(page, i);
        q = sooner(v, sooner(v, q, e.start), e.end);
    }
    q
}

// Page n of a store shows the same from v up to here.
fn shown_until(s: &[u8], l: Limits, n: usize, v: u32, r: u32) -> u32
    requires { PageStands l.least s.now n × (length s.now ≤ 2 ^ 40) × (v < r) }
    ensures { Until v r (λ w. pairs_at w (page (decode l.least s.now).pages n)) result }
{
    let p = store::part(s, l, n);
    let h = page::head_of(p, l);
    page_until(p, h.count, v, r)
}

// One root serves from v up to here.
fn root_until(s: &[u8], l: Limits, v: u32, r: u32) -> u32
    requires { (is_sound l.least s.now ≡ true) × (v < r) }
    ensures { Until v r (root_at (decode l.least s.now).slots) result }
{
    let h = store::header(s, l);
    let mut q = r;
    for i in 0..h.roots as usize {
        q = sooner(v, q, store::slot(s, l, i).version);
    }
    q
}

// Lookups of a key answer the same from v up to here: on the way down each page shows the same.
pub fn answer_until(s: &[u8], l: Limits, key: u32, v: u32, r: u32) -> u32
    requires { Walkable l s.now v × (key < key_limit) × (v < r) }
    ensures { Until v r (lookup (decode l.least s.now) key) result }
{
    let mut q = root_until(s, l, v, r);
    let mut n = walk::root_at(s, l, v);
    let up = walk::height_of(s, l, n);
    for _ in 0..up {
        q = shown_until(s, l, n, v, q);
        n = walk::child(s, l, n, v, key);
    }
    shown_until(s, l, n, v, q)
}
