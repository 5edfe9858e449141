// The walk of a lookup, and what any walk asks of one page.
ghost use Rattle.std.specs.Prelude.{◌≡◌, ◌^◌, ◌≤◌, length};
ghost use Rattle.model.specs.Page.{pairs_at};
ghost use Rattle.model.specs.Store.{page};
ghost use Rattle.model.specs.Walk.{find};
ghost use Rattle.model.specs.Layout.{decode};
ghost use Rattle.model.specs.Refusals.{found_in, looked_in};
ghost use Rattle.local.specs.Local.{Sized};
ghost use Rattle.local.specs.Right.{Known};
ghost use Rattle.walk.specs.Sure.{Fronted, PageStands};
ghost use Rattle.near.specs.Down.{walked};

use model::{Limits, Refusal};

// The level of page n; 0 also where there is no such page, as the definitions have it.
pub(crate) fn level_at(s: &[u8], l: Limits, size: usize, n: usize) -> u32
    requires { Sized l.least s.now size }
    ensures { result ≡ (page (decode l.least s.now).pages n).level }
{
    if n < 5 || size <= n {
        return 0;
    }
    page::head_of(store::part(s, l, n), l).level
}

// The value of a key at v in page n, a leaf.
fn value_in(s: &[u8], l: Limits, n: usize, v: u32, key: u32) -> Option<u32>
    requires { PageStands l.least s.now n × (length s.now ≤ 2 ^ 40) }
    ensures { found_in result ≡ find key (pairs_at v (page (decode l.least s.now).pages n)) }
{
    let p = store::part(s, l, n);
    let h = page::head_of(p, l);
    walk::find(p, h.count, v, key)
}

// The walk of a lookup: each page is judged before it is searched.
pub(crate) fn descend(
    s: &[u8],
    l: Limits,
    last: u32,
    size: usize,
    key: u32,
    v: u32,
) -> Result<Option<u32>, Refusal>
    requires { Known l.least s.now size last × Fronted l.least s.now }
    ensures { looked_in result ≡ walked l.least s.now v key }
{
    let mut n = walk::root_among(s, l, v);
    let top = level_at(s, l, size, n);
    if top == 0 {
        return Err(Refusal::NotSound);
    }
    for level in (2..=top).rev() {
        if !local::page_right(s, l, last, size, level, n) || !tabled::starts(s, l, n, v, key) {
            return Err(Refusal::NotSound);
        }
        n = walk::child(s, l, n, v, key);
    }
    if !local::page_right(s, l, last, size, 1, n) {
        return Err(Refusal::NotSound);
    }
    Ok(value_in(s, l, n, v, key))
}
