// Whether the open update has changed anything: 2026-05's "the open version's settings equal the current version's, key for key".
// Neither version's settings are walked. Only what starts or ends at the open version in a leaf can tell the two apart, and where
// nothing does, nothing was changed. One pass over the leaves, and a lookup for each entry that the update touched, to the first
// that differs.
#![tactic(auto)]

ghost use Rattle.std.specs.Prelude.{◌≡◌, ◌+◌, ◌*◌, ◌^◌, ◌≤◌, ◌<◌, length};
ghost use Rattle.model.specs.Basic.{all};
ghost use Rattle.model.specs.Store.{page};
ghost use Rattle.model.specs.Walk.{key_limit};
ghost use Rattle.model.specs.Layout.{size_of, read_entry, decode};
ghost use Rattle.model.specs.Calls.{unchanged};
ghost use Rattle.walk.specs.Sure.{Walkable};
ghost use Rattle.release.specs.Settled.{has, settled, leaf_settled};
ghost use Rattle.release.specs.Opened.{Opened};

use model::{Entry, Limits};

// Whether version v has an entry's key with its value.
fn has(s: &[u8], l: Limits, e: Entry, v: u32) -> bool
    requires { Walkable l s.now v × (e.key < key_limit) }
    ensures { result ≡ has (decode l.least s.now) v e }
{
    match walk::lookup(s, l, e.key, v) {
        Some(x) => x == e.value,
        None => false,
    }
}

// Whether an entry of a leaf leaves the settings of the current version c as they were.
fn settled(s: &[u8], l: Limits, c: u32, e: Entry) -> bool
    requires { Opened l s.now c × (e.key < key_limit) }
    ensures { result ≡ settled (decode l.least s.now) e }
{
    if e.start == c + 1 {
        has(s, l, e, c)
    } else {
        e.end != c + 1 || has(s, l, e, c + 1)
    }
}

// Whether entry i of a leaf's part p does. One that does not start or end at the open version is not read further.
fn entry_settled(s: &[u8], l: Limits, c: u32, p: &[u8], i: usize) -> bool
    requires { Opened l s.now c × (16 + 12 * i + 12 ≤ length p.now) × (length p.now ≤ 2 ^ 40) }
    ensures { result ≡ settled (decode l.least s.now) (read_entry p.now (128 + 96 * i)) }
{
    !page::words::may_turn(p, i, c + 1) || settled(s, l, c, page::entry_at(p, i))
}

// Whether each entry of the leaf n does: at most as many steps as a page has entries.
fn entries_settled(s: &[u8], l: Limits, c: u32, n: usize) -> bool
    requires { Opened l s.now c × ((page (decode l.least s.now).pages n).level ≡ 1) }
    ensures { result ≡ all (settled (decode l.least s.now))
        (page (decode l.least s.now).pages n).entries }
{
    let p = store::part(s, l, n);
    let count = page::head_of(p, l).count;
    for i in 0..count {
        if !entry_settled(s, l, c, p, i) {
            return false;
        }
    }
    true
}

// The same by the leaf's front where that tells it: one that ended by version c has nothing of the open version.
fn leaf_settled(s: &[u8], l: Limits, c: u32, n: usize) -> bool
    requires { Opened l s.now c × ((page (decode l.least s.now).pages n).level ≡ 1) }
    ensures { result ≡ all (settled (decode l.least s.now))
        (page (decode l.least s.now).pages n).entries }
{
    let h = page::head_of(store::part(s, l, n), l);
    h.end <= c || entries_settled(s, l, c, n)
}

// Whether each entry of page n does, if it is a leaf.
fn page_settled(s: &[u8], l: Limits, c: u32, n: usize) -> bool
    requires { Opened l s.now c × (5 ≤ n) × (n < size_of l.least s.now) }
    ensures { result ≡ leaf_settled (decode l.least s.now) (page (decode l.least s.now).pages n) }
{
    let h = page::head_of(store::part(s, l, n), l);
    h.level != 1 || leaf_settled(s, l, c, n)
}

// Whether the open version's settings equal those of the current version c.
pub fn unchanged(s: &[u8], l: Limits, c: u32) -> bool
    requires { Opened l s.now c }
    ensures { result ≡ unchanged (decode l.least s.now) }
{
    let size = store::header(s, l).pages as usize;
    for n in 5..size {
        if !page_settled(s, l, c, n) {
            return false;
        }
    }
    true
}
