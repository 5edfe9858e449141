// Rule 3: "An entry's span lies in its page's span; a router's span lies in its child's; the child is one level lower. A directory
// slot's page isn't free."
ghost use Rattle.std.specs.Prelude.{◌≡◌, ◌*◌, ◌-◌, ◌^◌, ◌≤◌, ◌&&◌, not, leb, eqb, length};
ghost use Rattle.model.specs.Basic.{all};
ghost use Rattle.model.specs.Sound.{rule3};
ghost use Rattle.model.specs.Layout.{page_of, decode_page, read_pages, read_slots, read_header, decode, size_of};
ghost use Rattle.local.specs.Local.{Held, Ruled, IsPage, head_at, lies, link_full, link_ok, links_ok, root_used};

use model::{Entry, Header, Limits};
use page::Head;

// The entry's span lies in that of the page with the front h.
fn lies_in(h: Head, e: Entry) -> bool
    ensures { result ≡ lies h e }
{
    h.start <= e.start && e.end <= h.end
}

// An entry of page n, whose front is h. An index page's leads to a page.
fn link_ok(s: &[u8], l: Limits, n: usize, h: Head, e: Entry) -> bool
    requires { (length s.now ≤ 2 ^ 21) × (h ≡ head_at l.least s.now n) × ((h.level ≡ 1 → ⊥) → IsPage l.least s.now e.value) }
    ensures { result ≡ link_full (decode l.least s.now) (decode_page l.least (page_of l.least s.now n)) e }
{
    if h.level == 1 {
        return lies_in(h, e);
    }
    let c = page::head_of(store::part(s, l, e.value as usize), l);
    lies_in(h, e) && lies_in(c, e) && c.level + 1 == h.level
}

// A router that ended at or before the oldest version.
fn skips(level: u32, e: Entry, old: u32) -> bool
    ensures { result ≡ (not (eqb level 1) && leb e.end old) }
{
    level != 1 && e.end <= old
}

// The same; "rule 3 skips routers whose span ended at or before the oldest".
fn link_fine(s: &[u8], l: Limits, n: usize, h: Head, e: Entry, old: u32) -> bool
    requires { (length s.now ≤ 2 ^ 21) × (h ≡ head_at l.least s.now n) × ((h.level ≡ 1 → ⊥) → IsPage l.least s.now e.value)
        × (old ≡ (read_header l.least s.now).oldest) }
    ensures { result ≡ link_ok (decode l.least s.now) (decode_page l.least (page_of l.least s.now n)) e }
{
    skips(h.level, e, old) || link_ok(s, l, n, h, e)
}

// The entries of page n, unless it is free.
fn links_ok(s: &[u8], l: Limits, n: usize, old: u32) -> bool
    requires { (length s.now ≤ 2 ^ 21) × Ruled l.least s.now × IsPage l.least s.now n
        × (old ≡ (read_header l.least s.now).oldest) }
    ensures { result ≡ links_ok (decode l.least s.now) (decode_page l.least (page_of l.least s.now n)) }
{
    let p = store::part(s, l, n);
    let h = page::head_of(p, l);
    h.level == 0 || (0..h.count).all(|i| link_fine(s, l, n, h, page::entry_at(p, i), old))
}

fn pages_linked(s: &[u8], l: Limits, h: Header) -> bool
    requires { Held l.least s.now h }
    ensures { result ≡ all (links_ok (decode l.least s.now))
        (read_pages l.least s.now 5 (size_of l.least s.now - 5)) }
{
    (5..h.pages as usize).all(|n| links_ok(s, l, n, h.oldest))
}

fn roots_used(s: &[u8], l: Limits, h: Header) -> bool
    requires { Held l.least s.now h }
    ensures { result ≡ all (root_used (decode l.least s.now))
        (read_slots s.now (512 * l.least) (read_header l.least s.now).roots) }
{
    (0..h.roots as usize).all(|i| {
        let n = store::slot(s, l, i).root as usize;
        page::head_of(store::part(s, l, n), l).level != 0
    })
}

pub fn third_rule(s: &[u8], l: Limits, h: Header) -> bool
    requires { Held l.least s.now h }
    ensures { result ≡ rule3 (decode l.least s.now) }
{
    pages_linked(s, l, h) && roots_used(s, l, h)
}
