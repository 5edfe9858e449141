// Rule 7: "A page that starts at the open version holds only alive entries that start there." Where rule 3 skips no router it follows from
// rules 1 and 3.
ghost use Rattle.std.specs.Prelude.{◌≡◌, ◌+◌, ◌*◌, ◌-◌, ◌^◌, ◌≤◌, length};
ghost use Rattle.model.specs.Basic.{all};
ghost use Rattle.model.specs.Sound.{rule7};
ghost use Rattle.model.specs.Layout.{page_of, decode_page, read_entries, read_pages, decode, size_of};
ghost use Rattle.local.specs.Local.{Held, Ruled, IsPage};
ghost use Rattle.local.specs.Seventh.{is_young, young_ok};

use model::{Entry, Header, Limits};

// An entry that starts at w and is alive.
fn is_young(w: u32, e: Entry) -> bool
    ensures { result ≡ is_young w e }
{
    e.start == w && e.end == page::ALIVE
}

fn all_young(page: &[u8], n: usize, w: u32) -> bool
    requires { (16 + 12 * n ≤ length page.now) × (length page.now ≤ 2 ^ 40) }
    ensures { result ≡ all (is_young w) (read_entries page.now 128 n) }
{
    (0..n).all(|i| is_young(w, page::entry_at(page, i)))
}

// Page n, unless it is free or starts at another version.
fn page_young(s: &[u8], l: Limits, n: usize, w: u32) -> bool
    requires { (length s.now ≤ 2 ^ 21) × Ruled l.least s.now × IsPage l.least s.now n }
    ensures { result ≡ young_ok w (decode_page l.least (page_of l.least s.now n)) }
{
    let p = store::part(s, l, n);
    let h = page::head_of(p, l);
    h.level == 0 || h.start != w || all_young(p, h.count, w)
}

fn pages_young(s: &[u8], l: Limits, h: Header, w: u32) -> bool
    requires { Held l.least s.now h }
    ensures { result ≡ all (young_ok w) (read_pages l.least s.now 5 (size_of l.least s.now - 5)) }
{
    (5..h.pages as usize).all(|n| page_young(s, l, n, w))
}

pub fn seventh_rule(s: &[u8], l: Limits, h: Header) -> bool
    requires { Held l.least s.now h }
    ensures { result ≡ rule7 (decode l.least s.now) }
{
    !h.opened || pages_young(s, l, h, h.last())
}
