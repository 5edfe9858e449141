// Rule 1 of one page and of all pages: the bits that are not defined, the page's front, its entries.
ghost use Rattle.std.specs.Prelude.{◌≡◌, ◌+◌, ◌*◌, ◌-◌, ◌^◌, ◌≤◌, ◌<◌, ◌&&◌, length};
ghost use Rattle.model.specs.Sound.{page_fine};
ghost use Rattle.model.specs.Layout.{read_entries, decode_page};
ghost use Rattle.model.specs.Clean.{zero_from, spare_at, clean_page};
ghost use Rattle.page.specs.Head.{read_head};
ghost use Rattle.local.specs.Local.{Sized, entry_test, entries_ok, pages_fine};
ghost use Rattle.model.specs.Near.{page_right};
ghost use Rattle.local.specs.Right.{Known};

use model::Limits;

// Whether the bits from bit a up to, not including, bit b are zero.
pub(crate) fn zero_from(s: &[u8], a: usize, b: usize) -> bool
    requires { (a ≤ b) × (b ≤ 8 * length s.now) × (length s.now ≤ 2 ^ 40) }
    ensures { result ≡ zero_from s.now a b }
{
    let mut k = a;
    while k + 32 <= b {
        if bits::field(s, k, 32) != 0 {
            return false;
        }
        k += 32;
    }
    bits::field(s, k, b - k) == 0
}

// Where the zero bits of a page's front begin: at the live count of a free page, behind it in a used one.
fn spare_at(l: Limits, level: u32) -> usize
    ensures { result ≡ spare_at l.least level }
{
    if level == 0 || l.least <= 4 {
        44 + l.counter
    } else {
        50 + l.counter
    }
}

// "79 zero bits"; "unused [entries] are all zero". By itself, since in a caller its loop loads each word byte by byte.
#[inline(never)]
fn clean_page(page: &[u8], l: Limits) -> bool
    requires { length page.now ≡ 64 * l.least }
    ensures { result ≡ clean_page l.least page.now }
{
    let h = page::head_of(page, l);
    h.count <= l.room
        && zero_from(page, spare_at(l, h.level), 128)
        && zero_from(page, 128 + 96 * h.count, 8 * l.bytes)
}

// Entry i is right, and the one behind it, if there is one, stands behind it.
fn entry_stands(page: &[u8], i: usize, n: usize, level: u32, last: u32, size: usize) -> bool
    requires { (16 + 12 * n ≤ length page.now) × (i < n) × (length page.now ≤ 2 ^ 40) }
    ensures { result ≡ entry_test last size level page.now n i }
{
    let e = page::entry_at(page, i);
    crate::entry::entry_ok(last, size, level, e)
        && (n <= i + 1 || crate::entry::stands_before(e, page::entry_at(page, i + 1)))
}

fn entries_ok(page: &[u8], n: usize, level: u32, last: u32, size: usize) -> bool
    requires { (16 + 12 * n ≤ length page.now) × (length page.now ≤ 2 ^ 40) }
    ensures { result ≡ entries_ok last size level (read_entries page.now 128 n) }
{
    (0..n).all(|i| entry_stands(page, i, n, level, last, size))
}

// A free page is all zero: what stands behind its front is for `clean_page`.
fn page_fine(page: &[u8], l: Limits, last: u32, size: usize) -> bool
    requires { (length page.now ≡ 64 * l.least) × ((read_head l.least page.now).count ≤ 5 * l.least) }
    ensures { result ≡ page_fine l.least last size (decode_page l.least page.now) }
{
    let h = page::head_of(page, l);
    if h.level == 0 {
        h.start == 0 && h.end == 0 && h.count == 0
    } else {
        h.level <= 7
            && crate::entry::span_ok(last, h.start, h.end)
            && entries_ok(page, h.count, h.level, last, size)
    }
}

// All that rule 1 says of one page.
fn page_ok(page: &[u8], l: Limits, last: u32, size: usize) -> bool
    requires { length page.now ≡ 64 * l.least }
    ensures { result ≡ (clean_page l.least page.now && page_fine l.least last size (decode_page l.least page.now)) }
{
    clean_page(page, l) && page_fine(page, l, last, size)
}

// Every page from 5 on.
pub(crate) fn pages_ok(s: &[u8], l: Limits, size: usize, last: u32) -> bool
    requires { Sized l.least s.now size }
    ensures { result ≡ pages_fine l.least last size s.now 5 (size - 5) }
{
    (5..size).all(|n| page_ok(store::part(s, l, n), l, last, size))
}

// Whether page n has this level and is as rule 1 has it: "a page on their own walk breaks rules 1 or 2 of 01 locally", "a child's level
// isn't one lower". Any number may be asked for.
pub fn page_right(s: &[u8], l: Limits, last: u32, size: usize, level: u32, n: usize) -> bool
    requires { Known l.least s.now size last × (0 < level) }
    ensures { result ≡ page_right l.least s.now level n }
{
    if n < 5 || size <= n {
        return false;
    }
    let p = store::part(s, l, n);
    page::head_of(p, l).level == level && page_ok(p, l, last, size)
}
