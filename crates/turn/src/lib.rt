// Open, commit and abandon on a sound store: the header is changed as one value and written back. Open is called begin here, as in
// the definitions, where its own name is a reserved word.
#![tactic(auto)]

ghost use Rattle.std.specs.Prelude.{◌≡◌, true, false, map, ◌+◌, ◌*◌, ◌-◌, ◌^◌, ◌≤◌, ◌<◌, length};
ghost use Rattle.model.specs.Layout.{page_of, with_page, decode_page, encode_page, decode, encode};
ghost use Rattle.model.specs.Judged.{is_sound};
ghost use Rattle.model.specs.Calls.{back, committed, abandoned};
ghost use Rattle.page.specs.Exact.{Exact};
ghost use Rattle.page.specs.Head.{read_head};
ghost use Rattle.store.specs.Set.{with_pages};
ghost use Rattle.turn.specs.Turned.{HeadedBytes, begun};
ghost use Rattle.turn.specs.Slotted.{Cleared};
ghost use Rattle.turn.specs.Past.{Past, AllPast, low_end};

use model::{Limits, Slot};

// "The open version is current plus 1."
pub fn begin(s: &mut [u8], l: Limits)
    requires { is_sound l.least s.old ≡ true }
    ensures { s.new ≡ encode l.least (begun (decode l.least s.old)) }
{
    let h = store::header(s, l);
    store::put_header(s, l, h.with_flag(true));
}

// "Commit raises the current version and clears the flag", whether anything changed or not: 15 is the guard's to give, and an empty
// release from before 2026-05 is replayed by this.
pub fn commit(s: &mut [u8], l: Limits)
    requires { is_sound l.least s.old ≡ true }
    ensures { s.new ≡ encode l.least (committed (decode l.least s.old)) }
{
    let h = store::header(s, l);
    store::put_header(s, l, h.with_version(h.current + 1).with_flag(false));
}

// Whether anything of a page starts or ends at w. Where nothing does, an abandon of version w leaves the page as it is.
fn touched(page: &[u8], l: Limits, w: u32) -> bool
    requires { Exact l.least page.now × (w < 2 ^ 20) × ((read_head l.least page.now).end ≡ w → ⊥) }
    ensures { result ≡ false → back w (decode_page l.least page.now) ≡ decode_page l.least page.now }
{
    let h = page::head_of(page, l);
    if h.start == w {
        return true;
    }
    let count = h.count;
    for i in 0..count {
        if page::words::may_turn(page, i, w) {
            return true;
        }
    }
    false
}

// The least that the second word of a page which ended at w can be: the last 17 bits of its end begin it, 18 in edition 2.
fn low_end(l: Limits, w: u32) -> usize
    ensures { result ≡ low_end l.least w }
{
    let v = w as usize;
    if l.least <= 4 {
        v % 131072 * 32768
    } else {
        v % 262144 * 16384
    }
}

// Whether an abandon of version w may change a page. One that ended before w has nothing of it, nor has a free one, whose end is 0; the
// second word of either is below that of a page which ended at w. The word is compared whole: of one that is taken apart, the compiler
// loads each byte by itself.
fn may_move(page: &[u8], l: Limits, w: u32) -> bool
    requires { Exact l.least page.now × (w < 2 ^ 20) × Past w (decode_page l.least page.now) }
    ensures { result ≡ false → back w (decode_page l.least page.now) ≡ decode_page l.least page.now }
{
    let x = bits::field(page, 32, 32) as usize;
    let low = low_end(l, w);
    low <= x && (x < low + 32768 || touched(page, l, w))
}

// What an abandon of version w makes of page n.
fn undo_page(s: &mut [u8], l: Limits, n: usize, w: u32)
    requires { (w < 2 ^ 20) × (n * (64 * l.least) + 64 * l.least ≤ length s.old) × (length s.old ≤ 2 ^ 40)
        × Exact l.least (page_of l.least s.old n) × Past w (decode_page l.least (page_of l.least s.old n)) }
    ensures { s.new ≡ with_page l.least s.old n
        (encode_page l.least (back w (decode_page l.least (page_of l.least s.old n)))) }
{
    if may_move(store::part(s, l, n), l, w) {
        let a = store::offset(l, n);
        edit::undo(&mut s[a..a + l.bytes], l, w);
    }
}

// What it makes of every page.
fn undo_pages(s: &mut [u8], l: Limits, size: usize, w: u32)
    requires { (0 < w) × (w < 2 ^ 20) × HeadedBytes l.least s.old × (size ≡ length (decode l.least s.old).pages)
        × AllPast w (decode l.least s.old).pages }
    ensures { s.new ≡ encode l.least
        (with_pages (decode l.least s.old) (map (back w) (decode l.least s.old).pages)) }
{
    for n in 5..size {
        undo_page(s, l, n, w);
    }
}

// The last slot goes if it is that of version w; gives the number of roots that are left. No other slot can be: versions rise.
fn drop_slot(s: &mut [u8], l: Limits, roots: u32, w: u32) -> u32
    requires { (0 < roots) × (roots ≤ 64 * l.least) × (5 * (64 * l.least) ≤ length s.old) × (length s.old ≤ 2 ^ 40) }
    ensures { Cleared l.least s.old s.new roots w result }
{
    let i = roots as usize - 1;
    let x = store::slot(s, l, i);
    if x.version != w {
        return roots;
    }
    store::put_slot(
        s,
        l,
        i,
        Slot {
            version: 0,
            root: 0,
        },
    );
    roots - 1
}

// "pages that start at the open version are freed; elsewhere entries starting there go, and ends equal to it become alive again,
// pages' ends too; its slot and the flag are cleared."
pub fn abandon(s: &mut [u8], l: Limits)
    requires { (is_sound l.least s.old ≡ true) × ((decode l.least s.old).opened ≡ true) }
    ensures { s.new ≡ encode l.least (abandoned (decode l.least s.old)) }
{
    let h = store::header(s, l);
    let w = h.current + 1;
    undo_pages(s, l, h.pages as usize, w);
    let roots = drop_slot(s, l, h.roots, w);
    store::put_header(s, l, h.with_roots(roots).with_flag(false));
}
