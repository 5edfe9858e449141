// Prune on a sound store of edition 2 (request 2026-12): pages that ended at or before a version are freed, slots that are not needed from
// it on are dropped, and the header has it as the oldest.
#![tactic(auto)]

ghost use Rattle.std.specs.Prelude.{◌≡◌, true, map, ◌+◌, ◌*◌, ◌-◌, ◌^◌, ◌≤◌, ◌<◌, length, get_or, set};
ghost use Rattle.model.specs.Layout.{no_slot, page_of, with_page, decode_page, encode_page, decode, encode};
ghost use Rattle.model.specs.Judged.{is_sound};
ghost use Rattle.model.specs.Calls.{pruned_page, pruned};
ghost use Rattle.page.specs.Exact.{Exact};
ghost use Rattle.store.specs.Set.{with_pages, with_slots};
ghost use Rattle.turn.specs.Turned.{HeadedBytes};
ghost use Rattle.prune.specs.Shift.{shifted};
ghost use Rattle.prune.specs.Needed.{Needed};

use model::{Limits, Slot};

// "frees every page that ended at or before it"
fn drop_ended(page: &mut [u8], l: Limits, v: u32)
    requires { Exact l.least page.old }
    ensures { page.new ≡ encode_page l.least (pruned_page v (decode_page l.least page.old)) }
{
    let front = page::head_of(page, l);
    if front.end <= v {
        page::clear(page);
    }
}

// Page n.
fn prune_page(s: &mut [u8], l: Limits, n: usize, v: u32)
    requires { (n * (64 * l.least) + 64 * l.least ≤ length s.old) × (length s.old ≤ 2 ^ 40)
        × Exact l.least (page_of l.least s.old n) }
    ensures { s.new ≡ with_page l.least s.old n
        (encode_page l.least (pruned_page v (decode_page l.least (page_of l.least s.old n)))) }
{
    let a = store::offset(l, n);
    drop_ended(&mut s[a..a + l.bytes], l, v);
}

// Every page.
fn prune_pages(s: &mut [u8], l: Limits, size: usize, v: u32)
    requires { HeadedBytes l.least s.old × (size ≡ length (decode l.least s.old).pages) }
    ensures { s.new ≡ encode l.least
        (with_pages (decode l.least s.old) (map (pruned_page v) (decode l.least s.old).pages)) }
{
    for n in 5..size {
        prune_page(s, l, n, v);
    }
}

// Which slot is the first that is needed from version v on: the last that is not above it.
fn first_needed(s: &[u8], l: Limits, roots: u32, v: u32) -> u32
    requires { HeadedBytes l.least s.now × (roots ≡ length (decode l.least s.now).slots) × (0 < roots) }
    ensures { Needed v (decode l.least s.now).slots result }
{
    for k in 1..roots {
        let x = store::slot(s, l, k as usize);
        if v < x.version {
            return k - 1;
        }
    }
    roots - 1
}

// Slot j, or an unused one behind the last.
fn slot_at(s: &[u8], l: Limits, roots: u32, j: u32) -> Slot
    requires { HeadedBytes l.least s.now × (roots ≡ length (decode l.least s.now).slots) }
    ensures { result ≡ get_or (decode l.least s.now).slots j no_slot }
{
    if j < roots {
        store::slot(s, l, j as usize)
    } else {
        Slot {
            version: 0,
            root: 0,
        }
    }
}

// Slot i becomes slot i + k.
fn shift_slot(s: &mut [u8], l: Limits, roots: u32, k: u32, i: u32)
    requires { HeadedBytes l.least s.old × (roots ≡ length (decode l.least s.old).slots) × (k ≤ roots) × (i < roots) }
    ensures { s.new ≡ encode l.least
        (with_slots (decode l.least s.old) (set (decode l.least s.old).slots i (get_or (decode l.least s.old).slots (i + k) no_slot))) }
{
    let x = slot_at(s, l, roots, i + k);
    store::put_slot(s, l, i as usize, x);
}

// The slots from place k on move to the front, and unused ones follow them.
fn shift_slots(s: &mut [u8], l: Limits, roots: u32, k: u32)
    requires { HeadedBytes l.least s.old × (roots ≡ length (decode l.least s.old).slots) × (k ≤ roots) }
    ensures { s.new ≡ encode l.least
        (with_slots (decode l.least s.old) (shifted k (decode l.least s.old).slots)) }
{
    for i in 0..roots {
        shift_slot(s, l, roots, k, i);
    }
}

// "A call with one version, at most the current one, frees every page that ended at or before it, drops directory slots not needed from
// it on, and writes it into the header as the oldest version."
pub fn prune(s: &mut [u8], l: Limits, v: u32)
    requires { (4 < l.least) × (is_sound l.least s.old ≡ true) × (v ≤ (decode l.least s.old).current) }
    ensures { s.new ≡ encode l.least (pruned (decode l.least s.old) v) }
{
    let h = store::header(s, l);
    let k = first_needed(s, l, h.roots, v);
    prune_pages(s, l, h.pages as usize, v);
    shift_slots(s, l, h.roots, k);
    store::put_header(s, l, h.with_roots(h.roots - k).with_oldest(v));
}
