// What a reading judges before its walk: the header, and the slots of the root directory.
ghost use Rattle.std.specs.Prelude.{◌≡◌, ◌+◌, ◌*◌, ◌≤◌, leb};
ghost use Rattle.model.specs.Basic.{pick};
ghost use Rattle.model.specs.Limits.{root_bits, oldest_bits};
ghost use Rattle.model.specs.Layout.{read_header, read_slots};
ghost use Rattle.model.specs.Clean.{clean_front};
ghost use Rattle.local.specs.Local.{Sized};
ghost use Rattle.local.specs.Front.{above, fields_right, slot_fits, slots_from};
ghost use Rattle.model.specs.Near.{front_right};

use model::{Header, Limits, Slot};

// The bits of the header that are defined.
fn header_bits(l: Limits) -> usize
    ensures { result ≡ 74 + root_bits l.least + oldest_bits l.least }
{
    74 + l.rooter + l.aged
}

// The latest version that the oldest may be: "at most the current version", and 0 in edition 1.
fn oldest_most(l: Limits, h: Header) -> u32
    ensures { result ≡ pick (leb l.least 4) 0 h.current }
{
    if l.least <= 4 { 0 } else { h.current }
}

// The header's page count and undefined bits, the number of roots, and the unused slots.
fn header_right(s: &[u8], l: Limits, h: Header, size: usize) -> bool
    requires { Sized l.least s.now size × (h ≡ read_header l.least s.now) }
    ensures { result ≡ clean_front l.least s.now }
{
    let front = 8 * l.bytes;
    let roots = h.roots as usize;
    h.pages as usize == size
        && crate::pages::zero_from(s, header_bits(l), front)
        && roots <= l.slots
        && crate::pages::zero_from(s, front + 32 * roots, 5 * front)
}

// All that rule 1 says of the header and of the unused slots, in bytes that make `size` pages.
pub(crate) fn fields_right(s: &[u8], l: Limits, size: usize) -> bool
    requires { Sized l.least s.now size }
    ensures { result ≡ fields_right l.least s.now }
{
    let h = store::header(s, l);
    header_right(s, l, h, size) && h.last() <= 1048574 && h.oldest <= oldest_most(l, h)
}

// A slot with a version from low to top that leads to a page.
fn slot_fits(low: u32, top: u32, size: usize, x: Slot) -> bool
    ensures { result ≡ slot_fits low top size x }
{
    low <= x.version && x.version <= top && crate::entry::is_page(size, x.root)
}

// The version behind a slot's and behind the oldest.
fn next_low(old: u32, x: Slot) -> u32
    requires { (old ≤ 1048574) × (x.version ≤ 1048574) }
    ensures { result ≡ above old x }
{
    old.max(x.version) + 1
}

// The used slots, each read once: the first has at most the oldest version, each later one a higher one than both, at most last, and all
// lead to pages.
fn slots_right(s: &[u8], l: Limits, roots: usize, old: u32, last: u32, size: usize) -> bool
    requires { Sized l.least s.now size × (roots ≤ 64 * l.least) × (last ≤ 1048574) × (old ≤ 1048574) }
    ensures { result ≡ slots_from size old last 0 old (read_slots s.now (512 * l.least) roots) }
{
    let mut low = 0;
    let mut top = old;
    for i in 0..roots {
        let x = store::slot(s, l, i);
        if !slot_fits(low, top, size, x) {
            return false;
        }
        low = next_low(old, x);
        top = last;
    }
    true
}

// "the header, a directory slot .. breaks rules 1 or 2 of 01 locally": whether none does, in bytes that make `size` pages.
pub fn front_right(s: &[u8], l: Limits, size: usize) -> bool
    requires { Sized l.least s.now size }
    ensures { result ≡ front_right l.least s.now }
{
    if !fields_right(s, l, size) {
        return false;
    }
    let h = store::header(s, l);
    let roots = h.roots as usize;
    0 < roots && slots_right(s, l, roots, h.oldest, h.last(), size)
}
