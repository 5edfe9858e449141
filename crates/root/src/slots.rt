// The directory slot of the open version. Versions rise and none is above it, so its slot is the last one if there is one.
ghost use Rattle.std.specs.Prelude.{◌≡◌, true, false, ◌*◌, ◌<◌, length};
ghost use Rattle.model.specs.Layout.{decode};
ghost use Rattle.model.specs.Needs.{has_slot, slot_left};
ghost use Rattle.parts.specs.Kept.{ExactBytes, Inside};
ghost use Rattle.root.specs.Slotted.{Slotted, slots_of, with_open_slot};

use model::{Limits, Slot};

// Whether the open version has its slot.
fn has_slot(s: &[u8], l: Limits) -> bool
    requires { ExactBytes l s.now × Slotted l s.now }
    ensures { result ≡ has_slot (decode l.least s.now) }
{
    let h = store::header(s, l);
    store::slot(s, l, h.roots as usize - 1).version == h.current + 1
}

// Whether a new root finds a slot: else "the rules need a 257th".
pub fn slot_left(s: &[u8], l: Limits) -> bool
    requires { ExactBytes l s.now × Slotted l s.now }
    ensures { result ≡ slot_left l.least (decode l.least s.now) }
{
    let h = store::header(s, l);
    has_slot(s, l) || (h.roots as usize) < l.slots
}

// The open version's slot leads to page n from now on.
fn replace_slot(s: &mut [u8], l: Limits, n: usize)
    requires { ExactBytes l s.old × Inside l s.old n × Slotted l s.old × (has_slot (decode l.least s.old) ≡ true) }
    ensures { s.new ≡ with_open_slot l s.old n }
{
    let h = store::header(s, l);
    let x = Slot {
        version: h.current + 1,
        root: n as u32,
    };
    store::put_slot(s, l, h.roots as usize - 1, x);
}

// The open version takes a slot, which leads to page n.
fn add_slot(s: &mut [u8], l: Limits, n: usize)
    requires { ExactBytes l s.old × Inside l s.old n × Slotted l s.old × (has_slot (decode l.least s.old) ≡ false)
        × (length (slots_of l s.old) < 64 * l.least) }
    ensures { s.new ≡ with_open_slot l s.old n }
{
    let h = store::header(s, l);
    let x = Slot {
        version: h.current + 1,
        root: n as u32,
    };
    store::put_slot(s, l, h.roots as usize, x);
    store::put_header(s, l, h.with_roots(h.roots + 1));
}

// "A new root takes the directory slot of the open version, or replaces it there."
pub fn take_slot(s: &mut [u8], l: Limits, n: usize)
    requires { ExactBytes l s.old × Inside l s.old n × Slotted l s.old
        × (slot_left l.least (decode l.least s.old) ≡ true) }
    ensures { s.new ≡ with_open_slot l s.old n }
{
    if has_slot(s, l) {
        replace_slot(s, l, n);
    } else {
        add_slot(s, l, n);
    }
}
