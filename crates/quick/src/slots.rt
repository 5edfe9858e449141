// The root directory: a slot's root is right from the slot's version, or the oldest, up to the next slot's.
ghost use Rattle.std.specs.Prelude.{◌≡◌, ◌+◌, ◌*◌, ◌-◌, ◌≤◌, ◌<◌, max, length, leb, true};
ghost use Rattle.model.specs.Basic.{pick, in_order};
ghost use Rattle.model.specs.Entry.{before};
ghost use Rattle.model.specs.Store.{page};
ghost use Rattle.model.specs.Layout.{decode, decode_page, read_header, read_entries, read_slots};
ghost use Rattle.spans.specs.Quick.{upto, slot_fine, slots_fine};
ghost use Rattle.page.specs.Head.{read_head};
ghost use Rattle.local.specs.Local.{slot_at};
ghost use Rattle.quick.specs.Good.{QuickGood};
ghost use Rattle.quick.specs.Slots.{GoodSlots};

use model::Limits;

// Up to where the root stands of the slot in front of place i: the version there, or alive behind the last slot.
pub(crate) fn upto_at(s: &[u8], l: Limits, i: usize, roots: usize) -> u32
    requires { QuickGood l.least s.now × GoodSlots l.least s.now × (roots ≤ 64 * l.least) }
    ensures { result ≡ upto (read_slots s.now (512 * l.least + 32 * i) (roots - i)) }
{
    if i < roots {
        store::slot(s, l, i).version
    } else {
        page::ALIVE
    }
}

// "an index root at least 2; a leaf root any number"
fn root_least(level: u32) -> usize
    ensures { result ≡ pick (leb level 1) 0 2 }
{
    if level <= 1 { 0 } else { 2 }
}

// A page that is the root throughout the stretch.
fn root_fine(page: &[u8], l: Limits, a: u32, b: u32) -> bool
    requires { (length page.now ≡ 64 * l.least) × ((read_head l.least page.now).count ≤ 5 * l.least)
        × (in_order before (read_entries page.now 128 (read_head l.least page.now).count) ≡ true) }
    ensures { result ≡ slot_fine l.least a b (decode_page l.least page.now) }
{
    let h = page::head_of(page, l);
    h.start <= a && b <= h.end && crate::part::fine_over(page, l, root_least(h.level), 0, a, b)
}

fn slot_fine(s: &[u8], l: Limits, i: usize, roots: usize, old: u32) -> bool
    requires { QuickGood l.least s.now × GoodSlots l.least s.now × (roots ≡ (read_header l.least s.now).roots)
        × (i + 1 ≤ roots) }
    ensures { result ≡ slot_fine l.least (max old (slot_at l.least s.now i).version)
        (upto (read_slots s.now (512 * l.least + 32 * (i + 1)) (roots - (i + 1)))) (page (decode l.least s.now).pages (slot_at l.least s.now i).root) }
{
    let x = store::slot(s, l, i);
    let b = upto_at(s, l, i + 1, roots);
    root_fine(store::part(s, l, x.root as usize), l, old.max(x.version), b)
}

// Each root of the directory throughout its stretch.
pub(crate) fn slots_fine(s: &[u8], l: Limits) -> bool
    requires { QuickGood l.least s.now × GoodSlots l.least s.now }
    ensures { result ≡ slots_fine l.least (decode l.least s.now).oldest (decode l.least s.now).pages
        (decode l.least s.now).slots }
{
    let h = store::header(s, l);
    let roots = h.roots as usize;
    for i in 0..roots {
        if !slot_fine(s, l, i, roots, h.oldest) {
            return false;
        }
    }
    true
}
