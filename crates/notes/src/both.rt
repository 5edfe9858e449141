// Whether rules 4 and 5 both hold at every version up to last. For judging, which does not name a rule: it leaves at the first version at
// which either is broken, where `pass::broken` goes on behind a broken rule 5 to name 4. It leaves too where a page comes back whose note
// ended while it was not reached: such a store breaks rule 6, and only by such pages can a pass take longer than in proportion to the
// store (docs/CHECK-COST.md, argued).
ghost use Rattle.std.specs.Prelude.{◌≡◌, ◌&&◌, ◌+◌, ◌≤◌, IfOk};
ghost use Rattle.model.specs.Layout.{read_header, decode};
ghost use Rattle.model.specs.Sound.{rule4, rule5};
ghost use Rattle.local.specs.Local.{IsPage, level_at};
ghost use Rattle.notes.specs.Linked.{Linked};
ghost use Rattle.notes.specs.Notes.{keys_by, full_by};
ghost use Rattle.notes.specs.Kept.{Kept};
ghost use Rattle.notes.specs.Ready.{Ready};
ghost use Rattle.notes.specs.Both.{both_on};

use crate::Note;
use model::{Header, Limits};

// Both rules by a root's note.
fn both_by(l: Limits, up: usize, x: Note) -> bool
    ensures { result ≡ (keys_by up x && full_by l.least up x) }
{
    crate::pass::keys_by(up, x) && crate::pass::full_by(l, up, x)
}

// The versions from a up to, not including, c, which have one root: whether both rules hold, or the version at which a page that came back
// was not reached.
fn both_on(
    notes: &mut [u32],
    s: &[u8],
    l: Limits,
    root: usize,
    up: usize,
    a: u32,
    c: u32,
) -> Result<bool, u32>
    requires { Linked l.least s.now × IsPage l.least s.now root × (level_at l.least s.now root ≡ up + 1) × (a ≤ c)
        × (c ≤ 1048575) × Kept l.least (decode l.least s.now).pages a notes.old × ((read_header l.least s.now).oldest ≤ a) }
    ensures { IfOk result (λ hold. hold ≡ both_on l.least up (decode l.least s.now).pages root a c)
        × Kept l.least (decode l.least s.now).pages c notes.new }
{
    let mut v = a;
    while v < c {
        let x = crate::visit::visit(notes, s, l, up, v, root);
        if !both_by(l, up, x) {
            return Ok(false);
        }
        let away = crate::keep::away_in(notes);
        if away != 0 {
            return Err(away);
        }
        v = x.until.min(c);
    }
    Ok(true)
}

fn both_over(notes: &mut [u32], s: &[u8], l: Limits, h: Header) -> Result<bool, u32>
    requires { Ready l.least s.now h × Kept l.least (decode l.least s.now).pages h.oldest notes.old }
    ensures { IfOk result (λ hold. hold ≡ (rule4 (decode l.least s.now) && rule5 l.least (decode l.least s.now))) }
{
    let end = h.last() + 1;
    let mut v = h.oldest;
    while v < end {
        let c = crate::slots::slot_change(s, l, h, v, end);
        let root = crate::slots::root_at(s, l, h, v);
        let up = crate::pass::height(s, l, root);
        let hold = both_on(notes, s, l, root, up, v, c)?;
        if !hold {
            return Ok(false);
        }
        v = c;
    }
    Ok(true)
}

// Whether rules 4 and 5 hold, where rules 1 to 3 do; or the version at which a page that came back was not reached, and then no more.
pub fn both_hold(s: &[u8], l: Limits, h: Header) -> Result<bool, u32>
    requires { Ready l.least s.now h }
    ensures { IfOk result (λ hold. hold ≡ (rule4 (decode l.least s.now) && rule5 l.least (decode l.least s.now))) }
{
    let mut notes = [0; 20481];
    both_over(&mut notes, s, l, h)
}
