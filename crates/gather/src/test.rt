// The two tests of a change in place, with no list gathered.
ghost use Rattle.std.specs.Prelude.{◌≡◌, ◌*◌, leb, length};
ghost use Rattle.model.specs.Page.{wanted, changed};
ghost use Rattle.model.specs.Layout.{decode_page};
ghost use Rattle.edit.specs.Change.{change_of};
ghost use Rattle.gather.specs.Kept.{Counted, Fits};

use crate::remains;
use edit::Change;
use model::Limits;

// "at least 4 live": whether a page's wanted list has so many. Counting ends once it has.
pub fn has_enough(page: &[u8], l: Limits, w: u32, c: Change) -> bool
    requires { Counted l page.now × Fits c }
    ensures { result ≡ leb l.least (length (wanted w (change_of c) (decode_page l.least page.now))) }
{
    let h = page::head_of(page, l);
    let mut n = c.takes as usize;
    for i in 0..h.count {
        if l.least <= n {
            return true;
        }
        n += usize::from(remains(page::entry_at(page, i), w, c));
    }
    l.least <= n
}

// "at most 20 entries, dead ones counted", with the change made. A change ends entries and may let some go, so one that finds room
// beside all of them has it; the others are asked for only where it does not.
pub fn has_room(page: &[u8], l: Limits, w: u32, c: Change) -> bool
    requires { Counted l page.now × Fits c }
    ensures { result ≡ leb (length (changed w (change_of c) (decode_page l.least page.now)).entries) (5 * l.least) }
{
    let h = page::head_of(page, l);
    h.count + c.takes as usize <= l.room || crate::after(page, l, w, c) <= l.room
}
