// One pass over the items that takes some out, and gives others another end: a delete's, an abandon's and a prune's.
ghost use Rattle.std.specs.Prelude.{◌≡◌, true};
ghost use Rattle.model.specs.Telling.{Space, Gathers};
ghost use Rattle.plain.specs.Items.{Lent, kept};
ghost use Rattle.plain.specs.Sweep.{ended, undone, outliving, kept_by, Sweeps};

use crate::{ALIVE, items};
use model::Entry;

// "To end an entry: if it starts at the open version it is removed, otherwise its end becomes the open version." The end that an item has
// then, or none where it goes.
pub fn ended(e: Entry, w: u32, key: u32) -> Option<u32>
    ensures { result ≡ ended w key e }
{
    if !items::says(e, key, w) {
        Some(e.end)
    } else if e.start == w {
        None
    } else {
        Some(w)
    }
}

// "entries starting there go, and ends equal to it become alive again"
pub fn undone(e: Entry, w: u32) -> Option<u32>
    ensures { result ≡ undone w e }
{
    if e.start == w {
        None
    } else if e.end == w {
        Some(ALIVE)
    } else {
        Some(e.end)
    }
}

// An item that ends behind v stays as it is.
pub fn outliving(e: Entry, v: u32) -> Option<u32>
    ensures { result ≡ outliving v e }
{
    if v < e.end { Some(e.end) } else { None }
}

// An item that stays, behind the first j; gives how many there are then.
fn keep(items: &mut [u32], j: usize, e: Entry, end: Option<u32>) -> usize
    requires { Space kept true items.old j (kept_by e end) }
    ensures { Gathers kept true items.old items.new j result (kept_by e end) }
{
    match end {
        Some(end) => {
            items::put(items, j, Entry { end, ..e });
            j + 1
        }
        None => j,
    }
}

// The first n items, each with the end that `fate` gives it; those to which it gives none go. Gives how many stay.
pub fn sweep<F: Fn(Entry) -> Option<u32>>(items: &mut [u32], n: usize, fate: F) -> usize
    requires lent { Lent n items.old }
    requires calls { F.IsAlwaysCallable fate }
    ensures { Sweeps (F.post fate) items.old n items.new result }
{
    let mut j = 0;
    for i in 0..n {
        let e = items::item(items, i);
        j = keep(items, j, e, fate(e));
    }
    j
}
