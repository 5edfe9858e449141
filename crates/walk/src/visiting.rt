// The pages that a lookup visits, by their numbers. They are the pages that `lookup` reads: it finds the root by `root_at` and its
// height by `height_of`, goes from page to page by `child`, and searches the leaf at which that ends. Here the same three
// functions go the same way, and each page's number is noted before the step that reads it; at the last page `lookup` searches
// instead of stepping on. The offered lookup (crates/near) goes by `root_among`, which is the body of `root_at`, and by `child`.
ghost use Rattle.std.specs.Prelude.{◌≡◌, ◌<◌, length};
ghost use Rattle.std.proofs.lemmas.List.Edits.{sets};
ghost use Rattle.model.specs.Walk.{key_limit, path_down, lookup_visits};
ghost use Rattle.model.specs.Layout.{decode};
ghost use Rattle.model.specs.Told.{told_by};
ghost use Rattle.model.specs.Visited.{page_number};
ghost use Rattle.model.specs.Lent.{listed};
ghost use Rattle.model.specs.Refusals.{listed_in};
ghost use Rattle.walk.specs.Covers.{Covers};
ghost use Rattle.walk.specs.Sure.{Walkable};

use model::{Limits, ListRefusal};

// The pages from page n, `up` levels above the leaves, down to the leaf for a key, into a list that holds them. Rule 1 has no level
// above 7, so they are at most seven.
fn note(s: &[u8], l: Limits, v: u32, key: u32, n: usize, up: usize, list: &mut [u32])
    requires { Walkable l s.now v × Covers l.least v (decode l.least s.now).pages up n key × (up < length list.old) }
    ensures { list.new ≡ sets list.old 0 (path_down up (decode l.least s.now).pages v key n) }
{
    let mut here = n;
    for i in 0..up {
        list[i] = here as u32;
        here = crate::child(s, l, here, v, key);
    }
    list[up] = here as u32;
}

// What a sound store tells of the pages that a lookup visits: one on each level from the root's down, so they are counted before
// any is written, and 14 leaves the list untouched.
pub fn visits(s: &[u8], l: Limits, key: u32, v: u32, list: &mut [u32]) -> Result<usize, ListRefusal>
    requires { Walkable l s.now v × (key < key_limit) }
    ensures { listed_in result list.new
        ≡ listed list.old (told_by page_number 1 0 (length list.old) (lookup_visits (decode l.least s.now) key v)) }
{
    let root = crate::root_at(s, l, v);
    let up = crate::height_of(s, l, root);
    let count = up + 1;
    if list.len() < count {
        return Err(ListRefusal::TooShort(count));
    }
    note(s, l, v, key, root, up, list);
    Ok(count)
}
