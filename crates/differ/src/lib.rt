// What differs between two versions of a sound store, in key order. Both are gone through a stretch of keys at a time that lies in one leaf
// of each: the two leaves are merged, unless they are one page in which nothing starts or ends between the versions.
#![tactic(auto)]

mod leaves;
mod telling;

ghost use Rattle.std.specs.Prelude.{◌≡◌, ◌≤◌, length};
ghost use Rattle.model.specs.Walk.{key_limit};
ghost use Rattle.model.specs.Told.{told_by};
ghost use Rattle.model.specs.Differ.{delta_numbers};
ghost use Rattle.model.specs.Lent.{listed};
ghost use Rattle.model.specs.Telling.{Space, Gathers, deltas};
ghost use Rattle.model.specs.Refusals.{listed_in};
ghost use Rattle.walk.specs.Sure.{Walkable};
ghost use Rattle.differ.specs.Merge.{Onward};
ghost use Rattle.differ.specs.Listing.{between, left_of, next_of};

use leaves::Ask;
use model::{Delta, Limits, ListRefusal};
use walk::KEYS;

// What the cursors of versions u and v say of the first key at or above a key that either has.
pub fn next(s: &[u8], l: Limits, u: u32, v: u32, key: u32) -> Delta
    requires { Walkable l s.now u × Walkable l s.now v }
    ensures { result ≡ next_of l s.now u v key }
{
    let x = cursor::first_from(s, l, u, key);
    let y = cursor::first_from(s, l, v, key);
    telling::compared(x, y)
}

// A key, and where the first of the leaves for it at two versions ends.
#[derive(Clone, Copy)]
pub struct Gap {
    pub key: u32,
    pub high: u32,
}

// The first key at or above a key at which the leaves for it are not one page that shows the same at both versions: nothing differs before
// it. Each step ends where the first of two leaves does.
pub fn past(s: &[u8], l: Limits, u: u32, v: u32, from: u32) -> Gap
    requires { Walkable l s.now u × Walkable l s.now v × (from ≤ key_limit) }
    ensures { Onward from result.key × (left_of l s.now u v from ≡ left_of l s.now u v result.key) }
{
    let mut key = from;
    while key < KEYS {
        let x = cursor::leaf_for(s, l, u, key);
        let y = cursor::leaf_for(s, l, v, key);
        let high = x.high.min(y.high);
        let a = Ask {
            old: u,
            new: v,
            low: key,
            high: high - 1,
            write: false,
        };
        if !leaves::alike(s, l, a, x, y) {
            return Gap { key, high };
        }
        key = high;
    }
    Gap { key, high: key }
}

// What differs from version u to version v, into a list or only counted; gives how many differences there are. Each step ends where the
// first of two leaves does, so there are at most as many as the two versions have leaves.
fn tell(s: &[u8], l: Limits, u: u32, v: u32, list: &mut [u32], write: bool) -> usize
    requires { Walkable l s.now u × Walkable l s.now v × Space deltas write list.old 0 (between l s.now u v) }
    ensures { Gathers deltas write list.old list.new 0 result (between l s.now u v) }
{
    let mut found = 0;
    let mut key = 0;
    while key < KEYS {
        let x = cursor::leaf_for(s, l, u, key);
        let y = cursor::leaf_for(s, l, v, key);
        let high = x.high.min(y.high);
        let a = Ask {
            old: u,
            new: v,
            low: key,
            high: high - 1,
            write,
        };
        found = leaves::tell(s, l, a, x, y, list, found);
        key = high;
    }
    found
}

// What differs from version u to version v of a sound store: the count, and key, kind, old value and new value of each in the
// caller's list. They are counted before any is written, so that 14 leaves the list untouched.
pub fn difference(
    s: &[u8],
    l: Limits,
    u: u32,
    v: u32,
    list: &mut [u32],
) -> Result<usize, ListRefusal>
    requires { Walkable l s.now u × Walkable l s.now v }
    ensures { listed_in result list.new
        ≡ listed list.old (told_by delta_numbers 4 0 (length list.old) (between l s.now u v)) }
{
    let found = tell(s, l, u, v, list, false);
    if list.len() < 4 * found {
        return Err(ListRefusal::TooShort(found));
    }
    tell(s, l, u, v, list, true);
    Ok(found)
}
