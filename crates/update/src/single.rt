// A single insert or delete behind the tests of the call of that name: the one change that it makes. The calls rest on these, and so
// does what makes many of them with nothing judged in between (2026-07's return, 2026-08's converter).
ghost use Rattle.std.specs.Prelude.{◌≡◌, ◌<◌};
ghost use Rattle.model.specs.Walk.{key_limit};
ghost use Rattle.model.specs.Store.{next};
ghost use Rattle.model.specs.Layout.{decode};
ghost use Rattle.model.specs.Climb.{update};
ghost use Rattle.model.specs.Calls.{raw_insert};
ghost use Rattle.model.specs.Refusals.{number_in};
ghost use Rattle.model.specs.Needs.{inserting, deleting};
ghost use Rattle.model.specs.Lent.{left};
ghost use Rattle.walk.specs.Down.{Leaf};
ghost use Rattle.edit.specs.Change.{change_of};
ghost use Rattle.gather.specs.Kept.{Fits};
ghost use Rattle.update.specs.Single.{Enters, Ends};

use edit::Change;
use model::{Limits, Pair, Refusal};

// A setting comes in.
fn inserting(key: u32, value: u32) -> Change
    requires { key < key_limit }
    ensures { (change_of result ≡ inserting key value) × Fits result }
{
    Change {
        drops: 0,
        drop1: 0,
        drop2: 0,
        takes: 1,
        take1: Pair { key, value },
        take2: Pair { key: 0, value: 0 },
    }
}

// A setting ends.
fn deleting(key: u32) -> Change
    ensures { (change_of result ≡ deleting key) × Fits result }
{
    let no = Pair { key: 0, value: 0 };
    Change {
        drops: 1,
        drop1: key,
        drop2: 0,
        takes: 0,
        take1: no,
        take2: no,
    }
}

// The insert of a key that is not alive, bench keys too.
pub fn raw_insert(s: &mut [u8], l: Limits, key: u32, value: u32) -> Result<(), Refusal>
    requires { Enters l s.old key }
    ensures number { number_in result ≡ (left l.least s.old
        (raw_insert l.least (decode l.least s.old) key value)).number }
    ensures bytes { s.new ≡ (left l.least s.old
        (raw_insert l.least (decode l.least s.old) key value)).store }
{
    crate::update(s, l, key, inserting(key, value))
}

// The delete of a key that is alive.
pub fn raw_delete(s: &mut [u8], l: Limits, key: u32) -> Result<(), Refusal>
    requires { Ends l s.old key }
    ensures number { number_in result ≡ (left l.least s.old
        (update l.least (decode l.least s.old) key (deleting key))).number }
    ensures bytes { s.new ≡ (left l.least s.old
        (update l.least (decode l.least s.old) key (deleting key))).store }
{
    crate::update(s, l, key, deleting(key))
}

// The same insert where the leaf for its key at the open version w is at hand, page n.
pub fn insert_at(
    s: &mut [u8],
    l: Limits,
    w: u32,
    n: usize,
    key: u32,
    value: u32,
) -> Result<(), Refusal>
    requires { Enters l s.old key × (w ≡ next (decode l.least s.old)) × Leaf l s.old w key n }
    ensures number { number_in result ≡ (left l.least s.old
        (raw_insert l.least (decode l.least s.old) key value)).number }
    ensures bytes { s.new ≡ (left l.least s.old
        (raw_insert l.least (decode l.least s.old) key value)).store }
{
    crate::update_at(s, l, w, n, key, inserting(key, value))
}

// The same delete.
pub fn delete_at(s: &mut [u8], l: Limits, w: u32, n: usize, key: u32) -> Result<(), Refusal>
    requires { Ends l s.old key × (w ≡ next (decode l.least s.old)) × Leaf l s.old w key n }
    ensures number { number_in result ≡ (left l.least s.old
        (update l.least (decode l.least s.old) key (deleting key))).number }
    ensures bytes { s.new ≡ (left l.least s.old
        (update l.least (decode l.least s.old) key (deleting key))).store }
{
    crate::update_at(s, l, w, n, key, deleting(key))
}
