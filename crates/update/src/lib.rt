// One change at the leaf for a key, at the open version, on a sound store. The number that it comes to is foreseen before the first
// byte is written, so that a refusal leaves the store untouched.
#![tactic(auto)]

mod single;

ghost use Rattle.std.specs.Prelude.{◌≡◌, true, ◌<◌, length};
ghost use Rattle.model.specs.Store.{free_ones, next};
ghost use Rattle.model.specs.Walk.{key_limit};
ghost use Rattle.model.specs.Layout.{decode};
ghost use Rattle.model.specs.Judged.{is_sound};
ghost use Rattle.model.specs.Refusals.{number_in};
ghost use Rattle.model.specs.Climb.{update};
ghost use Rattle.model.specs.Needs.{slot_left};
ghost use Rattle.outlook.specs.Plan.{plan_up, outlook_number};
ghost use Rattle.model.specs.Lent.{left};
ghost use Rattle.edit.specs.Change.{change_of};
ghost use Rattle.walk.specs.Down.{Leaf};
ghost use Rattle.gather.specs.Kept.{Fits};
ghost use Rattle.parts.specs.Kept.{ExactBytes, pages_of};
ghost use Rattle.plan.specs.Plan.{ups_of, Led};
ghost use Rattle.update.specs.Applied.{at_root, from_leaf, ToRoot, ToApply};
ghost use Rattle.update.specs.Whole.{LeavesSound};
ghost use Rattle.root.specs.Slotted.{Slotted};

use edit::Change;
use model::{Limits, Refusal};
use plan::Way;
pub use single::{delete_at, insert_at, raw_delete, raw_insert};

// What a change will come to: "the rules need a page and none is free", "the rules need a 257th slot", or neither.
fn foresee(s: &[u8], l: Limits, w: u32, way: Way, c: Change, size: usize) -> Result<(), Refusal>
    requires { ExactBytes l s.now × Led l s.now way × Fits c × (size ≡ length (pages_of l s.now)) × Slotted l s.now }
    ensures { number_in result ≡ outlook_number (slot_left l.least (decode l.least s.now))
        (plan_up l.least w (pages_of l s.now) way.root (ups_of way.list way.n) (change_of c) (length (free_ones (pages_of l s.now)))) }
{
    let moves = plan::plan_up(s, l, w, way, c, parts::count_free(s, l, size))?;
    if moves && !root::slot_left(s, l) {
        return Err(Refusal::NoSlotFree);
    }
    Ok(())
}

// The root's work, and "the directory slot of the open version" where another page becomes the root.
fn apply_root(s: &mut [u8], l: Limits, w: u32, n: usize, c: Change, size: usize)
    requires { ToRoot l s.old w n c size }
    ensures { s.new ≡ (left l.least s.old (at_root l s.old w n c)).store }
{
    match root::work_root(s, l, w, n, c, size) {
        Ok(Some(m)) => root::take_slot(s, l, m),
        Ok(None) => {}
        // foreseen, so never met
        Err(_) => {}
    }
}

// "Work goes from the leaf up."
fn apply(s: &mut [u8], l: Limits, w: u32, way: Way, c: Change, size: usize)
    requires { ToApply l s.old w way c size }
    ensures { s.new ≡ (left l.least s.old (from_leaf l s.old w way c)).store }
{
    match climb::climb_up(s, l, w, way, c, size) {
        Ok(Some(d)) => apply_root(s, l, w, way.root, d, size),
        Ok(None) => {}
        // foreseen, so never met
        Err(_) => {}
    }
}

// The change carried out from the leaf up, once its number is foreseen.
fn rise(s: &mut [u8], l: Limits, w: u32, key: u32, c: Change) -> Result<(), Refusal>
    requires { (is_sound l.least s.old ≡ true) × ((decode l.least s.old).opened ≡ true) × (key < key_limit) × Fits c
        × LeavesSound l.least (update l.least (decode l.least s.old) key (change_of c)) × (w ≡ next (decode l.least s.old)) }
    ensures number { number_in result ≡ (left l.least s.old
        (update l.least (decode l.least s.old) key (change_of c))).number }
    ensures bytes { s.new ≡ (left l.least s.old
        (update l.least (decode l.least s.old) key (change_of c))).store }
{
    let way = plan::way_to(s, l, w, key);
    let size = parts::size_of(s, l);
    foresee(s, l, w, way, c, size)?;
    apply(s, l, w, way, c, size);
    Ok(())
}

// The change made at the leaf for a key, page n, or the number that speaks against it. Most leaves take it in place: then no page above
// is asked, and no free one is counted.
fn update_at(s: &mut [u8], l: Limits, w: u32, n: usize, key: u32, c: Change) -> Result<(), Refusal>
    requires { (is_sound l.least s.old ≡ true) × ((decode l.least s.old).opened ≡ true) × (key < key_limit) × Fits c
        × LeavesSound l.least (update l.least (decode l.least s.old) key (change_of c)) × (w ≡ next (decode l.least s.old))
        × Leaf l s.old w key n }
    ensures number { number_in result ≡ (left l.least s.old
        (update l.least (decode l.least s.old) key (change_of c))).number }
    ensures bytes { s.new ≡ (left l.least s.old
        (update l.least (decode l.least s.old) key (change_of c))).store }
{
    if group::takes_in_place(s, l, n, w, c) {
        parts::change_in(s, l, n, w, c);
        return Ok(());
    }
    rise(s, l, w, key, c)
}

// The same by the way down to the leaf.
pub fn update(s: &mut [u8], l: Limits, key: u32, c: Change) -> Result<(), Refusal>
    requires { (is_sound l.least s.old ≡ true) × ((decode l.least s.old).opened ≡ true) × (key < key_limit) × Fits c
        × LeavesSound l.least (update l.least (decode l.least s.old) key (change_of c)) }
    ensures number { number_in result ≡ (left l.least s.old
        (update l.least (decode l.least s.old) key (change_of c))).number }
    ensures bytes { s.new ≡ (left l.least s.old
        (update l.least (decode l.least s.old) key (change_of c))).store }
{
    let w = store::header(s, l).current + 1;
    let n = walk::leaf_for(s, l, w, key);
    update_at(s, l, w, n, key, c)
}
