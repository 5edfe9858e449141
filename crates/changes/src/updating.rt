// Insert and delete by their guard.
ghost use Rattle.std.specs.Prelude.{◌≡◌, ◌<◌, IfOk};
ghost use Rattle.model.specs.Walk.{key_limit, lookup};
ghost use Rattle.model.specs.Layout.{decode};
ghost use Rattle.model.specs.Calls.{is_some};
ghost use Rattle.model.specs.Lent.{leaving, insert_lent, delete_lent};
ghost use Rattle.model.specs.Refusals.{number_in};
ghost use Rattle.walk.specs.Down.{Leaf};
ghost use Rattle.walk.specs.Sure.{Walkable};
ghost use Rattle.reads.specs.Guard.{guarded, Sure};
ghost use Rattle.changes.specs.Updating.{updating, limit_of, against, AtLeaf};

use model::{Limits, Refusal};

// "Keys 16,776,960 and above belong to our test bench. Insert refuses them with 5."
const BENCH: u32 = 16776960;

// What the guard of an update found where it lets the update through: the open version, and the leaf for the key then.
#[derive(Clone, Copy)]
pub struct Reached {
    pub version: u32,
    pub leaf: usize,
}

// Whether the key is alive, as its leaf, page n, has it.
fn is_alive(s: &[u8], l: Limits, n: usize, key: u32, w: u32) -> bool
    requires { Walkable l s.now w × Leaf l s.now w key n }
    ensures { result ≡ is_some (lookup (decode l.least s.now) key w) }
{
    let p = store::part(s, l, n);
    let h = page::head_of(p, l);
    walk::find(p, h.count, w, key).is_some()
}

// 10 "key alive (insert)", 11 "key not alive (delete)".
#[tactic(auto, unfolding(crate::specs::Updating::against))]
fn against(insert: bool, alive: bool) -> Result<(), Refusal>
    ensures { number_in result ≡ against insert alive }
{
    match (insert, alive) {
        (true, true) => Err(Refusal::KeyAlive),
        (false, false) => Err(Refusal::KeyNotAlive),
        _ => Ok(()),
    }
}

// The first key that the call does not take: "Keys are 0 to 16,777,215", and of those a delete takes all, an insert none of the bench's.
fn limit_of(insert: bool) -> u32
    ensures { result ≡ limit_of insert }
{
    if insert { BENCH } else { near::KEYS }
}

// The last test, and the leaf that it asks.
fn by_leaf(s: &[u8], l: Limits, key: u32, insert: bool, w: u32) -> Result<Reached, Refusal>
    requires { Walkable l s.now w × (key < key_limit) }
    ensures number { number_in result ≡ against insert (is_some (lookup (decode l.least s.now) key w)) }
    ensures leaf { IfOk result (λ r. (r.version ≡ w) × Leaf l s.now r.version key r.leaf) }
{
    let leaf = walk::leaf_for(s, l, w, key);
    against(insert, is_alive(s, l, leaf, key, w))?;
    Ok(Reached { version: w, leaf })
}

// The guard of insert and delete: judging, then 5, 7, and 10 or 11.
// `insert` says which of the two asks: they differ in the first test and the last alone, and a guard for each would be no plainer.
pub(crate) fn guard_updating(
    s: &[u8],
    l: Limits,
    key: u32,
    insert: bool,
    sure: bool,
) -> Result<Reached, Refusal>
    requires { Sure l s.now sure }
    ensures number { number_in result ≡ guarded l.least s.now (updating insert key) }
    ensures leaf { IfOk result (λ r. AtLeaf l s.now key r.version r.leaf) }
{
    crate::judge(s, l, sure)?;
    if limit_of(insert) <= key {
        return Err(Refusal::KeyTooLarge);
    }
    let h = store::header(s, l);
    if !h.opened {
        return Err(Refusal::NoUpdateOpen);
    }
    by_leaf(s, l, key, insert, h.current + 1)
}

// Inserts a setting in the open update.
pub fn insert_in(s: &mut [u8], l: Limits, key: u32, value: u32) -> Result<(), Refusal>
    ensures { leaving (number_in result) s.new ≡ insert_lent l.least s.old key value }
{
    crate::sure::insert(s, l, key, value, false)
}

// Deletes a setting in the open update.
pub fn delete_in(s: &mut [u8], l: Limits, key: u32) -> Result<(), Refusal>
    ensures { leaving (number_in result) s.new ≡ delete_lent l.least s.old key }
{
    crate::sure::delete(s, l, key, false)
}
