// The converter: a sound store of one edition replayed, version after version, into a fresh one of another. "A converter makes its target a
// fresh edition 2 store, which counts as making it fresh, and replays into it each version's differences as 2026-07 does, bench keys let
// through, so that every committed version reads the same." The source is only read, so what differs is asked of its cursors alone, and
// nothing is judged between the steps: each leaves a sound store.
#![tactic(auto)]

mod call;
mod skip;

ghost use Rattle.std.specs.Prelude.{◌≡◌, true, false, suc, ◌≤◌, ◌<◌};
ghost use Rattle.model.specs.Walk.{settings, key_limit};
ghost use Rattle.model.specs.Layout.{decode};
ghost use Rattle.model.specs.Refusals.{number_in};
ghost use Rattle.model.specs.Return.{carried};
ghost use Rattle.model.specs.Convert.{replayed, replay};
ghost use Rattle.walk.specs.Sure.{Walkable};
ghost use Rattle.differ.specs.Merge.{told};
ghost use Rattle.differ.specs.Listing.{between};
ghost use Rattle.back.specs.Pass.{passed};
ghost use Rattle.convert.specs.Ready.{UpdateOpen, shown, Went};
ghost use Rattle.convert.specs.Due.{Due};
ghost use Rattle.convert.specs.Version.{Replaying, Replayed};

pub use call::convert;
use model::{Delta, Limits, Refusal};

// "Keys are 0 to 16,777,215".
const KEYS: u32 = 16777216;

// The delete that a difference asks for: of what is removed (1) or has another value (2).
fn end_one(t: &mut [u8], l: Limits, d: Delta) -> Result<(), Refusal>
    requires { UpdateOpen l t.old × Due false (shown l t.old) (told d) }
    ensures { Went l t.new (number_in result) (passed false l.least (told d) (decode l.least t.old)) }
{
    match d.kind {
        // an added key is not alive here
        0 => Ok(()),
        // nothing differs from the key on
        3 => Ok(()),
        _ => update::raw_delete(t, l, d.key),
    }
}

// The insert that it asks for: of what is added (0), or has another value and is deleted by then (2).
fn set_one(t: &mut [u8], l: Limits, d: Delta) -> Result<(), Refusal>
    requires { UpdateOpen l t.old × Due true (shown l t.old) (told d) }
    ensures { Went l t.new (number_in result) (passed true l.least (told d) (decode l.least t.old)) }
{
    match d.kind {
        // a removed key does not come back
        1 => Ok(()),
        // nothing differs from the key on
        3 => Ok(()),
        _ => update::raw_insert(t, l, d.key, d.new),
    }
}

// One of them.
fn act(t: &mut [u8], l: Limits, d: Delta, insert: bool) -> Result<(), Refusal>
    requires { UpdateOpen l t.old × Due insert (shown l t.old) (told d) }
    ensures { Went l t.new (number_in result) (passed insert l.least (told d) (decode l.least t.old)) }
{
    if insert {
        set_one(t, l, d)
    } else {
        end_one(t, l, d)
    }
}

// The deletes, or the inserts, that the source's differences from version u to version v ask of the target, in rising key order, to the
// first that is refused.
fn pass(
    s: &[u8],
    k: Limits,
    t: &mut [u8],
    l: Limits,
    u: u32,
    v: u32,
    insert: bool,
) -> Result<(), Refusal>
    requires { Walkable k s.now u × Walkable k s.now v × UpdateOpen l t.old
        × Due insert (shown l t.old) (between k s.now u v) }
    ensures { Went l t.new (number_in result)
        (passed insert l.least (between k s.now u v) (decode l.least t.old)) }
{
    let mut key = 0;
    let mut high = 0;
    while key < KEYS {
        let g = back::onward(s, k, u, v, key, high);
        let d = differ::next(s, k, u, v, g.key);
        act(t, l, d, insert)?;
        key = d.key + 1;
        high = g.high;
    }
    Ok(())
}

// Both passes, to the first step that is refused.
fn carry(s: &[u8], k: Limits, t: &mut [u8], l: Limits, u: u32, v: u32) -> Result<(), Refusal>
    requires { Walkable k s.now u × Walkable k s.now v × UpdateOpen l t.old
        × (shown l t.old ≡ settings (decode k.least s.now) u) }
    ensures { Went l t.new (number_in result) (carried l.least (between k s.now u v) (decode l.least t.old)) }
{
    pass(s, k, t, l, u, v, false)?;
    pass(s, k, t, l, u, v, true)
}

// One version more: what differs from version v to the next one, between an open and a commit that asks for no change: "An empty release
// from before 2026-05 is replayed as an empty version, not refused."
fn one_version(s: &[u8], k: Limits, t: &mut [u8], l: Limits, v: u32) -> Result<(), Refusal>
    requires { Replaying k s.now l t.old v × (v < (decode k.least s.now).current) }
    ensures { Replayed l t.new (number_in result)
        (replayed l.least (between k s.now v (suc v)) (decode l.least t.old)) }
{
    turn::begin(t, l);
    carry(s, k, t, l, v, v + 1)?;
    turn::commit(t, l);
    Ok(())
}

// Version after version of the source, into a target that shows its version 0, to the first step that is refused. Before each, the versions
// are passed over in which nothing starts or ends, so there are no more turns than versions at which something does.
pub fn replay(s: &[u8], k: Limits, t: &mut [u8], l: Limits) -> Result<(), Refusal>
    requires { Replaying k s.now l t.old 0 }
    ensures { Replayed l t.new (number_in result)
        (replay l.least (decode k.least s.now) 0 (decode k.least s.now).current (decode l.least t.old)) }
{
    let last = store::header(s, k).current;
    let mut v = 0;
    while v < last {
        let w = skip::skip(s, k, t, l, v, last);
        if w == last {
            return Ok(());
        }
        one_version(s, k, t, l, w)?;
        v = w + 1;
    }
    Ok(())
}
