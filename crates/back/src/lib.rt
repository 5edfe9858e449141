// A return to an earlier version, in the open update of a sound store: "first it deletes keys absent there or with another value, then
// it inserts what is missing, each in rising key order and each exactly as the single call". Each step is foreseen before it writes, and
// nothing is judged again in between: a step leaves a sound store. What differs is asked of the cursors anew at each step, so no list
// is kept.
#![tactic(auto)]

ghost use Rattle.std.specs.Prelude.{◌≡◌, true, false, ◌≤◌};
ghost use Rattle.model.specs.Walk.{key_limit};
ghost use Rattle.model.specs.Layout.{decode};
ghost use Rattle.model.specs.Refusals.{number_in};
ghost use Rattle.model.specs.Lent.{left_by};
ghost use Rattle.model.specs.Return.{carried, or_abandoned};
ghost use Rattle.walk.specs.Sure.{Walkable};
ghost use Rattle.differ.specs.Merge.{told, Onward};
ghost use Rattle.differ.specs.Listing.{between, left_of, next_of};
ghost use Rattle.back.specs.Going.{Going, BackStepped, BackWent};
ghost use Rattle.back.specs.Pass.{passed};

use differ::Gap;
use model::{Delta, Limits, Refusal};

// "Keys are 0 to 16,777,215".
const KEYS: u32 = 16777216;

// The delete that a difference from the open version w to version v asks for: of what is removed (1) or has another value (2).
fn end_one(s: &mut [u8], l: Limits, v: u32, w: u32, key: u32, d: Delta) -> Result<(), Refusal>
    requires { Going l s.old v w × (key ≤ key_limit) × (d ≡ next_of l s.old w v key) }
    ensures { BackStepped l s.old s.new v w d.key (number_in result)
        (passed false l.least (told d) (decode l.least s.old)) }
{
    match d.kind {
        // an added key is not alive here
        0 => Ok(()),
        // nothing differs from the key on
        3 => Ok(()),
        _ => update::raw_delete(s, l, d.key),
    }
}

// The insert that it asks for: of what is added (0). A key that has another value is deleted by then, so that 10 is never met.
fn set_one(s: &mut [u8], l: Limits, v: u32, w: u32, key: u32, d: Delta) -> Result<(), Refusal>
    requires { Going l s.old v w × (key ≤ key_limit) × (d ≡ next_of l s.old w v key) }
    ensures { BackStepped l s.old s.new v w d.key (number_in result)
        (passed true l.least (told d) (decode l.least s.old)) }
{
    match d.kind {
        0 => update::raw_insert(s, l, d.key, d.new),
        2 => Err(Refusal::KeyAlive),
        _ => Ok(()),
    }
}

// One of them. Which is a word, by which `passed` in the contracts goes; a closure for the step would have the store that it changes lent anew.
// The converter's steps differ from these: it inserts a key that has another value, which is refused here.
fn act(
    s: &mut [u8],
    l: Limits,
    v: u32,
    w: u32,
    key: u32,
    d: Delta,
    insert: bool,
) -> Result<(), Refusal>
    requires { Going l s.old v w × (key ≤ key_limit) × (d ≡ next_of l s.old w v key) }
    ensures { BackStepped l s.old s.new v w d.key (number_in result)
        (passed insert l.least (told d) (decode l.least s.old)) }
{
    if insert {
        set_one(s, l, v, w, key, d)
    } else {
        end_one(s, l, v, w, key, d)
    }
}

// The key from which a pass goes on, of a return or of the converter: leaves that show the same at both versions are passed over. It is asked once for each leaf that does
// not, which ends at `high`.
pub fn onward(s: &[u8], l: Limits, u: u32, v: u32, key: u32, high: u32) -> Gap
    requires { Walkable l s.now u × Walkable l s.now v × (key ≤ key_limit) }
    ensures { Onward key result.key × (left_of l s.now u v key ≡ left_of l s.now u v result.key) }
{
    if key < high {
        Gap { key, high }
    } else {
        differ::past(s, l, u, v, key)
    }
}

// The deletes, or the inserts, in rising key order, to the first that is refused. Each turn leaves a key of one of the two versions
// behind, so there are at most as many as the two have settings, and one.
fn pass(s: &mut [u8], l: Limits, v: u32, w: u32, insert: bool) -> Result<(), Refusal>
    requires { Going l s.old v w }
    ensures { BackWent l s.new v w (number_in result)
        (passed insert l.least (between l s.old w v) (decode l.least s.old)) }
{
    let mut key = 0;
    let mut high = 0;
    while key < KEYS {
        let g = onward(s, l, w, v, key, high);
        let d = differ::next(s, l, w, v, g.key);
        act(s, l, v, w, g.key, d, insert)?;
        key = d.key + 1;
        high = g.high;
    }
    Ok(())
}

// Both passes, to the first step that is refused.
fn carry(s: &mut [u8], l: Limits, v: u32, w: u32) -> Result<(), Refusal>
    requires { Going l s.old v w }
    ensures { BackWent l s.new v w (number_in result)
        (carried l.least (between l s.old w v) (decode l.least s.old)) }
{
    pass(s, l, v, w, false)?;
    pass(s, l, v, w, true)
}

// Makes the settings of the open version w those of version v. "If any step gives 12 or 13, the whole update is abandoned, its earlier
// calls included, and the number returned".
pub fn return_to(s: &mut [u8], l: Limits, v: u32, w: u32) -> Result<(), Refusal>
    requires { Going l s.old v w }
    ensures number { number_in result ≡ (left_by l.least s.old
        (or_abandoned (carried l.least (between l s.old w v) (decode l.least s.old)))).number }
    ensures bytes { s.new ≡ (left_by l.least s.old
        (or_abandoned (carried l.least (between l s.old w v) (decode l.least s.old)))).store }
{
    match carry(s, l, v, w) {
        Ok(()) => Ok(()),
        Err(r) => {
            turn::abandon(s, l);
            Err(r)
        }
    }
}
