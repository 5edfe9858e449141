// The life of a key on a sound store: every stretch of versions in which a lookup finds one value. It goes from change to change, and not
// version by version.
#![tactic(auto)]

mod holding;

ghost use Rattle.std.specs.Prelude.{◌≡◌, true, [], ◌∷◌, ◌≤◌, ◌<◌, ltb, length};
ghost use Rattle.model.specs.Basic.{pick};
ghost use Rattle.model.specs.Entry.{alive};
ghost use Rattle.model.specs.Walk.{lookup, key_limit};
ghost use Rattle.model.specs.Layout.{decode};
ghost use Rattle.model.specs.Judged.{is_sound};
ghost use Rattle.model.specs.Told.{told_by};
ghost use Rattle.model.specs.Life.{stretch_numbers, life_of, life};
ghost use Rattle.model.specs.Lent.{listed};
ghost use Rattle.model.specs.Inner.{Lasts};
ghost use Rattle.model.specs.Telling.{written, Space, Gathers};
ghost use Rattle.model.specs.Refusals.{found_in, listed_in};
ghost use Rattle.walk.specs.Sure.{Walkable};
ghost use Rattle.model.specs.Still.{stretches};
ghost use Rattle.life.specs.Lived.{shown};

use model::{Limits, ListRefusal, Stretch};

// The first version behind v at which a lookup answers otherwise than at v, or the first behind c.
fn change_after(s: &[u8], l: Limits, key: u32, v: u32, c: u32, was: Option<u32>) -> u32
    requires { Walkable l s.now c × (key < key_limit) × ((decode l.least s.now).oldest ≤ v) × (v ≤ c)
        × (found_in was ≡ lookup (decode l.least s.now) key v) }
    ensures { Lasts c (lookup (decode l.least s.now) key) v result }
{
    let mut u = holding::answer_until(s, l, key, v, c + 1);
    while u <= c && walk::lookup(s, l, key, u) == was {
        u = holding::answer_until(s, l, key, u, c + 1);
    }
    u
}

// The end of a stretch as it is told: 1,048,575 where the version c is in it.
fn shown_end(c: u32, r: u32) -> u32
    ensures { result ≡ pick (ltb c r) alive r }
{
    if c < r { page::ALIVE } else { r }
}

// A stretch behind the first k of a list.
fn put(list: &mut [u32], k: usize, a: Stretch, write: bool)
    requires { Space stretches write list.old k (a ∷ []) }
    ensures { list.new ≡ written stretches write list.old k (a ∷ []) }
{
    if write {
        list[3 * k] = a.start;
        list[3 * k + 1] = a.end;
        list[3 * k + 2] = a.value;
    }
}

// What an answer tells that is shown from v up to e, behind the first k of a list; gives how many stretches there are then.
fn tell(list: &mut [u32], k: usize, v: u32, e: u32, answer: Option<u32>, write: bool) -> usize
    requires { Space stretches write list.old k (shown v e (found_in answer)) }
    ensures { Gathers stretches write list.old list.new k result (shown v e (found_in answer)) }
{
    match answer {
        Some(value) => {
            let a = Stretch {
                start: v,
                end: e,
                value,
            };
            put(list, k, a, write);
            k + 1
        }
        None => k,
    }
}

// The stretches from version old up to version c, into a list or only counted; gives how many there are. A flag says which, and no
// closure, since one contract says of both passes what is gathered (model/specs/Telling).
fn tell_all(s: &[u8], l: Limits, key: u32, old: u32, c: u32, list: &mut [u32], write: bool) -> usize
    requires { Walkable l s.now c × (key < key_limit)
        × Space stretches write list.old 0 (life_of old c (lookup (decode l.least s.now) key))
        × ((decode l.least s.now).oldest ≤ old) × (old ≤ c) }
    ensures { Gathers stretches write list.old list.new 0 result
        (life_of old c (lookup (decode l.least s.now) key)) }
{
    let mut found = 0;
    let mut v = old;
    while v <= c {
        let answer = walk::lookup(s, l, key, v);
        let r = change_after(s, l, key, v, c, answer);
        found = tell(list, found, v, shown_end(c, r), answer, write);
        v = r;
    }
    found
}

// The life of a key, and what it leaves in the caller's list: the stretches are counted before any is written, so that 14 leaves the
// list untouched.
pub fn life(s: &[u8], l: Limits, key: u32, list: &mut [u32]) -> Result<usize, ListRefusal>
    requires { (is_sound l.least s.now ≡ true) × (key < key_limit) }
    ensures { listed_in result list.new
        ≡ listed list.old (told_by stretch_numbers 3 0 (length list.old) (life (decode l.least s.now) key)) }
{
    let h = store::header(s, l);
    let found = tell_all(s, l, key, h.oldest, h.current, list, false);
    if list.len() < 3 * found {
        return Err(ListRefusal::TooShort(found));
    }
    tell_all(s, l, key, h.oldest, h.current, list, true);
    Ok(found)
}
