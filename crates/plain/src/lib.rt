// The plain engine (2026-10): one list of items with spans, lent by the caller, and each call a scan of it. It has no pages and no tree.
#![tactic(auto)]

mod back;
mod guard;
mod items;
pub mod lent;
mod life;
mod room;
mod scan;
mod sweep;
mod tell;

ghost use Rattle.std.specs.Prelude.{◌≡◌, ◌≤◌, length};
ghost use Rattle.model.specs.Store.{last_of};
ghost use Rattle.model.specs.Calls.{beyond, bad_range};
ghost use Rattle.model.specs.Lent.{listed};
ghost use Rattle.model.specs.Refusals.{looked_in, listed_in};
ghost use Rattle.plain.specs.Plain.{insert, delete, commit, abandon, return, prune, lookup, range, difference, life};
ghost use Rattle.plain.specs.Items.{plain_of, ItemsHeld};
ghost use Rattle.plain.specs.Calls.{given_by, Room, Opens};

use model::{Entry, ListRefusal, Refusal};

// Keys are below this.
pub const KEYS: u32 = 16777216;
// "End 1,048,575 means alive."
pub const ALIVE: u32 = 1048575;
// "Keys 16,776,960 and above belong to our test bench."
const BENCH: u32 = 16776960;

// What goes into a call beside the items, and comes back with its answer: the current version, whether an update is open, how many items
// the list holds, the oldest version, and the edition, which prune alone asks for.
#[derive(Clone, Copy)]
pub struct State {
    pub current: u32,
    pub opened: bool,
    pub count: usize,
    pub oldest: u32,
    pub edition: u32,
}

impl State {
    // "Let 'last' be the open version if one is open, else the current one."
    fn last(self) -> u32
        requires { self.current ≤ 1048574 }
        ensures { result ≡ last_of self.opened self.current }
    {
        self.current + u32::from(self.opened)
    }

    // 6 of a reading: above last, or below the oldest. This machine shares the definitions with the engine, and no code: so too below.
    fn unreadable(self, v: u32) -> bool
        requires { self.current ≤ 1048574 }
        ensures { result ≡ beyond (last_of self.opened self.current) self.oldest v }
    {
        self.last() < v || v < self.oldest
    }

    // 6 of a return and of a prune: above the current version, or below the oldest.
    fn uncommitted(self, v: u32) -> bool
        ensures { result ≡ beyond self.current self.oldest v }
    {
        self.current < v || v < self.oldest
    }
}

pub fn open(s: State) -> Result<State, Refusal>
    ensures { Opens s result }
{
    if s.opened {
        return Err(Refusal::UpdateAlreadyOpen);
    }
    if 1048574 <= s.current {
        return Err(Refusal::VersionsUsedUp);
    }
    Ok(State { opened: true, ..s })
}

pub fn insert(items: &mut [u32], s: State, key: u32, value: u32) -> Result<State, Refusal>
    requires { ItemsHeld s items.old × Room (insert (plain_of s items.old) key value) items.old }
    ensures { given_by s result items.new ≡ insert (plain_of s items.old) key value }
{
    if BENCH <= key {
        return Err(Refusal::KeyTooLarge);
    }
    if !s.opened {
        return Err(Refusal::NoUpdateOpen);
    }
    let w = s.current + 1;
    if items::value_at(items, s.count, key, w).is_some() {
        return Err(Refusal::KeyAlive);
    }
    items::put(
        items,
        s.count,
        Entry {
            key,
            start: w,
            end: ALIVE,
            value,
        },
    );
    Ok(State {
        count: s.count + 1,
        ..s
    })
}

pub fn delete(items: &mut [u32], s: State, key: u32) -> Result<State, Refusal>
    requires { ItemsHeld s items.old }
    ensures { given_by s result items.new ≡ delete (plain_of s items.old) key }
{
    if KEYS <= key {
        return Err(Refusal::KeyTooLarge);
    }
    if !s.opened {
        return Err(Refusal::NoUpdateOpen);
    }
    let w = s.current + 1;
    if items::value_at(items, s.count, key, w).is_none() {
        return Err(Refusal::KeyNotAlive);
    }
    let count = sweep::sweep(items, s.count, |e| sweep::ended(e, w, key));
    Ok(State { count, ..s })
}

pub fn abandon(items: &mut [u32], s: State) -> Result<State, Refusal>
    requires { ItemsHeld s items.old }
    ensures { given_by s result items.new ≡ abandon (plain_of s items.old) }
{
    if !s.opened {
        return Err(Refusal::NoUpdateOpen);
    }
    let w = s.current + 1;
    let count = sweep::sweep(items, s.count, |e| sweep::undone(e, w));
    Ok(State {
        opened: false,
        count,
        ..s
    })
}

// 15 where nothing differs from the current version.
pub fn commit(items: &[u32], s: State) -> Result<State, Refusal>
    requires { ItemsHeld s items.now }
    ensures { given_by s result items.now ≡ commit (plain_of s items.now) }
{
    if !s.opened {
        return Err(Refusal::NoUpdateOpen);
    }
    let w = s.current + 1;
    if scan::same_settings(items, s.count, s.current, w) {
        return Err(Refusal::NothingChanged);
    }
    Ok(State {
        current: w,
        opened: false,
        ..s
    })
}

pub fn return_to(items: &mut [u32], s: State, v: u32) -> Result<State, Refusal>
    requires { ItemsHeld s items.old × Room (return (plain_of s items.old) v) items.old }
    ensures { given_by s result items.new ≡ return (plain_of s items.old) v }
{
    if s.uncommitted(v) {
        return Err(Refusal::VersionAboveLast);
    }
    if !s.opened {
        return Err(Refusal::NoUpdateOpen);
    }
    let w = s.current + 1;
    let n = back::end_others(items, s.count, w, v);
    let count = back::set_missing(items, n, w, v);
    Ok(State { count, ..s })
}

// What ended at or before v goes.
pub fn prune(items: &mut [u32], s: State, v: u32) -> Result<State, Refusal>
    requires { ItemsHeld s items.old }
    ensures { given_by s result items.new ≡ prune (plain_of s items.old) v }
{
    if s.edition == 1 {
        return Err(Refusal::WrongEdition);
    }
    if s.uncommitted(v) {
        return Err(Refusal::VersionAboveLast);
    }
    if s.opened {
        return Err(Refusal::UpdateAlreadyOpen);
    }
    let count = sweep::sweep(items, s.count, |e| sweep::outliving(e, v));
    Ok(State {
        count,
        oldest: v,
        ..s
    })
}

pub fn lookup(items: &[u32], s: State, key: u32, v: u32) -> Result<Option<u32>, Refusal>
    requires { ItemsHeld s items.now }
    ensures { looked_in result ≡ lookup (plain_of s items.now) key v }
{
    if KEYS <= key {
        return Err(Refusal::KeyTooLarge);
    }
    if s.unreadable(v) {
        return Err(Refusal::VersionAboveLast);
    }
    Ok(items::value_at(items, s.count, key, v))
}

// 5 of a range: a key too large, or low above high.
fn bad_range(low: u32, high: u32) -> bool
    ensures { result ≡ bad_range low high }
{
    KEYS <= low || KEYS <= high || high < low
}

// The settings are counted before any is written, so that 14 leaves the list untouched.
pub fn range(
    items: &[u32],
    s: State,
    low: u32,
    high: u32,
    v: u32,
    list: &mut [u32],
) -> Result<usize, ListRefusal>
    requires { ItemsHeld s items.now }
    ensures { listed_in result list.new
        ≡ listed list.old (range (plain_of s items.now) low high v (length list.old)) }
{
    if bad_range(low, high) {
        return Err(ListRefusal::Refused(Refusal::KeyTooLarge));
    }
    if s.unreadable(v) {
        return Err(ListRefusal::Refused(Refusal::VersionAboveLast));
    }
    let found = tell::tell_settings(items, s.count, low, high, v, list, false);
    if list.len() < 2 * found {
        return Err(ListRefusal::TooShort(found));
    }
    tell::tell_settings(items, s.count, low, high, v, list, true);
    Ok(found)
}

pub fn difference(
    items: &[u32],
    s: State,
    u: u32,
    v: u32,
    list: &mut [u32],
) -> Result<usize, ListRefusal>
    requires { ItemsHeld s items.now }
    ensures { listed_in result list.new
        ≡ listed list.old (difference (plain_of s items.now) u v (length list.old)) }
{
    if s.unreadable(u) || s.unreadable(v) {
        return Err(ListRefusal::Refused(Refusal::VersionAboveLast));
    }
    let found = tell::tell_differences(items, s.count, u, v, list, false);
    if list.len() < 4 * found {
        return Err(ListRefusal::TooShort(found));
    }
    tell::tell_differences(items, s.count, u, v, list, true);
    Ok(found)
}

// The life of a key from the oldest version on; "an open update is not shown".
pub fn life_of(items: &[u32], s: State, key: u32, list: &mut [u32]) -> Result<usize, ListRefusal>
    requires { ItemsHeld s items.now }
    ensures { listed_in result list.new
        ≡ listed list.old (life (plain_of s items.now) key (length list.old)) }
{
    if KEYS <= key {
        return Err(ListRefusal::Refused(Refusal::KeyTooLarge));
    }
    let found = life::tell_life(items, s.count, key, s.oldest, s.current, list, false);
    if list.len() < 3 * found {
        return Err(ListRefusal::TooShort(found));
    }
    life::tell_life(items, s.count, key, s.oldest, s.current, list, true);
    Ok(found)
}
