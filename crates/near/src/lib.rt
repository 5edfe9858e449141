// Lookups that judge only what they read (request 2026-04): the header and the slots, and then each page of their own walk.
#![tactic(auto)]

mod bounded;
mod down;
pub mod guard;
mod within;

ghost use Rattle.std.specs.Prelude.{◌≡◌, true, ◌<◌, length};
ghost use Rattle.model.specs.Walk.{key_limit, range_below, range_of};
ghost use Rattle.model.specs.Layout.{decode};
ghost use Rattle.model.specs.Near.{range_right};
ghost use Rattle.model.specs.Calls.{ranged_by};
ghost use Rattle.model.specs.Lent.{listed, lookup_lent, range_lent};
ghost use Rattle.local.specs.Right.{Known};
ghost use Rattle.walk.specs.Sure.{Fronted, Walkable};
ghost use Rattle.walk.specs.Written.{PairSpace, PairGathers};
ghost use Rattle.model.specs.Refusals.{listed_in, looked_in};
ghost use Rattle.tabled.specs.Here.{Reads};
ghost use Rattle.near.specs.Crossed.{crossed};

pub use guard::KEYS;
use model::{Limits, ListRefusal, Refusal};
use tabled::Asked;
use walk::Query;
use within::Unsettled;

// The settings that a range asks for below page n, `up` levels above the leaves, behind the first `found` of a list; gives how many there
// are then. Its walk has been found right.
fn gather(
    s: &[u8],
    l: Limits,
    q: Query,
    n: usize,
    up: usize,
    at: u32,
    list: &mut [u32],
    found: usize,
) -> usize
    requires { Reads l s.now × (range_right l.least s.now q.version up q.high at n ≡ true)
        × PairSpace q.write list.old found (range_below up (decode l.least s.now).pages q.version q.low q.high at n) }
    ensures { PairGathers q.write list.old list.new found result
        (range_below up (decode l.least s.now).pages q.version q.low q.high at n) }
{
    let p = store::part(s, l, n);
    let h = page::head_of(p, l);
    let count = h.count;
    if up == 0 {
        return walk::settings(p, count, q, list, found);
    }
    let o = walk::own_router(p, count, q.version, at);
    let mut k = gather(s, l, q, o.page as usize, up - 1, at, list, found);
    let mut i = walk::next_place(p, count, q.version, 0, q.high, o.next);
    while i < count {
        let e = page::entry_at(p, i);
        k = gather(s, l, q, e.value as usize, up - 1, e.key, list, k);
        i = walk::next_place(p, count, q.version, 0, q.high, i + 1);
    }
    k
}

// What a range gives whose walk from page n has been found right, and what it leaves in the caller's list: the settings are counted
// before any is written, so that 14 leaves the list untouched.
fn fill(
    s: &[u8],
    l: Limits,
    n: usize,
    up: usize,
    low: u32,
    high: u32,
    v: u32,
    list: &mut [u32],
) -> Result<usize, ListRefusal>
    requires { Reads l s.now × (range_right l.least s.now v up high low n ≡ true) }
    ensures { listed_in result list.new
        ≡ listed list.old (ranged_by 0 (length list.old) (range_below up (decode l.least s.now).pages v low high low n)) }
{
    let counting = Query {
        low,
        high,
        version: v,
        write: false,
    };
    let found = gather(s, l, counting, n, up, low, list, 0);
    if list.len() < 2 * found {
        return Err(ListRefusal::TooShort(found));
    }
    let writing = Query {
        write: true,
        ..counting
    };
    gather(s, l, writing, n, up, low, list, 0);
    Ok(found)
}

// A range on a sound store, whose walk is right as it stands.
pub fn sound_range(
    s: &[u8],
    l: Limits,
    low: u32,
    high: u32,
    v: u32,
    list: &mut [u32],
) -> Result<usize, ListRefusal>
    requires { Walkable l s.now v × (low < key_limit) }
    ensures { listed_in result list.new
        ≡ listed list.old (ranged_by 0 (length list.old) (range_of (decode l.least s.now) low high v)) }
{
    let root = walk::root_at(s, l, v);
    let up = walk::height_of(s, l, root);
    fill(s, l, root, up, low, high, v, list)
}

// "lookup(s, key, version)" for any bytes: the value, that the key is absent, or a number.
pub fn lookup(s: &[u8], l: Limits, key: u32, v: u32) -> Result<Option<u32>, Refusal>
    ensures { looked_in result ≡ lookup_lent l.least s.now key v }
{
    guard::guard(s, l, KEYS <= key, v)?;
    let h = store::header(s, l);
    down::descend(s, l, h.last(), store::size(s, l), key, v)
}

// The walk of a range: all of it is judged before anything is counted or written. Where the judging has come to its end within as many
// visits as there are pages, counting and writing visit the same pages.
fn across(s: &[u8], l: Limits, q: Asked, list: &mut [u32]) -> Result<usize, ListRefusal>
    requires { Known l.least s.now q.size q.last × Fronted l.least s.now }
    ensures { listed_in result list.new
        ≡ crossed l.least s.now q.low q.high q.version list.old }
{
    let root = walk::root_among(s, l, q.version);
    let level = down::level_at(s, l, q.size, root);
    if level == 0 {
        return Err(ListRefusal::Refused(Refusal::NotSound));
    }
    let up = level as usize - 1;
    match within::range_right(s, l, q, root, level, q.low, q.size) {
        Ok(_) => fill(s, l, root, up, q.low, q.high, q.version, list),
        Err(Unsettled::Wrong) => Err(ListRefusal::Refused(Refusal::NotSound)),
        Err(Unsettled::Spent) => bounded::by_table(s, l, q, root, level, list),
    }
}

// The settings from low to high for any bytes: their number, and key, value, key, value in the caller's list.
pub fn range(
    s: &[u8],
    l: Limits,
    low: u32,
    high: u32,
    v: u32,
    list: &mut [u32],
) -> Result<usize, ListRefusal>
    ensures { listed_in result list.new ≡ range_lent l.least s.now low high v list.old }
{
    guard::guard(s, l, guard::bad_range(low, high), v)?;
    let h = store::header(s, l);
    let q = Asked {
        low,
        high,
        version: v,
        last: h.last(),
        size: store::size(s, l),
    };
    across(s, l, q, list)
}
