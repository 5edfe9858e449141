// What is found in one page. Its entries stand by key, so a search ends at the first key above.
ghost use Rattle.std.specs.Prelude.{◌≡◌, true, ◌&&◌, ◌+◌, ◌*◌, ◌^◌, ◌≤◌, length, leb, ltb, [], ◌∷◌};
ghost use Rattle.model.specs.Basic.{pick};
ghost use Rattle.model.specs.Entry.{pair_of, live_at};
ghost use Rattle.model.specs.Walk.{find, between};
ghost use Rattle.model.specs.Refusals.{found_in};
ghost use Rattle.model.specs.Near.{starts_by};
ghost use Rattle.walk.specs.Written.{written, PairSpace, PairGathers};
ghost use Rattle.walk.specs.Live.{live};
ghost use Rattle.walk.specs.Scan.{Stands, entry, from, Next, answer_at, Owns};
ghost use Rattle.walk.specs.Places.{Place, Fives};

use model::Entry;

// The last router alive at or below a key: the page that it leads to, and the place at which the search for it ended.
#[derive(Clone, Copy)]
pub struct Own {
    pub page: u32,
    pub next: usize,
}

// What a range asks: its low and high keys, its version, and whether the settings found are to be written or only counted. That is a flag
// and no closure, since one contract says of both passes what is `written` (specs/Written).
#[derive(Clone, Copy)]
pub struct Query {
    pub low: u32,
    pub high: u32,
    pub version: u32,
    pub write: bool,
}

// Whether entry i is alive at v, and has its key from `low` on.
fn alive_from(page: &[u8], i: usize, v: u32, low: u32) -> bool
    requires { (16 + 12 * i + 12 ≤ length page.now) × (length page.now ≤ 2 ^ 40) }
    ensures { result ≡ (leb low (entry page.now i).key && live_at v (entry page.now i)) }
{
    low as usize * 256 <= page::words::first_word(page, i) && page::words::alive_in(page, i, v)
}

// The place of the next entry, from i on, that is alive at v and has its key from low to high; n if there is none.
pub fn next_place(page: &[u8], n: usize, v: u32, low: u32, high: u32, i: usize) -> usize
    requires { Stands page.now n × (i ≤ n) }
    ensures { Next page.now v low high i n result }
{
    let above = high as usize * 256 + 256;
    for k in i..n {
        if above <= page::words::first_word(page, k) {
            return n;
        }
        if alive_from(page, k, v, low) {
            return k;
        }
    }
    n
}

// One, if entry i has its key under k. The key and the eight bits behind it make one word, so that one load tells it.
fn under(page: &[u8], i: usize, k: u64) -> usize
    requires { (16 + 12 * i + 12 ≤ length page.now) × (length page.now ≤ 2 ^ 40) × (k ≤ 2 ^ 32) }
    ensures { result ≡ pick (ltb (entry page.now i).key k) 1 0 }
{
    usize::from((bits::four(page, 16 + 12 * i) as u64) < k * 256)
}

// By fives, so no `for`: up to place r all keys are under k, and four places on, if there is an entry, they are not.
fn fives(page: &[u8], n: usize, k: u64) -> usize
    requires { Stands page.now n × (k ≤ 2 ^ 32) }
    ensures { Fives page.now k n result }
{
    let mut i = 0;
    while i + 4 < n {
        if under(page, i + 4, k) == 0 {
            return i;
        }
        i += 5;
    }
    i
}

// How many of the first n entries have their key under k: those stand first. Of the last four none is a branch.
fn place(page: &[u8], n: usize, k: u64) -> usize
    requires { Stands page.now n × (k ≤ 2 ^ 32) }
    ensures { Place page.now k n result }
{
    let begin = fives(page, n, k);
    let end = n.min(begin + 4);
    let mut r = begin;
    for i in begin..end {
        r += under(page, i, k);
    }
    r
}

// The place of the entry of a key that is alive at v; n if there is none.
pub(crate) fn place_of(page: &[u8], n: usize, v: u32, key: u32) -> usize
    requires { Stands page.now n }
    ensures { Next page.now v key key 0 n result }
{
    next_place(page, n, v, key, key, place(page, n, key as u64))
}

// The answer of a lookup whose search ended at place i. An enum that a function gives back goes through memory: this one is short enough
// to become part of its caller, where a search is not.
pub(crate) fn answer_at(page: &[u8], n: usize, i: usize) -> Option<u32>
    requires { Stands page.now n }
    ensures { found_in result ≡ answer_at page.now n i }
{
    if i < n {
        Some(page::words::value_in(page, i))
    } else {
        None
    }
}

// The value of a key at v.
pub fn find(page: &[u8], n: usize, v: u32, key: u32) -> Option<u32>
    requires { Stands page.now n }
    ensures { found_in result ≡ find key (live v (from page.now 0 n)) }
{
    answer_at(page, n, place_of(page, n, v, key))
}

// The last router alive at v at or below a key. There is one: the first router of a page has its low key.
pub fn own_router(page: &[u8], n: usize, v: u32, key: u32) -> Own
    requires { Stands page.now n × (starts_by key (live v (from page.now 0 n)) ≡ true) }
    ensures { Owns page.now v key n result }
{
    let next = place(page, n, key as u64 + 1);
    for i in (0..next).rev() {
        if page::words::alive_in(page, i, v) {
            return Own {
                page: page::words::value_in(page, i),
                next,
            };
        }
    }
    unreachable!()
}

// A setting behind the first k of a list.
fn put(list: &mut [u32], k: usize, e: Entry, write: bool)
    requires { PairSpace write list.old k (pair_of e ∷ []) }
    ensures { list.new ≡ written write list.old k (pair_of e ∷ []) }
{
    if write {
        list[2 * k] = e.key;
        list[2 * k + 1] = e.value;
    }
}

// The settings of a leaf that a range asks for, behind the first `found` of a list; gives how many there are then.
pub fn settings(page: &[u8], n: usize, q: Query, list: &mut [u32], found: usize) -> usize
    requires { Stands page.now n × PairSpace q.write list.old found
        (between q.low q.high (live q.version (from page.now 0 n))) }
    ensures { PairGathers q.write list.old list.new found result
        (between q.low q.high (live q.version (from page.now 0 n))) }
{
    let mut sum = found;
    let mut i = next_place(page, n, q.version, q.low, q.high, 0);
    while i < n {
        let e = page::entry_at(page, i);
        put(list, sum, e, q.write);
        sum += 1;
        i = next_place(page, n, q.version, q.low, q.high, i + 1);
    }
    sum
}
