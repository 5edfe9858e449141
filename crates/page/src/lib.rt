// A page in its part of the store: its front, and its entries.
#![tactic(auto)]

use model::{Entry, Limits};

pub mod words;

ghost use Rattle.std.specs.Prelude.{◌≡◌, ◌+◌, ◌*◌, ◌-◌, ◌/◌, ◌%◌, ◌^◌, ◌≤◌, ◌<◌, length};
ghost use Rattle.model.specs.Limits.{live_shown};
ghost use Rattle.model.specs.Basic.{those};
ghost use Rattle.model.specs.Field.{lay, zeros};
ghost use Rattle.model.specs.Entry.{live_at};
ghost use Rattle.model.specs.Layout.{entry_parts, read_entry, read_entries, lives, count_of, live_of, encode_page, decode_page};
ghost use Rattle.page.specs.Head.{read_head, put_head, put_live, HeadFits, front_by, put_front, FrontFits};
ghost use Rattle.page.specs.Read.{FieldsFit};
ghost use Rattle.page.specs.Exact.{Exact, encode_with};
ghost use Rattle.page.specs.Stage.{blanked};
ghost use Rattle.page.specs.Insert.{with_entry, live_one};

// "End 1,048,575 means alive."
pub const ALIVE: u32 = 1048575;

// The front of a page: "level 4 bits, entry count 5, start 20, end 20".
#[derive(Clone, Copy)]
pub struct Head {
    pub level: u32,
    pub count: usize,
    pub start: u32,
    pub end: u32,
}

// The front of a page whose entry count has w bits.
fn front(page: &[u8], w: usize) -> Head
    requires { (w ≤ 6) × (16 ≤ length page.now) × (length page.now ≤ 2 ^ 40) }
    ensures { result ≡ front_by w page.now }
{
    Head {
        level: bits::field(page, 0, 4),
        count: bits::field(page, 4, w) as usize,
        start: bits::field(page, 4 + w, 20),
        end: bits::field(page, 24 + w, 20),
    }
}

// The front of a page. The widths are said as numbers, so that a field is one load whatever limits come in.
pub fn head_of(page: &[u8], l: Limits) -> Head
    requires { (16 ≤ length page.now) × (length page.now ≤ 2 ^ 40) }
    ensures { result ≡ read_head l.least page.now }
{
    if l.least <= 4 {
        front(page, 5)
    } else {
        front(page, 6)
    }
}

// The live count of a page: where the edition has no bits for it, 0.
pub fn live_of(page: &[u8], l: Limits) -> usize
    requires { (16 ≤ length page.now) × (length page.now ≤ 2 ^ 40) }
    ensures { result ≡ live_of l.least page.now }
{
    if l.least <= 4 {
        0
    } else {
        bits::field(page, 44 + l.counter, 6) as usize
    }
}

// What an entry adds to its page's live count.
pub fn live_one(e: Entry) -> usize
    ensures { result ≡ live_one e }
{
    usize::from(e.end == ALIVE)
}

// What entry i of a page adds to its live count.
fn live_at(page: &[u8], i: usize) -> usize
    requires { (16 + 12 * i + 12 ≤ length page.now) × (length page.now ≤ 2 ^ 40) }
    ensures { result ≡ live_one (read_entry page.now (128 + 96 * i)) }
{
    usize::from(bits::field(page, 128 + 96 * i + 44, 20) == ALIVE)
}

// How many of the first n entries of a page live.
pub fn live_among(page: &[u8], n: usize) -> usize
    requires { (16 + 12 * n ≤ length page.now) × (length page.now ≤ 2 ^ 40) }
    ensures { result ≡ length (those lives (read_entries page.now 128 n)) }
{
    let mut live = 0;
    for i in 0..n {
        live += live_at(page, i);
    }
    live
}

// Entry i of a page, by three words: its key, start and end are two of them.
pub fn entry_at(page: &[u8], i: usize) -> Entry
    requires { (16 + 12 * i + 12 ≤ length page.now) × (length page.now ≤ 2 ^ 40) }
    ensures { result ≡ read_entry page.now (128 + 96 * i) }
{
    let o = 16 + 12 * i;
    let a = bits::four(page, o);
    let b = bits::four(page, o + 4);
    Entry {
        key: a / 256,
        start: a % 256 * 4096 + b / 1048576,
        end: b % 1048576,
        value: bits::four(page, o + 8),
    }
}

// "A span runs from start up to but not including end": whether an entry is alive at v.
pub fn alive_at(e: Entry, v: u32) -> bool
    ensures { result ≡ live_at v e }
{
    e.start <= v && v < e.end
}

// Makes every byte zero.
pub fn clear(page: &mut [u8])
    ensures { page.new ≡ zeros (length page.old) }
{
    page.fill(0);
}

// Writes the front of a page whose entry count has w bits.
fn put_front(page: &mut [u8], w: usize, h: Head)
    requires { (w ≤ 6) × FrontFits w h × (16 ≤ length page.old) × (length page.old ≤ 2 ^ 40) }
    ensures { page.new ≡ put_front w page.old h }
{
    bits::put_field(page, 0, 4, h.level as u64);
    bits::put_field(page, 4, w, h.count as u64);
    bits::put_field(page, 4 + w, 20, h.start as u64);
    bits::put_field(page, 24 + w, 20, h.end as u64);
}

// Writes the front of a page: its live count is for `put_live`.
pub fn put_head(page: &mut [u8], l: Limits, h: Head)
    requires { HeadFits l.least h × (16 ≤ length page.old) × (length page.old ≤ 2 ^ 40) }
    ensures { page.new ≡ put_head l.least page.old h }
{
    if l.least <= 4 {
        put_front(page, 5, h);
    } else {
        put_front(page, 6, h);
    }
}

// Writes the live count of a page, where the edition has bits for it.
pub fn put_live(page: &mut [u8], l: Limits, n: usize)
    requires { (n < 64) × (16 ≤ length page.old) × (length page.old ≤ 2 ^ 40) }
    ensures { page.new ≡ put_live l.least page.old (live_shown l.least n) }
{
    if l.least > 4 {
        bits::put_field(page, 44 + l.counter, 6, n as u64);
    }
}

// Writes entry i of a page, by the same words.
pub fn put_entry(page: &mut [u8], i: usize, e: Entry)
    requires { (16 + 12 * i + 12 ≤ length page.old) × (length page.old ≤ 2 ^ 40) × FieldsFit e }
    ensures { page.new ≡ lay page.old (128 + 96 * i) (entry_parts e) }
{
    let o = 128 + 96 * i;
    let start = e.start as u64;
    bits::put_field(page, o, 32, e.key as u64 * 256 + start / 4096);
    bits::put_field(page, o + 32, 32, start % 4096 * 1048576 + e.end as u64);
    bits::put_field(page, o + 64, 32, e.value as u64);
}

// Entries from j up to, not including, n become unused.
pub fn blank(page: &mut [u8], j: usize, n: usize)
    requires { (16 + 12 * n ≤ length page.old) × (length page.old ≤ 2 ^ 40) × (j ≤ n) }
    ensures { page.new ≡ blanked page.old j (n - j) }
{
    for k in j..n {
        put_entry(
            page,
            k,
            Entry {
                key: 0,
                start: 0,
                end: 0,
                value: 0,
            },
        );
    }
}

// Puts e at place i of a page with room: those from i on move up by one, the last of them first. The live count is left as it was.
fn slip_in(page: &mut [u8], l: Limits, i: usize, e: Entry)
    requires { Exact l.least page.old × (count_of l.least page.old < 5 * l.least) × (i ≤ count_of l.least page.old)
        × FieldsFit e }
    ensures { page.new ≡ encode_with l.least (with_entry i e (decode_page l.least page.old))
        (live_of l.least page.old) }
{
    let h = head_of(page, l);
    for k in (i..h.count).rev() {
        words::copy_entry(page, k, k + 1);
    }
    put_entry(page, i, e);
    put_head(
        page,
        l,
        Head {
            count: h.count + 1,
            ..h
        },
    );
}

// Inserts e at place i of a page with room, in place.
pub fn insert_entry(page: &mut [u8], l: Limits, i: usize, e: Entry)
    requires { Exact l.least page.old × (count_of l.least page.old < 5 * l.least) × (i ≤ count_of l.least page.old)
        × FieldsFit e }
    ensures { page.new ≡ encode_page l.least (with_entry i e (decode_page l.least page.old)) }
{
    let live = live_of(page, l);
    slip_in(page, l, i, e);
    put_live(page, l, live + live_one(e));
}
