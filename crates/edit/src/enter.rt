// A pair that enters a page, at its place.
ghost use Rattle.std.specs.Prelude.{◌≡◌, ◌+◌, ◌*◌, ◌^◌, ◌≤◌, ◌<◌, length};
ghost use Rattle.model.specs.Entry.{born};
ghost use Rattle.model.specs.Layout.{count_of, encode_page, decode_page, read_entry, read_entries};
ghost use Rattle.page.specs.Exact.{Exact};
ghost use Rattle.edit.specs.Place.{before_of, place_of, entered};
ghost use Rattle.edit.specs.Change.{one, entered_if};

use model::{Entry, Limits, Pair};
use page::words;

// Whether an entry of that key and start stands before entry i of a page: by key, then start.
fn before_at(page: &[u8], i: usize, key: u32, start: u32) -> bool
    requires { (16 + 12 * i + 12 ≤ length page.now) × (length page.now ≤ 2 ^ 40) }
    ensures { result ≡ before_of key start (read_entry page.now (128 + 96 * i)) }
{
    let a = words::first_word(page, i);
    let k = key as usize * 256;
    if a < k {
        false
    } else if k + 256 <= a {
        true
    } else {
        (start as usize + 1) * 1048576 <= (a - k) * 4294967296 + words::second_word(page, i)
    }
}

// The place of an entry of that key and start among the first `count` of a page.
fn place(page: &[u8], count: usize, key: u32, start: u32) -> usize
    requires { (16 + 12 * count ≤ length page.now) × (length page.now ≤ 2 ^ 40) }
    ensures { result ≡ place_of key start (read_entries page.now 128 count) }
{
    for i in 0..count {
        if before_at(page, i, key, start) {
            return i;
        }
    }
    count
}

// An entry for a pair that starts at version w and is alive.
pub(crate) fn born(w: u32, x: Pair) -> Entry
    ensures { result ≡ born w x }
{
    Entry {
        key: x.key,
        start: w,
        end: page::ALIVE,
        value: x.value,
    }
}

// A pair enters a page at version w.
pub fn enter(page: &mut [u8], l: Limits, w: u32, x: Pair)
    requires { Exact l.least page.old × (count_of l.least page.old < 5 * l.least) × (w < 2 ^ 20) × (x.key < 2 ^ 24) }
    ensures { page.new ≡ encode_page l.least (entered w x (decode_page l.least page.old)) }
{
    let h = page::head_of(page, l);
    let i = place(page, h.count, x.key, w);
    page::insert_entry(page, l, i, born(w, x));
}

// The same if `yes`: one equation for a change that enters none, one or two pairs.
pub fn enter_if(page: &mut [u8], l: Limits, yes: bool, w: u32, x: Pair)
    requires { Exact l.least page.old × (count_of l.least page.old + one yes ≤ 5 * l.least) × (w < 2 ^ 20) × (x.key < 2 ^ 24) }
    ensures { page.new ≡ encode_page l.least (entered_if yes w x (decode_page l.least page.old)) }
{
    if yes {
        enter(page, l, w, x);
    }
}
