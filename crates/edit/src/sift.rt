// Entries of a page that meet their fates under a rule, and are closed up.
ghost use Rattle.std.specs.Prelude.{◌≡◌, true, ◌+◌, ◌*◌, ◌^◌, ◌≤◌, ◌<◌, length, eqb};
ghost use Rattle.model.specs.Limits.{live_shown};
ghost use Rattle.model.specs.Basic.{those};
ghost use Rattle.model.specs.Calls.{revived_end};
ghost use Rattle.model.specs.Layout.{lives, read_entry, read_entries, count_of, encode_page, decode_page};
ghost use Rattle.page.specs.Head.{put_live};
ghost use Rattle.page.specs.Exact.{Exact};
ghost use Rattle.page.specs.Stage.{staged, entries_in};
ghost use Rattle.edit.specs.Fate.{fate_of, fate_at, end_if, among_of, end_of, left, laid, stay};
ghost use Rattle.edit.specs.Sift.{sifted, sifted_page};

use model::{Entry, Limits};
use page::{Head, words};

// Which entries of a page end, or come back, at a version.
#[derive(Clone, Copy)]
pub enum Rule {
    // every live entry ends
    Kill,
    // the live entries of these keys end: the first n of two
    End { n: u32, a: u32, b: u32 },
    // entries that start at the version go, those that it ended live again
    Back,
}

// Whether k is among the first n of a and b.
pub fn among(k: u32, n: u32, a: u32, b: u32) -> bool
    ensures { result ≡ among_of k n a b }
{
    1 <= n && k == a || 2 <= n && k == b
}

// An entry that ends at w if `yes`. One made at w goes: its span would be empty.
fn end_if(yes: bool, w: u32, e: Entry) -> Option<Entry>
    ensures { result ≡ end_if yes w e }
{
    if !yes {
        Some(e)
    } else if e.start == w {
        None
    } else {
        Some(Entry { end: w, ..e })
    }
}

// "Ends equal to it become alive again."
fn revived_end(w: u32, end: u32) -> u32
    ensures { result ≡ revived_end w end }
{
    if end == w { page::ALIVE } else { end }
}

// What is left of an entry under a rule.
fn meet(rule: Rule, w: u32, e: Entry) -> Option<Entry>
    ensures { result ≡ fate_of rule w e }
{
    match rule {
        Rule::Kill => end_if(page::alive_at(e, w), w, e),
        Rule::End { n, a, b } => end_if(page::alive_at(e, w) && among(e.key, n, a, b), w, e),
        Rule::Back => if e.start == w {
            None
        } else {
            Some(Entry {
                end: revived_end(w, e.end),
                ..e
            })
        },
    }
}

// The end of a page under a rule.
fn end_of(rule: Rule, w: u32, end: u32) -> u32
    ensures { result ≡ end_of rule w end }
{
    match rule {
        Rule::Kill => w,
        Rule::End { .. } => end,
        Rule::Back => revived_end(w, end),
    }
}

// Whether entry i of a page has this key.
fn has_key(page: &[u8], i: usize, key: u32) -> bool
    requires { (16 + 12 * i + 12 ≤ length page.now) × (length page.now ≤ 2 ^ 40) }
    ensures { result ≡ eqb (read_entry page.now (128 + 96 * i)).key key }
{
    let a = words::first_word(page, i);
    let k = key as usize * 256;
    k <= a && a < k + 256
}

// Whether entry i of a page has a key among the first n of a and b.
fn named(page: &[u8], i: usize, n: u32, a: u32, b: u32) -> bool
    requires { (16 + 12 * i + 12 ≤ length page.now) × (length page.now ≤ 2 ^ 40) }
    ensures { result ≡ among_of (read_entry page.now (128 + 96 * i)).key n a b }
{
    1 <= n && has_key(page, i, a) || 2 <= n && has_key(page, i, b)
}

// Whether entry i of a page surely stays as it is: one word tells it of most.
fn stays(page: &[u8], i: usize, rule: Rule, w: u32) -> bool
    requires { (16 + 12 * i + 12 ≤ length page.now) × (length page.now ≤ 2 ^ 40) × (w < 2 ^ 20) }
    ensures { result ≡ true → fate_at rule w page.now i ≡ stay (read_entry page.now (128 + 96 * i)) }
{
    match rule {
        Rule::Kill => false,
        Rule::End { n, a, b } => !named(page, i, n, a, b),
        Rule::Back => !words::may_turn(page, i, w),
    }
}

// Entry i of a page meets its fate, and what is left of it is put at place j; gives the place behind it. One that stays as it is moves
// by whole words.
fn step(page: &mut [u8], rule: Rule, w: u32, i: usize, j: usize) -> usize
    requires { (j ≤ i) × (16 + 12 * i + 12 ≤ length page.old) × (length page.old ≤ 2 ^ 40) × (w < 2 ^ 20) }
    ensures { (page.new ≡ laid page.old j (fate_at rule w page.old i))
        × (result ≡ j + length (left (fate_at rule w page.old i))) }
{
    if stays(page, i, rule, w) {
        words::move_entry(page, i, j);
        return j + 1;
    }
    match meet(rule, w, page::entry_at(page, i)) {
        Some(e) => {
            page::put_entry(page, j, e);
            j + 1
        }
        None => j,
    }
}

// The entries of a page under a rule, closed up; gives how many are left.
fn squeeze(page: &mut [u8], l: Limits, count: usize, rule: Rule, w: u32) -> usize
    requires { Exact l.least page.old × (count ≡ count_of l.least page.old) × (w < 2 ^ 20) }
    ensures { (page.new ≡ staged l.least page.old (sifted rule w (entries_in l.least page.old)))
        × (result ≡ length (sifted rule w (entries_in l.least page.old))) }
{
    let mut j = 0;
    for i in 0..count {
        j = step(page, rule, w, i, j);
    }
    j
}

// Writes the live count of a page that has `count` entries. They are counted only where the edition has bits for it.
fn show_live(page: &mut [u8], l: Limits, count: usize)
    requires { (count < 64) × (16 + 12 * count ≤ length page.old) × (length page.old ≤ 2 ^ 40) }
    ensures { page.new ≡ put_live l.least page.old
        (live_shown l.least (length (those lives (read_entries page.old 128 count)))) }
{
    if l.least > 4 {
        let live = page::live_among(page, count);
        page::put_live(page, l, live);
    }
}

// A page under a rule.
pub fn sift(page: &mut [u8], l: Limits, rule: Rule, w: u32)
    requires { Exact l.least page.old × (w < 2 ^ 20) }
    ensures { page.new ≡ encode_page l.least (sifted_page rule w (decode_page l.least page.old)) }
{
    let h = page::head_of(page, l);
    let n = squeeze(page, l, h.count, rule, w);
    page::blank(page, n, h.count);
    page::put_head(
        page,
        l,
        Head {
            count: n,
            end: end_of(rule, w, h.end),
            ..h
        },
    );
    show_live(page, l, n);
}
