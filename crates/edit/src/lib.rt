// What a change, an end or an abandon does to one page, in place.
#![tactic(auto)]

use model::{Limits, Pair};
use page::Head;

pub mod enter;
pub mod sift;

ghost use Rattle.std.specs.Prelude.{◌≡◌, ◌&&◌, ◌||◌, ℕ, ◌+◌, ◌*◌, ◌^◌, ◌≤◌, ◌<◌, length, get_or, take, drop};
ghost use Rattle.model.specs.Page.{filled, gone, changed};
ghost use Rattle.model.specs.Calls.{back};
ghost use Rattle.model.specs.Layout.{encode_page, decode_page};
ghost use Rattle.page.specs.Exact.{Exact};
ghost use Rattle.edit.specs.Change.{change_of, first};
ghost use Rattle.edit.specs.Fill.{nil, Fitting};
ghost use Rattle.edit.specs.Sift.{freed_or_sifted};

// A change to a page: the keys that end, the first `drops` of two, and the pairs that come in, the first `takes` of two. There is no heap,
// and a change has two of each at the most.
#[derive(Clone, Copy)]
pub struct Change {
    pub drops: u32,
    pub drop1: u32,
    pub drop2: u32,
    pub takes: u32,
    pub take1: Pair,
    pub take2: Pair,
}

// An active page is freed, another put under the rule.
fn free_or_sift(page: &mut [u8], l: Limits, rule: sift::Rule, w: u32)
    requires { Exact l.least page.old × (w < 2 ^ 20) }
    ensures { page.new ≡ encode_page l.least (freed_or_sifted rule w (decode_page l.least page.old)) }
{
    let h = page::head_of(page, l);
    if h.start == w {
        page::clear(page);
    } else {
        sift::sift(page, l, rule, w);
    }
}

// A page that goes: an active one is freed, another killed.
pub fn go(page: &mut [u8], l: Limits, w: u32)
    requires { Exact l.least page.old × (w < 2 ^ 20) }
    ensures { page.new ≡ encode_page l.least (gone w (decode_page l.least page.old)) }
{
    free_or_sift(page, l, sift::Rule::Kill, w);
}

// What an abandon makes of a page.
pub fn undo(page: &mut [u8], l: Limits, w: u32)
    requires { Exact l.least page.old × (w < 2 ^ 20) }
    ensures { page.new ≡ encode_page l.least (back w (decode_page l.least page.old)) }
{
    free_or_sift(page, l, sift::Rule::Back, w);
}

// The keys that a change drops end. Where it drops none the page stays as it is, and nothing is written.
fn end_dropped(page: &mut [u8], l: Limits, w: u32, c: Change)
    requires { Exact l.least page.old × (w < 2 ^ 20) }
    ensures { page.new ≡ encode_page l.least (first w c (decode_page l.least page.old)) }
{
    if c.drops != 0 {
        let rule = sift::Rule::End {
            n: c.drops,
            a: c.drop1,
            b: c.drop2,
        };
        sift::sift(page, l, rule, w);
    }
}

// A page takes a change in place.
pub fn take_change(page: &mut [u8], l: Limits, w: u32, c: Change)
    requires { Exact l.least page.old × (w < 2 ^ 20) × (c.take1.key < 2 ^ 24) × (c.take2.key < 2 ^ 24)
        × (length (changed w (change_of c) (decode_page l.least page.old)).entries ≤ 5 * l.least) }
    ensures { page.new ≡ encode_page l.least (changed w (change_of c) (decode_page l.least page.old)) }
{
    end_dropped(page, l, w, c);
    enter::enter_if(page, l, 1 <= c.takes, w, c.take1);
    enter::enter_if(page, l, 2 <= c.takes, w, c.take2);
}

// A page of version w that holds n pairs of a list, from place `from` on.
pub fn fill(page: &mut [u8], l: Limits, level: u32, w: u32, list: [Pair; 56], from: usize, n: usize)
    requires { (length page.old ≡ 64 * l.least) × (level < 2 ^ 4) × (w < 2 ^ 20) × (n ≤ 5 * l.least) × (from + n ≤ 56)
        × ((k : ℕ) → Fitting (get_or list k nil)) }
    ensures { page.new ≡ encode_page l.least (filled w level (take n (drop from list))) }
{
    page::clear(page);
    for k in 0..n {
        page::put_entry(page, k, enter::born(w, list[from + k]));
    }
    page::put_head(
        page,
        l,
        Head {
            level,
            count: n,
            start: w,
            end: page::ALIVE,
        },
    );
    page::put_live(page, l, n);
}
