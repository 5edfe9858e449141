// A store in its bytes: the header, the root directory, each page's part, and making a fresh one.
#![tactic(auto)]

use model::{Header, Limits, Refusal, Slot};

mod editions;
mod make;

ghost use Rattle.std.specs.Prelude.{◌≡◌, ◌+◌, ◌*◌, ◌^◌, ◌≤◌, ◌<◌, length};
ghost use Rattle.model.specs.Limits.{edition_of};
ghost use Rattle.model.specs.Field.{lay};
ghost use Rattle.model.specs.Store.{fresh};
ghost use Rattle.model.specs.Layout.{read_header, read_slot, page_of, size_of, bit};
ghost use Rattle.model.specs.Judged.{length_ok, magic_ok, edition_ok};
ghost use Rattle.model.specs.Lent.{fresh_lent};
ghost use Rattle.model.specs.Refusals.{number_in};
ghost use Rattle.store.specs.Slots.{SlotFits, slot_parts};
ghost use Rattle.store.specs.Header.{HeaderFits, put_header, header_by};

pub use editions::edition_lent;

// The number of pages that the length makes.
pub fn size(s: &[u8], l: Limits) -> usize
    ensures { result ≡ size_of l.least s.now }
{
    s.len() / l.bytes
}

// Whether the length is 6 to 4,096 whole pages.
pub fn whole(s: &[u8], l: Limits) -> bool
    ensures { result ≡ length_ok l.least s.now }
{
    s.len() % l.bytes == 0 && (6..=4096).contains(&size(s, l))
}

// Whether the first four bytes are those of a store.
pub fn named(s: &[u8]) -> bool
    requires { 4 ≤ length s.now }
    ensures { result ≡ magic_ok s.now }
{
    s.starts_with(b"RCST")
}

// Whether the edition is that of the limits.
pub fn of_edition(s: &[u8], l: Limits) -> bool
    requires { (5 ≤ length s.now) × (length s.now ≤ 2 ^ 40) }
    ensures { result ≡ edition_ok l.least s.now }
{
    bits::field(s, 32, 8) == model::edition_of(l.least)
}

// The header, whose number of roots has `rooter` bits and whose oldest version has `aged`.
fn header_by(s: &[u8], rooter: usize, aged: usize) -> Header
    requires { (rooter ≤ 10) × (aged ≤ 20) × (13 ≤ length s.now) × (length s.now ≤ 2 ^ 40) }
    ensures { result ≡ header_by rooter aged s.now }
{
    let flag = bits::field(s, 73, 1);
    Header {
        pages: bits::field(s, 40, 13),
        current: bits::field(s, 53, 20),
        opened: flag == 1,
        roots: bits::field(s, 74, rooter),
        oldest: bits::field(s, 74 + rooter, aged),
    }
}

// The header. The widths are said as numbers, as a page's front has them.
pub fn header(s: &[u8], l: Limits) -> Header
    requires { (64 * l.least ≤ length s.now) × (length s.now ≤ 2 ^ 40) }
    ensures { result ≡ read_header l.least s.now }
{
    if l.least <= 4 {
        header_by(s, 9, 0)
    } else {
        header_by(s, 10, 20)
    }
}

// Slot i of the root directory, which begins behind the header's page.
pub fn slot(s: &[u8], l: Limits, i: usize) -> Slot
    requires { (5 * (64 * l.least) ≤ length s.now) × (i < 64 * l.least) × (length s.now ≤ 2 ^ 40) }
    ensures { result ≡ read_slot s.now (512 * l.least + 32 * i) }
{
    let o = 8 * l.bytes + 32 * i;
    Slot {
        version: bits::field(s, o, 20),
        root: bits::field(s, o + 20, 12),
    }
}

// Where page n begins: no other function multiplies a page number by the page bytes.
pub fn offset(l: Limits, n: usize) -> usize
    requires { n * (64 * l.least) ≤ 2 ^ 40 }
    ensures { result ≡ n * (64 * l.least) }
{
    n * l.bytes
}

// Page n of a store, handed on as a part. To write in it, a caller lends `&mut s[a..a + l.bytes]` with `a` the page's offset: what
// then stands in the whole is `with_page` (specs/Parts).
pub fn part(s: &[u8], l: Limits, n: usize) -> &[u8]
    requires { (n * (64 * l.least) + 64 * l.least ≤ length s.now) × (length s.now ≤ 2 ^ 40) }
    ensures { (result.now ≡ page_of l.least s.now n) × (length result.now ≡ 64 * l.least) }
{
    let a = offset(l, n);
    &s[a..a + l.bytes]
}

// Writes the header, all but the name and the edition.
pub fn put_header(s: &mut [u8], l: Limits, h: Header)
    requires { HeaderFits l.least h × (64 * l.least ≤ length s.old) × (length s.old ≤ 2 ^ 40) }
    ensures { s.new ≡ put_header l.least s.old h }
{
    bits::put_field(s, 40, 13, h.pages as u64);
    bits::put_field(s, 53, 20, h.current as u64);
    bits::put_field(s, 73, 1, h.opened as u64);
    bits::put_field(s, 74, l.rooter, h.roots as u64);
    bits::put_field(s, 74 + l.rooter, l.aged, h.oldest as u64);
}

// Writes slot i of the root directory.
pub fn put_slot(s: &mut [u8], l: Limits, i: usize, x: Slot)
    requires { SlotFits x × (5 * (64 * l.least) ≤ length s.old) × (i < 64 * l.least) × (length s.old ≤ 2 ^ 40) }
    ensures { s.new ≡ lay s.old (512 * l.least + 32 * i) (slot_parts x) }
{
    let o = 8 * l.bytes + 32 * i;
    bits::put_field(s, o, 20, x.version as u64);
    bits::put_field(s, o + 20, 12, x.root as u64);
}

// Making fresh, of an edition: 1 for a length that is not 6 to 4,096 whole pages, and then not a byte changes.
fn fresh_in(s: &mut [u8], l: Limits) -> Result<(), Refusal>
    ensures { (number_in result ≡ (fresh_lent l.least s.old).number)
        × (s.new ≡ (fresh_lent l.least s.old).store) }
{
    if !whole(s, l) {
        return Err(Refusal::WrongLength);
    }
    make::make(s, l);
    Ok(())
}

// Making a fresh store of edition 1.
pub fn fresh(s: &mut [u8]) -> Result<(), Refusal>
    ensures { (number_in result ≡ (fresh_lent 4 s.old).number) × (s.new ≡ (fresh_lent 4 s.old).store) }
{
    fresh_in(s, model::edition_one())
}

// Making a fresh store of edition 2.
pub fn fresh_second(s: &mut [u8]) -> Result<(), Refusal>
    ensures { (number_in result ≡ (fresh_lent 8 s.old).number) × (s.new ≡ (fresh_lent 8 s.old).store) }
{
    fresh_in(s, model::edition_two())
}
