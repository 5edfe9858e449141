// Making a fresh store: each write takes the bytes one stage further (specs/Fresh).
ghost use Rattle.std.specs.Prelude.{◌≡◌, ◌*◌, ◌^◌, ◌≤◌, length};
ghost use Rattle.model.specs.Limits.{edition_of};
ghost use Rattle.model.specs.Field.{lay, Bytes};
ghost use Rattle.model.specs.Store.{fresh};
ghost use Rattle.model.specs.Layout.{page_of, with_page, size_of, encode};
ghost use Rattle.page.specs.Head.{put_head};
ghost use Rattle.store.specs.Header.{named_by};
ghost use Rattle.store.specs.Tested.{Whole};
ghost use Rattle.store.specs.Fresh.{root_head};

use model::{Header, Limits, Slot};
use page::Head;

// Writes the four bytes of a store, and its edition.
fn put_name(s: &mut [u8], edition: u8)
    requires { (5 ≤ length s.old) × Bytes s.old }
    ensures { s.new ≡ lay s.old 0 (named_by edition) }
{
    s[..4].copy_from_slice(b"RCST");
    s[4] = edition;
}

// Page 5 of a fresh store: a leaf of version 0 with no entry.
fn put_root(s: &mut [u8], l: Limits)
    requires { (6 * (64 * l.least) ≤ length s.old) × (length s.old ≤ 2 ^ 40) }
    ensures { s.new ≡ with_page l.least s.old 5
        (put_head l.least (page_of l.least s.old 5) root_head) }
{
    let a = crate::offset(l, 5);
    page::put_head(
        &mut s[a..a + l.bytes],
        l,
        Head {
            level: 1,
            count: 0,
            start: 0,
            end: page::ALIVE,
        },
    );
}

// Makes the fresh store of an edition, from any bytes.
pub fn make(s: &mut [u8], l: Limits)
    requires { Whole l.least s.old }
    ensures { s.new ≡ encode l.least (fresh (size_of l.least s.old)) }
{
    let n = crate::size(s, l);
    page::clear(s);
    put_name(s, model::edition_of(l.least) as u8);
    crate::put_header(
        s,
        l,
        Header {
            pages: n as u32,
            current: 0,
            opened: false,
            roots: 1,
            oldest: 0,
        },
    );
    crate::put_slot(
        s,
        l,
        0,
        Slot {
            version: 0,
            root: 5,
        },
    );
    put_root(s, l);
}
