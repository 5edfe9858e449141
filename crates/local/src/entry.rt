// Rule 1 of one entry: its span, and what it leads to.
ghost use Rattle.std.specs.Prelude.{◌≡◌};
ghost use Rattle.model.specs.Entry.{before};
ghost use Rattle.model.specs.Sound.{span_ok, is_page, entry_ok};
ghost use Rattle.page.specs.Read.{FieldsFit as SizedEntry};

use model::Entry;

// "starts are at most last; each end is at most last, or alive; every span is non-empty"
pub(crate) fn span_ok(last: u32, a: u32, b: u32) -> bool
    ensures { result ≡ span_ok last a b }
{
    a <= last && (b <= last || b == page::ALIVE) && a < b
}

// "root and router page numbers run from 5 to below the page count"
pub(crate) fn is_page(size: usize, n: u32) -> bool
    ensures { result ≡ is_page size n }
{
    5 <= n && (n as usize) < size
}

// An entry of a page of this level. Its key and its value, as they are read, fit their bits.
pub(crate) fn entry_ok(last: u32, size: usize, level: u32, e: Entry) -> bool
    requires { SizedEntry e }
    ensures { result ≡ entry_ok last size level e }
{
    span_ok(last, e.start, e.end)
        && if level == 1 {
            1 <= e.start
        } else {
            is_page(size, e.value)
        }
}

// "Entries stand by key, then start, no two alike in both"
pub(crate) fn stands_before(d: Entry, e: Entry) -> bool
    ensures { result ≡ before d e }
{
    d.key < e.key || d.key == e.key && d.start < e.start
}
