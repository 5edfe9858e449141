// "A used page is reached at every version of its span": the spans of what leads to each page add up to its own, from the oldest version
// on.
ghost use Rattle.std.specs.Prelude.{◌≡◌, ℕ, ◌+◌, ◌*◌, ◌^◌, ◌≤◌, ◌<◌, length, get_or, drop};
ghost use Rattle.model.specs.Layout.{page_of, decode, decode_page, read_entry, read_entries};
ghost use Rattle.spans.specs.Quick.{spans_met};
ghost use Rattle.local.specs.Local.{IsPage};
ghost use Rattle.quick.specs.Good.{QuickGood};
ghost use Rattle.notes.specs.Linked.{EntryRoom};
ghost use Rattle.quick.specs.Slots.{GoodSlots};
ghost use Rattle.quick.specs.Sums.{Sums, add_to, add_slots, add_entries, add_page, add_pages, page_met, all_met};

use model::Limits;

fn add(sums: &mut [u64], n: usize, x: u32)
    requires { (n < length sums.old) × (get_or sums.old n 0 ≤ 2 ^ 40) }
    ensures { sums.new ≡ add_to sums.old n x }
{
    sums[n] += x as u64;
}

// Each slot's stretch, at its root.
fn add_slots(sums: &mut [u64], s: &[u8], l: Limits, old: u32)
    requires { QuickGood l.least s.now × GoodSlots l.least s.now × Sums 0 sums.old }
    ensures { sums.new ≡ add_slots old sums.old (decode l.least s.now).slots }
{
    let h = store::header(s, l);
    let roots = h.roots as usize;
    for i in 0..roots {
        let x = store::slot(s, l, i);
        let b = crate::slots::upto_at(s, l, i + 1, roots);
        add(
            sums,
            x.root as usize,
            crate::entry::span_from(old, x.version, b),
        );
    }
}

// Each router's span, at the page that it leads to.
fn add_entries(sums: &mut [u64], page: &[u8], n: usize, old: u32)
    requires { EntryRoom page.now n × (n ≤ 40) × Sums 200000 sums.old
        × ((i : ℕ) → i < n → (read_entry page.now (128 + 96 * i)).value < 4096) }
    ensures { sums.new ≡ add_entries old sums.old (read_entries page.now 128 n) }
{
    for i in 0..n {
        let e = page::entry_at(page, i);
        add(
            sums,
            e.value as usize,
            crate::entry::span_from(old, e.start, e.end),
        );
    }
}

// The routers of page n, if it has any.
fn add_page(sums: &mut [u64], s: &[u8], l: Limits, n: usize, old: u32)
    requires { QuickGood l.least s.now × IsPage l.least s.now n × Sums 200000 sums.old }
    ensures { sums.new ≡ add_page old sums.old (decode_page l.least (page_of l.least s.now n)) }
{
    let p = store::part(s, l, n);
    let h = page::head_of(p, l);
    if h.level <= 1 {
        return;
    }
    add_entries(sums, p, h.count, old);
}

fn add_pages(sums: &mut [u64], s: &[u8], l: Limits, old: u32)
    requires { QuickGood l.least s.now × Sums 512 sums.old }
    ensures { sums.new ≡ add_pages old sums.old (drop 5 (decode l.least s.now).pages) }
{
    let size = store::size(s, l);
    for n in 5..size {
        add_page(sums, s, l, n, old);
    }
}

// Page n is free, or the sum is its span.
fn page_met(s: &[u8], l: Limits, n: usize, sum: u64, old: u32) -> bool
    requires { QuickGood l.least s.now × IsPage l.least s.now n }
    ensures { result ≡ page_met old sum (decode_page l.least (page_of l.least s.now n)) }
{
    let h = page::head_of(store::part(s, l, n), l);
    h.level == 0 || sum == crate::entry::span_from(old, h.start, h.end) as u64
}

fn all_met(sums: &[u64], s: &[u8], l: Limits, old: u32) -> bool
    requires { QuickGood l.least s.now × (length sums.now ≡ 4096) }
    ensures { result ≡ all_met old sums.now 5 (drop 5 (decode l.least s.now).pages) }
{
    let size = store::size(s, l);
    for n in 5..size {
        if !page_met(s, l, n, sums[n], old) {
            return false;
        }
    }
    true
}

// Each used page from 5 on: the spans of the slots and routers that lead to it add up to its own.
pub(crate) fn spans_met(s: &[u8], l: Limits) -> bool
    requires { QuickGood l.least s.now × GoodSlots l.least s.now }
    ensures { result ≡ spans_met (decode l.least s.now) 5 (drop 5 (decode l.least s.now).pages) }
{
    let h = store::header(s, l);
    let mut sums = [0; 4096];
    add_slots(&mut sums, s, l, h.oldest);
    add_pages(&mut sums, s, l, h.oldest);
    all_met(&sums, s, l, h.oldest)
}
