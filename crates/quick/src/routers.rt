// The routers of a page: each one's child throughout its span, with the next one's low key above the keys under it.
ghost use Rattle.std.specs.Prelude.{◌≡◌, ◌+◌, ◌*◌, ◌-◌, ◌≤◌, ◌<◌, min, max};
ghost use Rattle.model.specs.Layout.{read_entry, read_entries, read_header, decode};
ghost use Rattle.spans.specs.Quick.{kept, under, nexts, routers_fine};
ghost use Rattle.local.specs.Local.{IsPage, level_at};
ghost use Rattle.quick.specs.Good.{QuickGood};
ghost use Rattle.notes.specs.Linked.{EntryRoom};
ghost use Rattle.quick.specs.Routers.{router_from, router_fine, entries_at};
ghost use Rattle.quick.specs.Under.{under_page};
ghost use Rattle.quick.specs.Within.{QuickRight};

use crate::within::Stop;
use model::Limits;

// The keys under page m are under the low key of the next one alive, the entries from place i of the page p on. Once the stretch is
// gone through, nothing more is asked.
fn nexts_fine(
    s: &[u8],
    l: Limits,
    up: usize,
    m: usize,
    p: &[u8],
    n: usize,
    i: usize,
    a: u32,
    b: u32,
    left: u32,
) -> Result<u32, Stop>
    requires { QuickGood l.least s.now × IsPage l.least s.now m × (level_at l.least s.now m ≡ up + 1) × EntryRoom p.now n
        × (i ≤ n) × ((read_header l.least s.now).oldest ≤ a) }
    ensures { QuickRight left
        (nexts (under_page up (decode l.least s.now).pages m) a b (read_entries p.now (128 + 96 * i) (n - i))) result }
{
    let mut rest = left;
    let mut t = a;
    for k in i..n {
        if b <= t {
            break;
        }
        let e = page::entry_at(p, k);
        rest = crate::under::under(s, l, up, e.key, t.max(e.start), b.min(e.end), m, rest)?;
        t = crate::entry::past(t, e);
    }
    Ok(rest)
}

// The router at place i of the page p from version a on, and those behind it.
fn router_from(
    s: &[u8],
    l: Limits,
    up: usize,
    p: &[u8],
    n: usize,
    i: usize,
    a: u32,
    left: u32,
) -> Result<u32, Stop>
    requires { QuickGood l.least s.now × EntryRoom p.now n × (i + 1 ≤ n)
        × IsPage l.least s.now (read_entry p.now (128 + 96 * i)).value
        × (level_at l.least s.now (read_entry p.now (128 + 96 * i)).value ≡ up + 1) × ((read_header l.least s.now).oldest ≤ a) }
    ensures { QuickRight left
        (router_from l.least up (decode l.least s.now).pages a (read_entry p.now (128 + 96 * i)) (read_entries p.now (128 + 96 * (i + 1)) (n - (i + 1)))) result }
{
    let e = page::entry_at(p, i);
    let m = e.value as usize;
    if !crate::part::fine_over(store::part(s, l, m), l, l.least, e.key, a, e.end) {
        return Err(Stop::Wrong);
    }
    nexts_fine(s, l, up, m, p, n, i + 1, a, e.end, left)
}

// The same from the oldest version on. Of a router that ended by then nothing is asked: its page may be free or used again.
fn router_fine(
    s: &[u8],
    l: Limits,
    up: usize,
    p: &[u8],
    n: usize,
    i: usize,
    old: u32,
    left: u32,
) -> Result<u32, Stop>
    requires { QuickGood l.least s.now × EntryRoom p.now n × (i + 1 ≤ n) × (old < (read_entry p.now (128 + 96 * i)).end
        → IsPage l.least s.now (read_entry p.now (128 + 96 * i)).value × (level_at l.least s.now (read_entry p.now (128 + 96 * i)).value ≡ up + 1)) × (old ≡ (read_header l.least s.now).oldest) }
    ensures { QuickRight left
        (router_fine l.least old up (decode l.least s.now).pages (read_entry p.now (128 + 96 * i)) (read_entries p.now (128 + 96 * (i + 1)) (n - (i + 1)))) result }
{
    let e = page::entry_at(p, i);
    if e.end <= old {
        return Ok(left);
    }
    router_from(s, l, up, p, n, i, old.max(e.start), left)
}

// The routers of page n, which lead to pages `up` levels above the leaves.
pub(crate) fn routers_fine(
    s: &[u8],
    l: Limits,
    up: usize,
    n: usize,
    old: u32,
    left: u32,
) -> Result<u32, Stop>
    requires { QuickGood l.least s.now × IsPage l.least s.now n × (level_at l.least s.now n ≡ up + 2)
        × (old ≡ (read_header l.least s.now).oldest) }
    ensures { QuickRight left
        (routers_fine l.least old up (decode l.least s.now).pages (kept old (entries_at l.least s.now n))) result }
{
    let p = store::part(s, l, n);
    let count = page::head_of(p, l).count;
    let mut rest = left;
    for i in 0..count {
        rest = router_fine(s, l, up, p, count, i, old, rest)?;
    }
    Ok(rest)
}
