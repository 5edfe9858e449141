// "A key lies from its page's low key up to, not including, the next one's": the pages that routers lead to, throughout their spans.
ghost use Rattle.std.specs.Prelude.{◌≡◌, ◌+◌, ◌*◌, ◌-◌, ◌≤◌, ltb};
ghost use Rattle.model.specs.Basic.{pick};
ghost use Rattle.model.specs.Layout.{read_entry, read_entries, read_header, decode};
ghost use Rattle.spans.specs.Quick.{under, lasts};
ghost use Rattle.local.specs.Local.{IsPage, level_at};
ghost use Rattle.quick.specs.Good.{QuickGood, Asks};
ghost use Rattle.notes.specs.Linked.{EntryRoom};
ghost use Rattle.quick.specs.Routers.{entries_at};
ghost use Rattle.quick.specs.Under.{way_of};
ghost use Rattle.quick.specs.Within.{QuickRight};

use crate::within::Stop;
use model::Limits;

// Where an entry is the last one alive: its key, and the stretch for which its page is asked.
#[derive(Clone, Copy)]
pub(crate) struct Way {
    pub key: u32,
    pub from: u32,
    pub upto: u32,
    pub page: u32,
}

// The way at place i. An entry not alive in the stretch leads nowhere.
fn way_at(page: &[u8], n: usize, i: usize, a: u32, b: u32) -> Option<Way>
    requires { EntryRoom page.now n × (i + 1 ≤ n) }
    ensures { result ≡ way_of a b (read_entry page.now (128 + 96 * i))
        (read_entries page.now (128 + 96 * (i + 1)) (n - (i + 1))) }
{
    let e = page::entry_at(page, i);
    if !crate::entry::meets(a, b, e) {
        return None;
    }
    let upto = b.min(e.end);
    let from = crate::part::past_behind(page, n, i + 1, a.max(e.start), upto);
    Some(Way {
        key: e.key,
        from,
        upto,
        page: e.value,
    })
}

// Throughout the stretch the live keys under page n, `up` levels above the leaves, are under h. A page that is read takes one from what
// is left, and where nothing is left none is read: no more are read than were left at first, whatever the bytes.
#[cycle(under_ways_fine)]
pub(crate) fn under(
    s: &[u8],
    l: Limits,
    up: usize,
    h: u32,
    a: u32,
    b: u32,
    n: usize,
    left: u32,
) -> Result<u32, Stop>
    requires { QuickGood l.least s.now × Asks l.least s.now a b up n }
    ensures { QuickRight (left - pick (ltb a b) 1 0) (under up (decode l.least s.now).pages h a b n) result }
{
    if b <= a {
        return Ok(left);
    }
    if left == 0 {
        return Err(Stop::UsedUp);
    }
    if up != 0 {
        return ways_fine(s, l, up - 1, h, a, b, n, left - 1);
    }
    let p = store::part(s, l, n);
    if crate::part::high_over(p, page::head_of(p, l).count, h, a, b) {
        Ok(left - 1)
    } else {
        Err(Stop::Wrong)
    }
}

// The same of the routers of page n, which lead to pages `up` levels above the leaves: each one's key and the keys under its page, where it
// is the last one alive.
#[cycle(under_ways_fine)]
fn ways_fine(
    s: &[u8],
    l: Limits,
    up: usize,
    h: u32,
    a: u32,
    b: u32,
    n: usize,
    left: u32,
) -> Result<u32, Stop>
    requires { QuickGood l.least s.now × IsPage l.least s.now n × (level_at l.least s.now n ≡ up + 2)
        × ((read_header l.least s.now).oldest ≤ a) }
    ensures { QuickRight left
        (lasts (under up (decode l.least s.now).pages h) h a b (entries_at l.least s.now n)) result }
{
    let p = store::part(s, l, n);
    let count = page::head_of(p, l).count;
    let mut rest = left;
    for i in 0..count {
        if let Some(w) = way_at(p, count, i, a, b) {
            if h <= w.key {
                return Err(Stop::Wrong);
            }
            rest = under(s, l, up, h, w.from, w.upto, w.page as usize, rest)?;
        }
    }
    Ok(rest)
}
