// A range's walk judged within a budget: on a sound store a range visits no page twice, so that as many visits as the store has pages are
// enough; on bytes made to keep it busy the budget ends, and `table` answers.
ghost use Rattle.std.specs.Prelude.{◌≡◌, pred, ◌^◌, ◌≤◌, ◌<◌, length};
ghost use Rattle.model.specs.Near.{range_right};
ghost use Rattle.local.specs.Right.{Known};
ghost use Rattle.near.specs.Within.{NearRight};

use model::Limits;
use tabled::Asked;

// Why a walk was not found right: it is wrong, or the visits were spent before that was known, and whoever asked must ask in another way.
#[derive(Clone, Copy, PartialEq, Eq)]
pub(crate) enum Unsettled {
    Wrong,
    Spent,
}

// Whether the walk of a range below page n, which is to have this level and cover the key `at`, is right; gives the visits left. A page
// that is read takes one of them, and where none is left none is read: no more are read than were left at first, whatever the bytes.
pub(crate) fn range_right(
    s: &[u8],
    l: Limits,
    q: Asked,
    n: usize,
    level: u32,
    at: u32,
    left: usize,
) -> Result<usize, Unsettled>
    requires { Known l.least s.now q.size q.last × (length s.now ≤ 2 ^ 40) × (0 < level) }
    ensures { NearRight left (range_right l.least s.now q.version (pred level) q.high at n) result }
{
    if left == 0 {
        return Err(Unsettled::Spent);
    }
    if !local::page_right(s, l, q.last, q.size, level, n) {
        return Err(Unsettled::Wrong);
    }
    if level == 1 {
        return Ok(left - 1);
    }
    if !tabled::starts(s, l, n, q.version, at) {
        return Err(Unsettled::Wrong);
    }
    let p = store::part(s, l, n);
    let h = page::head_of(p, l);
    let o = walk::own_router(p, h.count, q.version, at);
    let mut rest = range_right(s, l, q, o.page as usize, level - 1, at, left - 1)?;
    let mut i = walk::next_place(p, h.count, q.version, 0, q.high, o.next);
    while i < h.count {
        let e = page::entry_at(p, i);
        rest = range_right(s, l, q, e.value as usize, level - 1, e.key, rest)?;
        i = walk::next_place(p, h.count, q.version, 0, q.high, i + 1);
    }
    Ok(rest)
}
