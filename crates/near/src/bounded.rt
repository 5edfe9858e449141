// A range whose walk's budget is used up: by a table, which no bytes can keep busy.
ghost use Rattle.std.specs.Prelude.{◌≡◌, true, pred, ◌+◌, ◌*◌, ◌^◌, ◌≤◌, ◌<◌, length};
ghost use Rattle.model.specs.Walk.{range_below};
ghost use Rattle.model.specs.Layout.{decode};
ghost use Rattle.model.specs.Near.{range_right};
ghost use Rattle.local.specs.Right.{Known};
ghost use Rattle.walk.specs.Written.{written, PairSpace};
ghost use Rattle.model.specs.Refusals.{listed_in};
ghost use Rattle.tabled.specs.Here.{Reads};
ghost use Rattle.tabled.specs.Cells.{Table};
ghost use Rattle.near.specs.Crossed.{crossed_from};

use model::{Limits, ListRefusal, Refusal};
use tabled::Asked;
use walk::Query;

// The settings of a range that was found right, written at the start of the caller's list, by the same table.
fn write_by(table: &[usize], s: &[u8], l: Limits, q: Asked, n: usize, level: u32, list: &mut [u32])
    requires { Reads l s.now × (0 < level) × (range_right l.least s.now q.version (pred level) q.high q.low n ≡ true)
        × PairSpace true list.old 0
        (range_below (pred level) (decode l.least s.now).pages q.version q.low q.high q.low n)
        × Table l.least s.now q.version q.low q.high ((level + 1) * 4096) table.now }
    ensures { list.new ≡ written true list.old 0
        (range_below (pred level) (decode l.least s.now).pages q.version q.low q.high q.low n) }
{
    let writing = Query {
        low: q.low,
        high: q.high,
        version: q.version,
        write: true,
    };
    let up = level as usize - 1;
    tabled::gather_by(table, s, l, writing, n, up, q.low, list, 0);
}

// What a range gives, and what it leaves in the caller's list, by a table that has the numbers of all pages up to this level. The
// settings are counted there, so that nothing is written before 14.
fn listed_by(
    table: &[usize],
    s: &[u8],
    l: Limits,
    q: Asked,
    n: usize,
    level: u32,
    list: &mut [u32],
) -> Result<usize, ListRefusal>
    requires { Known l.least s.now q.size q.last × (length s.now ≤ 2 ^ 40) × (0 < level) × (level ≤ 7)
        × Table l.least s.now q.version q.low q.high ((level + 1) * 4096) table.now }
    ensures { listed_in result list.new
        ≡ crossed_from l.least s.now q.low q.high q.version list.old level n }
{
    let Some(found) = tabled::down(s, l, q, table, n, level, q.low).checked_sub(1) else {
        return Err(ListRefusal::Refused(Refusal::NotSound));
    };
    if list.len() < 2 * found {
        return Err(ListRefusal::TooShort(found));
    }
    write_by(table, s, l, q, n, level, list);
    Ok(found)
}

// The same by a table of its own, on the stack.
fn by<const N: usize>(
    s: &[u8],
    l: Limits,
    q: Asked,
    n: usize,
    level: u32,
    list: &mut [u32],
) -> Result<usize, ListRefusal>
    requires { Known l.least s.now q.size q.last × (length s.now ≤ 2 ^ 40) × (0 < level) × (level ≤ 7)
        × (4096 * (5 * l.least + 1) ≤ N) × (N ≤ 2 ^ 20) }
    ensures { listed_in result list.new
        ≡ crossed_from l.least s.now q.low q.high q.version list.old level n }
{
    let mut table = [0; N];
    tabled::fill_levels(&mut table, s, l, q, level);
    listed_by(&table, s, l, q, n, level, list)
}

// What a range gives from page n, which is to have this level.
pub(crate) fn by_table(
    s: &[u8],
    l: Limits,
    q: Asked,
    n: usize,
    level: u32,
    list: &mut [u32],
) -> Result<usize, ListRefusal>
    requires { Known l.least s.now q.size q.last × (length s.now ≤ 2 ^ 40) × (0 < level) }
    ensures { listed_in result list.new
        ≡ crossed_from l.least s.now q.low q.high q.version list.old level n }
{
    if 7 < level {
        return Err(ListRefusal::Refused(Refusal::NotSound));
    }
    // 4,096 pages of 20 entries, 688 kB of the stack, which no sound store asks for; or of 40, 1.3 MB.
    if l.least <= 4 {
        by::<86016>(s, l, q, n, level, list)
    } else {
        by::<167936>(s, l, q, n, level, list)
    }
}
