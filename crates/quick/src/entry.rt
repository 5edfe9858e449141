// One entry and a stretch, the versions from a up to, not including, b.
ghost use Rattle.std.specs.Prelude.{◌≡◌, ◌-◌, suc, max};
ghost use Rattle.spans.specs.Quick.{meets, past, apart};
ghost use Rattle.model.specs.Inner.{throughout};

use model::Entry;

// How many versions there are from a up to, not including, b, and not before the oldest version.
pub(crate) fn span_from(old: u32, a: u32, b: u32) -> u32
    ensures { result ≡ b - max old a }
{
    b.saturating_sub(old.max(a))
}

// Whether the entry is alive at a version of the stretch.
pub(crate) fn meets(a: u32, b: u32, e: Entry) -> bool
    ensures { result ≡ meets a b e }
{
    a.max(e.start) < b.min(e.end)
}

// Where the entry is alive at a, its end: from there on others must stand.
pub(crate) fn past(a: u32, e: Entry) -> u32
    ensures { result ≡ past a e }
{
    if e.start <= a { a.max(e.end) } else { a }
}

// "No live key stands twice in a page": of two entries with one key the earlier ends before the other starts.
pub(crate) fn apart(d: Entry, e: Entry) -> bool
    ensures { result ≡ apart d e }
{
    d.key != e.key || d.end <= e.start
}

// Whether the entry is alive from a on through z.
pub(crate) fn throughout(e: Entry, a: u32, z: u32) -> bool
    ensures { result ≡ throughout a (suc z) e }
{
    e.start <= a && z < e.end
}
