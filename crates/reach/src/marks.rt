// "walk from its root over entries alive then": one walk, for one rule, over a stretch of versions.
ghost use Rattle.std.specs.Prelude.{◌≡◌, ◌+◌, ◌≤◌, ◌<◌};
ghost use Rattle.model.specs.Layout.{read_header};
ghost use Rattle.local.specs.Local.{IsPage, level_at};
ghost use Rattle.notes.specs.Linked.{Linked};
ghost use Rattle.reach.specs.Pending.{Tells};

use model::Limits;

// A page that waits for the walk, at each version from `from` up to, not including, `upto`: how far above the leaves, whether it is the
// root, and the keys that it may hold.
#[derive(Clone, Copy)]
pub(crate) struct Item {
    pub page: usize,
    pub up: usize,
    pub root: bool,
    pub low: u32,
    pub high: u32,
    pub from: u32,
    pub upto: u32,
}

// The walk for one rule, at each version from a up to, not including, b. "the walk down stops at the first page that breaks a rule": the
// loop is left by its label, with the broken rule as its value.
// A page is tested once for each stretch in which nothing of it starts or ends; what is left of its versions waits below its routers.
// So the pages that wait are at most 41 for each of the 7 levels, and the root: fixed memory, as there is no heap.
// Rule 6 asks only which pages are reached, so that a leaf is marked and no more. A mark for each of up to 4,096 page numbers, set for
// those it reached; None if the rule is broken. The rule is a number, as in the definitions (specs/Pending).
pub(crate) fn walk(
    s: &[u8],
    l: Limits,
    root: usize,
    up: usize,
    a: u32,
    b: u32,
    rule: u32,
) -> Option<[bool; 4096]>
    requires { Linked l.least s.now × IsPage l.least s.now root × (level_at l.least s.now root ≡ up + 1) × (up ≤ 6) × (a < b)
        × ((read_header l.least s.now).oldest ≤ a) }
    ensures { Tells l.least s.now root up a b rule result }
{
    let mut marks = [false; 4096];
    let first = Item {
        page: root,
        up,
        root: true,
        low: 0,
        high: 16777216,
        from: a,
        upto: b,
    };
    let mut items = [first; 288];
    let mut top: usize = 1;
    let broken = 'walk: loop {
        if top == 0 {
            break 'walk None;
        }
        top -= 1;
        let it = items[top];
        let n = it.page;
        if rule == 6 && it.up == 0 {
            marks[n] = true;
            continue 'walk;
        }
        let p = store::part(s, l, n);
        let h = page::head_of(p, l);
        let count = h.count;
        let c = crate::change::page_change(p, l, it.from, it.upto);
        items[top] = Item { from: c, ..it };
        top += usize::from(c < it.upto);
        if !crate::live::opens(p, l, it.from, count, rule, it) {
            break 'walk Some(rule);
        }
        marks[n] = true;
        let mut j = crate::live::next_live(p, it.from, 0, count);
        while j < count {
            let e = page::entry_at(p, j);
            let k = crate::live::next_live(p, it.from, j + 1, count);
            let next = crate::live::upper(p, k, count, it.high);
            if !crate::live::steps(rule, it.low, it.high, next, e.key) {
                break 'walk Some(rule);
            }
            if 0 < it.up {
                items[top] = Item {
                    page: e.value as usize,
                    up: it.up - 1,
                    root: false,
                    low: e.key,
                    high: next,
                    from: it.from,
                    upto: c,
                };
                top += 1;
            }
            j = k;
        }
    };
    match broken {
        None => Some(marks),
        Some(_) => None,
    }
}
