// Every page in itself: "No live key stands twice in a page", and its routers.
ghost use Rattle.std.specs.Prelude.{◌&&◌, ◌≡◌, ◌-◌};
ghost use Rattle.model.specs.Basic.{all, in_order};
ghost use Rattle.model.specs.Page.{Page};
ghost use Rattle.model.specs.Sound.{pages_pass};
ghost use Rattle.model.specs.Layout.{page_of, decode_page, decode, read_header, read_pages, size_of};
ghost use Rattle.spans.specs.Quick.{kept, apart, children_fine};
ghost use Rattle.local.specs.Local.{IsPage};
ghost use Rattle.quick.specs.Good.{QuickGood};
ghost use Rattle.quick.specs.Pages.{own_fine, at_level};
ghost use Rattle.quick.specs.Within.{QuickRight};

use crate::within::Stop;
use model::Limits;

// Page n. Of a free page nothing is asked.
fn page_fine(s: &[u8], l: Limits, n: usize, old: u32, left: u32) -> Result<u32, Stop>
    requires { QuickGood l.least s.now × IsPage l.least s.now n × (old ≡ (read_header l.least s.now).oldest) }
    ensures { QuickRight left
        (own_fine l.least old (decode l.least s.now).pages (decode_page l.least (page_of l.least s.now n))) result }
{
    let p = store::part(s, l, n);
    let f = page::head_of(p, l);
    if f.level == 0 {
        return Ok(left);
    }
    if !crate::part::all_apart(p, f.count, old) {
        return Err(Stop::Wrong);
    }
    if f.level == 1 {
        return Ok(left);
    }
    crate::routers::routers_fine(s, l, (f.level - 2) as usize, n, old, left)
}

// Page n, if it is of level k.
fn fine_at(s: &[u8], l: Limits, n: usize, k: u32, old: u32, left: u32) -> Result<u32, Stop>
    requires { QuickGood l.least s.now × IsPage l.least s.now n × (old ≡ (read_header l.least s.now).oldest) }
    ensures { QuickRight left
        (at_level k l.least old (decode l.least s.now).pages (decode_page l.least (page_of l.least s.now n))) result }
{
    let p = store::part(s, l, n);
    if page::head_of(p, l).level == k {
        page_fine(s, l, n, old, left)
    } else {
        Ok(left)
    }
}

// The pages of level k.
fn level_fine(s: &[u8], l: Limits, k: u32, old: u32, left: u32) -> Result<u32, Stop>
    requires { QuickGood l.least s.now × (old ≡ (read_header l.least s.now).oldest) }
    ensures { QuickRight left
        (all (at_level k l.least old (decode l.least s.now).pages) (read_pages l.least s.now 5 (size_of l.least s.now - 5))) result }
{
    let size = store::size(s, l);
    let mut rest = left;
    for n in 5..size {
        rest = fine_at(s, l, n, k, old, rest)?;
    }
    Ok(rest)
}

// From the highest level, 7, down: where the levels above hold, at no version do two ways lead to one page, so that a crowd of pages over
// the same ones shows before what stands below them is looked at again and again.
pub(crate) fn pages_fine(s: &[u8], l: Limits, old: u32, left: u32) -> Result<u32, Stop>
    requires { QuickGood l.least s.now × (old ≡ (read_header l.least s.now).oldest) }
    ensures { QuickRight left
        (pages_pass (λ (p : Page). in_order apart (kept old p.entries) && children_fine l.least old (decode l.least s.now).pages p.level (kept old p.entries)) (decode l.least s.now)) result }
{
    let mut rest = left;
    for k in (1..8).rev() {
        rest = level_fine(s, l, k, old, rest)?;
    }
    Ok(rest)
}
