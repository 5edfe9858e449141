// Rule 6 at one version, by a walk and its marks, for any version from the oldest on: `check` asks it at the last one, judging where the
// notes met a page that had gone out of reach.
#![tactic(auto)]

mod change;
mod live;
mod marks;

ghost use Rattle.std.specs.Prelude.{◌≡◌, ◌&&◌, not, ◌-◌, ◌≤◌, eqb};
ghost use Rattle.model.specs.Entry.{within};
ghost use Rattle.model.specs.Layout.{read_pages, size_of};
ghost use Rattle.notes.specs.Ready.{Ready};
ghost use Rattle.reach.specs.Versions.{version_ok, marked_well};

pub use change::page_change;
use model::{Header, Limits};
use page::Head;

fn used_at(h: Head, v: u32) -> bool
    ensures { result ≡ (not (eqb h.level 0) && within h.start h.end v) }
{
    h.level != 0 && h.start <= v && v < h.end
}

// Rule 6 at v: each used page is marked at a version of its span, and no other.
fn reached(s: &[u8], l: Limits, h: Header, marks: &[bool; 4096], v: u32) -> bool
    requires { Ready l.least s.now h }
    ensures { result ≡ marked_well v marks.now 5 (read_pages l.least s.now 5 (size_of l.least s.now - 5)) }
{
    (5..h.pages as usize).all(|n| used_at(page::head_of(store::part(s, l, n), l), v) == marks[n])
}

// Rule 6 at one version.
pub fn version_ok(s: &[u8], l: Limits, h: Header, v: u32) -> bool
    requires { Ready l.least s.now h × (v ≤ 1048574) × (h.oldest ≤ v) }
    ensures { result ≡ version_ok l.least 6 s.now v }
{
    let root = notes::root_at(s, l, h, v);
    let up = page::head_of(store::part(s, l, root), l).level as usize - 1;
    match crate::marks::walk(s, l, root, up, v, v + 1, 6) {
        Some(marks) => reached(s, l, h, &marks, v),
        None => false,
    }
}
