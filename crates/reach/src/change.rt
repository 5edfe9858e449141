// The versions at which something of a page starts or ends. Between two of them each test answers the same.
ghost use Rattle.std.specs.Prelude.{◌≡◌, ◌*◌, ◌≤◌, ◌<◌, length};
ghost use Rattle.page.specs.Head.{read_head};
ghost use Rattle.notes.specs.Ready.{BehindUpto};
ghost use Rattle.reach.specs.Versions.{QuietPart};

use model::Limits;

// A version up to r such that nothing of the page starts or ends before it and behind v. For a single version nothing is read.
pub fn page_change(page: &[u8], l: Limits, v: u32, r: u32) -> u32
    requires { (length page.now ≡ 64 * l.least) × ((read_head l.least page.now).count ≤ 5 * l.least) × (v < r) }
    ensures { BehindUpto v r result × QuietPart l.least page.now v result }
{
    if r - v == 1 {
        return r;
    }
    let h = page::head_of(page, l);
    let mut q = notes::sooner(v, notes::sooner(v, r, h.start), h.end);
    for i in 0..h.count {
        let e = page::entry_at(page, i);
        q = notes::sooner(v, notes::sooner(v, q, e.start), e.end);
    }
    q
}
