// Rule 8: a used page's live count is "the number of entries alive at the last version". Where rule 1 holds, these are the entries whose
// end says alive (model/proofs/sound/Counted), so that one field of each entry is read (`page::live_among`).
ghost use Rattle.std.specs.Prelude.{◌≡◌, true, ◌^◌, ◌≤◌, length};
ghost use Rattle.model.specs.Clean.{clean};
ghost use Rattle.model.specs.Counted.{rule8};
ghost use Rattle.model.specs.Layout.{page_of};
ghost use Rattle.local.specs.Local.{Sized, Ruled, IsPage};
ghost use Rattle.local.specs.Eighth.{count_ok};

use model::Limits;

// Whether the live count of page n is right, in an edition that has one.
fn counted(s: &[u8], l: Limits, n: usize) -> bool
    requires { (length s.now ≤ 2 ^ 21) × Ruled l.least s.now × IsPage l.least s.now n }
    ensures { result ≡ count_ok l.least (page_of l.least s.now n) }
{
    let p = store::part(s, l, n);
    let h = page::head_of(p, l);
    h.level == 0 || page::live_of(p, l) == page::live_among(p, h.count)
}

// Rule 8 of lent bytes, which make `size` pages and of which rule 1 holds.
pub fn eighth_rule(s: &[u8], l: Limits, size: usize) -> bool
    requires { Sized l.least s.now size × (clean l.least s.now ≡ true) }
    ensures { result ≡ rule8 l.least s.now }
{
    l.least <= 4 || (5..size).all(|n| counted(s, l, n))
}
