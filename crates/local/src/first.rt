// Rule 1: "Sizes, levels, counts, zero bits, order and header fields are as above".
ghost use Rattle.std.specs.Prelude.{◌≡◌, ◌*◌, ◌≤◌};
ghost use Rattle.model.specs.Layout.{read_slots};
ghost use Rattle.model.specs.Clean.{clean};
ghost use Rattle.local.specs.Local.{Sized};
ghost use Rattle.local.specs.First.{rooted};

use model::Limits;

// The root page of every used slot is a page.
pub(crate) fn roots_ok(s: &[u8], l: Limits, roots: usize, size: usize) -> bool
    requires { Sized l.least s.now size × (roots ≤ 64 * l.least) }
    ensures { result ≡ rooted size (read_slots s.now (512 * l.least) roots) }
{
    (0..roots).all(|i| crate::entry::is_page(size, store::slot(s, l, i).root))
}

// Rule 1 of lent bytes, which make `size` pages.
pub fn first_rule(s: &[u8], l: Limits, size: usize) -> bool
    requires { Sized l.least s.now size }
    ensures { result ≡ clean l.least s.now }
{
    if !crate::front::fields_right(s, l, size) {
        return false;
    }
    let h = store::header(s, l);
    roots_ok(s, l, h.roots as usize, size) && crate::pages::pages_ok(s, l, size, h.last())
}
