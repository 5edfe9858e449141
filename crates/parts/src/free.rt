// The free pages of a store.
ghost use Rattle.std.specs.Prelude.{◌≡◌, ◌≤◌, length};
ghost use Rattle.model.specs.Store.{free_ones};
ghost use Rattle.parts.specs.Kept.{ExactBytes, pages_of};
ghost use Rattle.parts.specs.Free.{Found};

use model::Limits;

// The number of pages.
pub fn size_of(s: &[u8], l: Limits) -> usize
    requires { ExactBytes l s.now }
    ensures { result ≡ length (pages_of l s.now) }
{
    store::size(s, l)
}

// The first free page from page n on; the number of pages if there is none. The callers, and `Found`, compare it
// with that number, so an Option would be no plainer.
pub fn first_free(s: &[u8], l: Limits, n: usize, size: usize) -> usize
    requires { ExactBytes l s.now × (5 ≤ n) × (n ≤ size) × (size ≡ length (pages_of l s.now)) }
    ensures { Found (pages_of l s.now) n size result }
{
    for i in n..size {
        if crate::level_of(s, l, i) == 0 {
            return i;
        }
    }
    size
}

// How many there are.
pub fn count_free(s: &[u8], l: Limits, size: usize) -> usize
    requires { ExactBytes l s.now × (size ≡ length (pages_of l s.now)) }
    ensures { result ≡ length (free_ones (pages_of l s.now)) }
{
    let mut n = 0;
    for i in 5..size {
        n += usize::from(crate::level_of(s, l, i) == 0);
    }
    n
}
