// Which pages a lookup reads: the call that the support desk asks (request 2026-13).
ghost use Rattle.std.specs.Prelude.{◌≡◌};
ghost use Rattle.model.specs.Lent.{visits_lent};
ghost use Rattle.model.specs.Refusals.{listed_in};

use model::{Limits, ListRefusal};

// The numbers of the pages that a lookup of a key at a version visits, from the root down to the leaf: how many they are, and they
// themselves in the caller's list.
pub fn visits_in(
    s: &[u8],
    l: Limits,
    key: u32,
    v: u32,
    list: &mut [u32],
) -> Result<usize, ListRefusal>
    ensures { listed_in result list.new ≡ visits_lent l.least s.now key v list.old }
{
    crate::guard_reading(s, l, crate::KEYS <= key, v)?;
    walk::visits(s, l, key, v, list)
}
