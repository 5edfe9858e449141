// What differs between two versions: the list that is signed before a release (request 2026-03).
ghost use Rattle.std.specs.Prelude.{◌≡◌};
ghost use Rattle.model.specs.Lent.{difference_lent};
ghost use Rattle.model.specs.Refusals.{listed_in, number_in};
ghost use Rattle.reads.specs.Guard.{guarded};
ghost use Rattle.reads.specs.Differing.{differing};

use model::{Limits, ListRefusal, Refusal};

// The guard of a difference: judging, then 6 where either version is above last or below the oldest.
fn guard_differing(s: &[u8], l: Limits, old: u32, new: u32) -> Result<(), Refusal>
    ensures { number_in result ≡ guarded l.least s.now (differing old new) }
{
    quick::judge(s, l)?;
    let h = store::header(s, l);
    if near::guard::unreadable(h, old) || near::guard::unreadable(h, new) {
        return Err(Refusal::VersionAboveLast);
    }
    Ok(())
}

// What differs from the old version to the new, in key order: how many differences there are, and key, kind (0 added, 1 removed, 2
// changed), old value and new value of each in the caller's list.
pub fn difference_in(
    s: &[u8],
    l: Limits,
    old: u32,
    new: u32,
    list: &mut [u32],
) -> Result<usize, ListRefusal>
    ensures { listed_in result list.new ≡ difference_lent l.least s.now old new list.old }
{
    guard_differing(s, l, old, new)?;
    differ::difference(s, l, old, new, list)
}
