// A prune: its guard, and then the core (request 2026-12).
ghost use Rattle.std.specs.Prelude.{◌≡◌};
ghost use Rattle.model.specs.Lent.{leaving, prune_lent};
ghost use Rattle.model.specs.Refusals.{number_in};
ghost use Rattle.reads.specs.Guard.{guarded};
ghost use Rattle.changes.specs.Pruning.{pruning};

use model::{Limits, Refusal};

// The guard of a prune: judging, then 6 and 8. "Versions below [the oldest] give 6, as does pruning above the current version. While an
// update is open it gives 8."
fn guard_pruning(s: &[u8], l: Limits, v: u32) -> Result<(), Refusal>
    ensures { number_in result ≡ guarded l.least s.now (pruning v) }
{
    quick::judge(s, l)?;
    let h = store::header(s, l);
    if crate::uncommitted(h, v) {
        return Err(Refusal::VersionAboveLast);
    }
    if h.opened {
        return Err(Refusal::UpdateAlreadyOpen);
    }
    Ok(())
}

// Version v becomes the oldest: what ended at or before it is dropped. "pruning edition 1 gives 3", before the store is judged.
pub fn prune_in(s: &mut [u8], l: Limits, v: u32) -> Result<(), Refusal>
    ensures { leaving (number_in result) s.new ≡ prune_lent l.least s.old v }
{
    if l.least <= 4 {
        return Err(Refusal::WrongEdition);
    }
    guard_pruning(s, l, v)?;
    prune::prune(s, l, v);
    Ok(())
}
