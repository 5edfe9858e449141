// A return to an earlier version: its guard, and then the core (request 2026-07).
ghost use Rattle.std.specs.Prelude.{◌≡◌};
ghost use Rattle.model.specs.Lent.{leaving, return_lent};
ghost use Rattle.model.specs.Refusals.{number_in};
ghost use Rattle.reads.specs.Guard.{guarded};
ghost use Rattle.changes.specs.Returning.{returning};

use model::{Limits, Refusal};

// The guard of a return: judging, then 6 and 7. "The call gives 6 for a version above the current one", which the open one is,
// or below the oldest.
fn guard_returning(s: &[u8], l: Limits, v: u32) -> Result<(), Refusal>
    ensures { number_in result ≡ guarded l.least s.now (returning v) }
{
    quick::judge(s, l)?;
    let h = store::header(s, l);
    if crate::uncommitted(h, v) {
        return Err(Refusal::VersionAboveLast);
    }
    if !h.opened {
        return Err(Refusal::NoUpdateOpen);
    }
    Ok(())
}

// Returns to version v in the open update: its settings become those of that version; with 12 or 13 the update is abandoned.
pub fn return_in(s: &mut [u8], l: Limits, v: u32) -> Result<(), Refusal>
    ensures { leaving (number_in result) s.new ≡ return_lent l.least s.old v }
{
    guard_returning(s, l, v)?;
    let h = store::header(s, l);
    back::return_to(s, l, v, h.current + 1)
}
