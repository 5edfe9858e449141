// The calls that change a store, for any bytes lent and the limits of an edition: each is its guard, which judges the store and then goes
// through the call's refusals in order, and a core that rests on a sound store. A caller that is sure of its store has sure.rt.
#![tactic(auto)]

mod pruning;
mod returning;
pub mod sure;
mod updating;

ghost use Rattle.std.specs.Prelude.{◌≡◌};
ghost use Rattle.model.specs.Calls.{beyond};
ghost use Rattle.model.specs.Judged.{judged};
ghost use Rattle.model.specs.Lent.{leaving, open_lent, commit_lent, abandon_lent};
ghost use Rattle.model.specs.Refusals.{number_in};
ghost use Rattle.reads.specs.Guard.{guarded, Sure};
ghost use Rattle.changes.specs.Turning.{opening, closing, committing};

use model::{Header, Limits, Refusal};
pub use pruning::prune_in;
pub use returning::return_in;
pub use updating::{delete_in, insert_in};

// "Versions are 0 to 1,048,574."
const LAST: u32 = 1048574;

// Judging, which a caller that is sure of a sound store is spared. `sure` is a word and no step to run: the premise hangs on it.
fn judge(s: &[u8], l: Limits, sure: bool) -> Result<(), Refusal>
    requires { Sure l s.now sure }
    ensures { number_in result ≡ (judged l.least s.now).number }
{
    if sure {
        return Ok(());
    }
    quick::judge(s, l)
}

// 6 for a return and a prune: "a version above the current one", or below the oldest.
fn uncommitted(h: Header, v: u32) -> bool
    ensures { result ≡ beyond h.current h.oldest v }
{
    h.current < v || v < h.oldest
}

// The guard of open: judging, then 8 and 9.
fn guard_opening(s: &[u8], l: Limits, sure: bool) -> Result<(), Refusal>
    requires { Sure l s.now sure }
    ensures { number_in result ≡ guarded l.least s.now opening }
{
    judge(s, l, sure)?;
    let h = store::header(s, l);
    if h.opened {
        return Err(Refusal::UpdateAlreadyOpen);
    }
    if LAST <= h.current {
        return Err(Refusal::VersionsUsedUp);
    }
    Ok(())
}

// The guard of abandon: judging, then 7.
fn guard_closing(s: &[u8], l: Limits, sure: bool) -> Result<(), Refusal>
    requires { Sure l s.now sure }
    ensures { number_in result ≡ guarded l.least s.now closing }
{
    judge(s, l, sure)?;
    let h = store::header(s, l);
    if !h.opened {
        return Err(Refusal::NoUpdateOpen);
    }
    Ok(())
}

// The guard of commit: abandon's, then 15.
fn guard_committing(s: &[u8], l: Limits, sure: bool) -> Result<(), Refusal>
    requires { Sure l s.now sure }
    ensures { number_in result ≡ guarded l.least s.now committing }
{
    guard_closing(s, l, sure)?;
    let h = store::header(s, l);
    if release::unchanged(s, l, h.current) {
        return Err(Refusal::NothingChanged);
    }
    Ok(())
}

// Opens an update.
pub fn open_in(s: &mut [u8], l: Limits) -> Result<(), Refusal>
    ensures { leaving (number_in result) s.new ≡ open_lent l.least s.old }
{
    sure::open(s, l, false)
}

// Commits the open update, unless its settings are the current version's.
pub fn commit_in(s: &mut [u8], l: Limits) -> Result<(), Refusal>
    ensures { leaving (number_in result) s.new ≡ commit_lent l.least s.old }
{
    sure::commit(s, l, false)
}

// Abandons the open update.
pub fn abandon_in(s: &mut [u8], l: Limits) -> Result<(), Refusal>
    ensures { leaving (number_in result) s.new ≡ abandon_lent l.least s.old }
{
    sure::abandon(s, l, false)
}
