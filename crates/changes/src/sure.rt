// The changes for a caller that may be sure of a sound store, as one is that made it and changes it by these calls alone ("checking once
// for a run of commands"): it is spared the judging, and the answers and the bytes are the same. One that is not sure is judged.
ghost use Rattle.std.specs.Prelude.{◌≡◌};
ghost use Rattle.model.specs.Lent.{leaving, open_lent, commit_lent, abandon_lent, insert_lent, delete_lent};
ghost use Rattle.model.specs.Refusals.{number_in};
ghost use Rattle.reads.specs.Guard.{Sure};

use model::{Limits, Refusal};

// Opens an update.
pub fn open(s: &mut [u8], l: Limits, sure: bool) -> Result<(), Refusal>
    requires { Sure l s.old sure }
    ensures { leaving (number_in result) s.new ≡ open_lent l.least s.old }
{
    crate::guard_opening(s, l, sure)?;
    turn::begin(s, l);
    Ok(())
}

// Commits the open update, unless its settings are the current version's.
pub fn commit(s: &mut [u8], l: Limits, sure: bool) -> Result<(), Refusal>
    requires { Sure l s.old sure }
    ensures { leaving (number_in result) s.new ≡ commit_lent l.least s.old }
{
    crate::guard_committing(s, l, sure)?;
    turn::commit(s, l);
    Ok(())
}

// Abandons the open update.
pub fn abandon(s: &mut [u8], l: Limits, sure: bool) -> Result<(), Refusal>
    requires { Sure l s.old sure }
    ensures { leaving (number_in result) s.new ≡ abandon_lent l.least s.old }
{
    crate::guard_closing(s, l, sure)?;
    turn::abandon(s, l);
    Ok(())
}

// Inserts a setting in the open update.
pub fn insert(s: &mut [u8], l: Limits, key: u32, value: u32, sure: bool) -> Result<(), Refusal>
    requires { Sure l s.old sure }
    ensures { leaving (number_in result) s.new ≡ insert_lent l.least s.old key value }
{
    let r = crate::updating::guard_updating(s, l, key, true, sure)?;
    update::insert_at(s, l, r.version, r.leaf, key, value)
}

// Deletes a setting in the open update.
pub fn delete(s: &mut [u8], l: Limits, key: u32, sure: bool) -> Result<(), Refusal>
    requires { Sure l s.old sure }
    ensures { leaving (number_in result) s.new ≡ delete_lent l.least s.old key }
{
    let r = crate::updating::guard_updating(s, l, key, false, sure)?;
    update::delete_at(s, l, r.version, r.leaf, key)
}
