// The calls on a plain store that another language lends: any numbers, and nothing asked of them. What the calls of this crate ask is
// tested first: 4 where the numbers are no plain store, and 14 where a change has not the room; nothing is changed then.
ghost use Rattle.std.specs.Prelude.{◌≡◌};
ghost use Rattle.model.specs.Refusals.{number_in, looked_in, listed_in};
ghost use Rattle.plain.specs.Guard.{is_state, is_lent, left_lent, insert_guarded, delete_guarded, commit_guarded, abandon_guarded};
ghost use Rattle.plain.specs.Guard.{return_guarded, prune_guarded, lookup_guarded, range_guarded, difference_guarded, life_guarded};
ghost use Rattle.plain.specs.Guard.{OpensGuarded, Spared, StateAgain, LentAgain, list_number_in};

use crate::{State, guard};
use model::{ListRefusal, Refusal};

pub fn open(state: &mut [u32; 5]) -> Result<(), Refusal>
    ensures given { OpensGuarded state.old (number_in result) state.new }
    ensures spared { Spared (is_state state.old) state.old state.new }
    ensures again { StateAgain state.old state.new }
{
    let s = State::try_from(&*state)?;
    *state = crate::open(s)?.numbers();
    Ok(())
}

// 14 beside the numbers of any call: it is a list that is too short.
pub fn insert(
    items: &mut [u32],
    state: &mut [u32; 5],
    key: u32,
    value: u32,
) -> Result<(), ListRefusal>
    ensures given { left_lent (list_number_in result) items.new state.new
        ≡ insert_guarded items.old state.old key value }
    ensures spared { Spared (is_lent items.old state.old) state.old state.new }
    ensures untouched { Spared (is_lent items.old state.old) items.old items.new }
    ensures again { LentAgain items.old state.old items.new state.new }
{
    let s = guard::lent(items, state)?;
    guard::insert_fits(items, s, key)?;
    *state = crate::insert(items, s, key, value)?.numbers();
    Ok(())
}

pub fn delete(items: &mut [u32], state: &mut [u32; 5], key: u32) -> Result<(), Refusal>
    ensures given { left_lent (number_in result) items.new state.new
        ≡ delete_guarded items.old state.old key }
    ensures spared { Spared (is_lent items.old state.old) state.old state.new }
    ensures untouched { Spared (is_lent items.old state.old) items.old items.new }
    ensures again { LentAgain items.old state.old items.new state.new }
{
    let s = guard::lent(items, state)?;
    *state = crate::delete(items, s, key)?.numbers();
    Ok(())
}

pub fn commit(items: &[u32], state: &mut [u32; 5]) -> Result<(), Refusal>
    ensures given { left_lent (number_in result) items.now state.new ≡ commit_guarded items.now state.old }
    ensures spared { Spared (is_lent items.now state.old) state.old state.new }
    ensures again { LentAgain items.now state.old items.now state.new }
{
    let s = guard::lent(items, state)?;
    *state = crate::commit(items, s)?.numbers();
    Ok(())
}

pub fn abandon(items: &mut [u32], state: &mut [u32; 5]) -> Result<(), Refusal>
    ensures given { left_lent (number_in result) items.new state.new ≡ abandon_guarded items.old state.old }
    ensures spared { Spared (is_lent items.old state.old) state.old state.new }
    ensures untouched { Spared (is_lent items.old state.old) items.old items.new }
    ensures again { LentAgain items.old state.old items.new state.new }
{
    let s = guard::lent(items, state)?;
    *state = crate::abandon(items, s)?.numbers();
    Ok(())
}

// 14 as of an insert.
pub fn return_to(items: &mut [u32], state: &mut [u32; 5], version: u32) -> Result<(), ListRefusal>
    ensures given { left_lent (list_number_in result) items.new state.new
        ≡ return_guarded items.old state.old version }
    ensures spared { Spared (is_lent items.old state.old) state.old state.new }
    ensures untouched { Spared (is_lent items.old state.old) items.old items.new }
    ensures again { LentAgain items.old state.old items.new state.new }
{
    let s = guard::lent(items, state)?;
    guard::return_fits(items, s, version)?;
    *state = crate::return_to(items, s, version)?.numbers();
    Ok(())
}

pub fn prune(items: &mut [u32], state: &mut [u32; 5], version: u32) -> Result<(), Refusal>
    ensures given { left_lent (number_in result) items.new state.new
        ≡ prune_guarded items.old state.old version }
    ensures spared { Spared (is_lent items.old state.old) state.old state.new }
    ensures untouched { Spared (is_lent items.old state.old) items.old items.new }
    ensures again { LentAgain items.old state.old items.new state.new }
{
    let s = guard::lent(items, state)?;
    *state = crate::prune(items, s, version)?.numbers();
    Ok(())
}

pub fn lookup(
    items: &[u32],
    state: &[u32; 5],
    key: u32,
    version: u32,
) -> Result<Option<u32>, Refusal>
    ensures { looked_in result ≡ lookup_guarded items.now state.now key version }
{
    crate::lookup(items, guard::lent(items, state)?, key, version)
}

pub fn range(
    items: &[u32],
    state: &[u32; 5],
    low: u32,
    high: u32,
    version: u32,
    list: &mut [u32],
) -> Result<usize, ListRefusal>
    ensures { listed_in result list.new
        ≡ range_guarded items.now state.now low high version list.old }
{
    crate::range(items, guard::lent(items, state)?, low, high, version, list)
}

pub fn difference(
    items: &[u32],
    state: &[u32; 5],
    old: u32,
    new: u32,
    list: &mut [u32],
) -> Result<usize, ListRefusal>
    ensures { listed_in result list.new
        ≡ difference_guarded items.now state.now old new list.old }
{
    crate::difference(items, guard::lent(items, state)?, old, new, list)
}

pub fn life_of(
    items: &[u32],
    state: &[u32; 5],
    key: u32,
    list: &mut [u32],
) -> Result<usize, ListRefusal>
    ensures { listed_in result list.new ≡ life_guarded items.now state.now key list.old }
{
    crate::life_of(items, guard::lent(items, state)?, key, list)
}
