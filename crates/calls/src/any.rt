// The offered calls, for stores of either edition: the edition that the bytes name is found first, with 1 for fewer than five bytes, 2
// and 3, and then the call is made by its limits.
ghost use Rattle.std.specs.Prelude.{◌≡◌};
ghost use Rattle.model.specs.Lent.{leaving};
ghost use Rattle.model.specs.Any.{open_any, insert_any, delete_any, commit_any, abandon_any, return_any, prune_any, lookup_any, range_any};
ghost use Rattle.model.specs.Any.{visits_any, difference_any, life_any, state_any};
ghost use Rattle.model.specs.Refusals.{number_in, listed_in, looked_in, state_in};

use model::{ListRefusal, Refusal, State};
use store::edition_lent;

// Opens an update.
pub fn open(s: &mut [u8]) -> Result<(), Refusal>
    ensures { leaving (number_in result) s.new ≡ open_any s.old }
{
    let l = edition_lent(s)?;
    changes::open_in(s, l)
}

// Commits the open update, unless its settings are the current version's.
pub fn commit(s: &mut [u8]) -> Result<(), Refusal>
    ensures { leaving (number_in result) s.new ≡ commit_any s.old }
{
    let l = edition_lent(s)?;
    changes::commit_in(s, l)
}

// Abandons the open update.
pub fn abandon(s: &mut [u8]) -> Result<(), Refusal>
    ensures { leaving (number_in result) s.new ≡ abandon_any s.old }
{
    let l = edition_lent(s)?;
    changes::abandon_in(s, l)
}

// Inserts a setting in the open update.
pub fn insert(s: &mut [u8], key: u32, value: u32) -> Result<(), Refusal>
    ensures { leaving (number_in result) s.new ≡ insert_any s.old key value }
{
    let l = edition_lent(s)?;
    changes::insert_in(s, l, key, value)
}

// Deletes a setting in the open update.
pub fn delete(s: &mut [u8], key: u32) -> Result<(), Refusal>
    ensures { leaving (number_in result) s.new ≡ delete_any s.old key }
{
    let l = edition_lent(s)?;
    changes::delete_in(s, l, key)
}

// Returns to version v in the open update: its settings become those of that version; with 12 or 13 the update is abandoned.
pub fn return_to(s: &mut [u8], v: u32) -> Result<(), Refusal>
    ensures { leaving (number_in result) s.new ≡ return_any s.old v }
{
    let l = edition_lent(s)?;
    changes::return_in(s, l, v)
}

// Makes version v the oldest: pages that ended at or before it are freed, slots not needed from it on go, and versions before it can be
// read no more. Edition 1 has no oldest version, and gives 3.
pub fn prune(s: &mut [u8], v: u32) -> Result<(), Refusal>
    ensures { leaving (number_in result) s.new ≡ prune_any s.old v }
{
    let l = edition_lent(s)?;
    changes::prune_in(s, l, v)
}

// "lookup(s, key, version)": the value at the version, that the key is absent, or a number.
pub fn lookup(s: &[u8], key: u32, v: u32) -> Result<Option<u32>, Refusal>
    ensures { looked_in result ≡ lookup_any s.now key v }
{
    near::lookup(s, edition_lent(s)?, key, v)
}

// The settings from low to high, both included, in key order: their number, and key, value, key, value in the caller's list.
pub fn range(s: &[u8], low: u32, high: u32, v: u32, list: &mut [u32]) -> Result<usize, ListRefusal>
    ensures { listed_in result list.new ≡ range_any s.now low high v list.old }
{
    near::range(s, edition_lent(s)?, low, high, v, list)
}

// The numbers of the pages that a lookup of a key at a version visits, from the root down to the leaf: how many they are, and they
// themselves in the caller's list.
pub fn visits(s: &[u8], key: u32, v: u32, list: &mut [u32]) -> Result<usize, ListRefusal>
    ensures { listed_in result list.new ≡ visits_any s.now key v list.old }
{
    reads::visits_in(s, edition_lent(s)?, key, v, list)
}

// What differs from the old version to the new, in key order: how many differences there are, and key, kind (0 added, 1 removed, 2
// changed), old value and new value of each in the caller's list.
pub fn difference(s: &[u8], old: u32, new: u32, list: &mut [u32]) -> Result<usize, ListRefusal>
    ensures { listed_in result list.new ≡ difference_any s.now old new list.old }
{
    reads::difference_in(s, edition_lent(s)?, old, new, list)
}

// Every stretch of committed versions in which a key held one value, oldest first: their number, and start, end and value of each in
// the caller's list.
pub fn life(s: &[u8], key: u32, list: &mut [u32]) -> Result<usize, ListRefusal>
    ensures { listed_in result list.new ≡ life_any s.now key list.old }
{
    reads::life_in(s, edition_lent(s)?, key, list)
}

// What a store tells of itself: page count, current version, whether an update is open, roots used, edition, free pages and oldest
// version.
pub fn state(s: &[u8]) -> Result<State, Refusal>
    ensures { state_in result ≡ state_any s.now }
{
    reads::state_in(s, edition_lent(s)?)
}
