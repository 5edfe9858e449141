// The C archive: an export for each function of the crate host, with its clauses. include/rcst.h says the same to a C programmer.
#![tactic(auto)]

mod naming;
mod plainly;

ghost use Rattle.std.specs.Prelude.{◌≡◌};
ghost use Rattle.model.specs.Layout.{bit};
ghost use Rattle.model.specs.State.{state_numbers};
ghost use Rattle.model.specs.Calls.{looked_number, looked_found, looked_value};
ghost use Rattle.model.specs.Lent.{leaving, fresh_lent};
ghost use Rattle.model.specs.Any.{judged_any, open_any, insert_any, delete_any, commit_any, abandon_any, return_any, prune_any, lookup_any};
ghost use Rattle.model.specs.Any.{range_any, life_any, difference_any, visits_any, state_any};
ghost use Rattle.model.specs.Convert.{convert_lent};

// Makes a fresh store of edition 1.
#[unsafe(no_mangle)]
pub extern "C" fn rcst_fresh(store: &mut [u8]) -> u32
    ensures number { result ≡ (fresh_lent 4 store.old).number }
    ensures bytes { store.new ≡ (fresh_lent 4 store.old).store }
{
    host::rcst_fresh(store)
}

// Makes a fresh store of edition 2.
#[unsafe(no_mangle)]
pub extern "C" fn rcst_fresh_second(store: &mut [u8]) -> u32
    ensures number { result ≡ (fresh_lent 8 store.old).number }
    ensures bytes { store.new ≡ (fresh_lent 8 store.old).store }
{
    host::rcst_fresh_second(store)
}

// Judges a store; the lowest broken rule goes to `rule`.
#[unsafe(no_mangle)]
pub extern "C" fn rcst_check(store: &[u8], rule: &mut u32) -> u32
    ensures number { result ≡ (judged_any store.now).number }
    ensures broken { rule.new ≡ (judged_any store.now).rule }
{
    host::rcst_check(store, rule)
}

// Opens an update.
#[unsafe(no_mangle)]
pub extern "C" fn rcst_open(store: &mut [u8]) -> u32
    ensures { leaving result store.new ≡ open_any store.old }
{
    host::rcst_open(store)
}

// Inserts a setting in the open update.
#[unsafe(no_mangle)]
pub extern "C" fn rcst_insert(store: &mut [u8], key: u32, value: u32) -> u32
    ensures { leaving result store.new ≡ insert_any store.old key value }
{
    host::rcst_insert(store, key, value)
}

// Deletes a setting in the open update.
#[unsafe(no_mangle)]
pub extern "C" fn rcst_delete(store: &mut [u8], key: u32) -> u32
    ensures { leaving result store.new ≡ delete_any store.old key }
{
    host::rcst_delete(store, key)
}

// Commits the open update.
#[unsafe(no_mangle)]
pub extern "C" fn rcst_commit(store: &mut [u8]) -> u32
    ensures { leaving result store.new ≡ commit_any store.old }
{
    host::rcst_commit(store)
}

// Abandons the open update.
#[unsafe(no_mangle)]
pub extern "C" fn rcst_abandon(store: &mut [u8]) -> u32
    ensures { leaving result store.new ≡ abandon_any store.old }
{
    host::rcst_abandon(store)
}

// Returns to a committed version in the open update.
#[unsafe(no_mangle)]
pub extern "C" fn rcst_return(store: &mut [u8], version: u32) -> u32
    ensures { leaving result store.new ≡ return_any store.old version }
{
    host::rcst_return(store, version)
}

// Makes a committed version the oldest, and drops what ended at or before it.
#[unsafe(no_mangle)]
pub extern "C" fn rcst_prune(store: &mut [u8], version: u32) -> u32
    ensures { leaving result store.new ≡ prune_any store.old version }
{
    host::rcst_prune(store, version)
}

// Converts a store of edition 1 into one of edition 2.
#[unsafe(no_mangle)]
pub extern "C" fn rcst_convert(source: &[u8], target: &mut [u8]) -> u32
    ensures { leaving result target.new ≡ convert_lent source.now target.old }
{
    host::rcst_convert(source, target)
}

// Looks a key up at a version: whether it is alive goes to `found`, its value to `value`.
#[unsafe(no_mangle)]
pub extern "C" fn rcst_lookup(
    store: &[u8],
    key: u32,
    version: u32,
    found: &mut u32,
    value: &mut u32,
) -> u32
    ensures number { result ≡ looked_number (lookup_any store.now key version) }
    ensures alive { found.new ≡ bit (looked_found (lookup_any store.now key version)) }
    ensures setting { value.new ≡ looked_value (lookup_any store.now key version) }
{
    host::rcst_lookup(store, key, version, found, value)
}

// The settings from low to high at a version go to `list`, their number to `count`.
#[unsafe(no_mangle)]
pub extern "C" fn rcst_range(
    store: &[u8],
    low: u32,
    high: u32,
    version: u32,
    list: &mut [u32],
    count: &mut usize,
) -> u32
    ensures number { result ≡ (range_any store.now low high version list.old).number }
    ensures settings { count.new ≡ (range_any store.now low high version list.old).count }
    ensures written { list.new ≡ (range_any store.now low high version list.old).list }
{
    host::rcst_range(store, low, high, version, list, count)
}

// The numbers of the pages that a lookup of a key at a version visits, from the root down, go to `pages`, their number to `count`.
#[unsafe(no_mangle)]
pub extern "C" fn rcst_visits(
    store: &[u8],
    key: u32,
    version: u32,
    pages: &mut [u32],
    count: &mut usize,
) -> u32
    ensures number { result ≡ (visits_any store.now key version pages.old).number }
    ensures visited { count.new ≡ (visits_any store.now key version pages.old).count }
    ensures written { pages.new ≡ (visits_any store.now key version pages.old).list }
{
    host::rcst_visits(store, key, version, pages, count)
}

// What differs from version `old` to version `new` goes to `list`, the number of differences to `count`.
#[unsafe(no_mangle)]
pub extern "C" fn rcst_difference(
    store: &[u8],
    old: u32,
    new: u32,
    list: &mut [u32],
    count: &mut usize,
) -> u32
    ensures number { result ≡ (difference_any store.now old new list.old).number }
    ensures differences { count.new ≡ (difference_any store.now old new list.old).count }
    ensures written { list.new ≡ (difference_any store.now old new list.old).list }
{
    host::rcst_difference(store, old, new, list, count)
}

// The stretches of committed versions in which a key held one value go to `list`, their number to `count`.
#[unsafe(no_mangle)]
pub extern "C" fn rcst_life(store: &[u8], key: u32, list: &mut [u32], count: &mut usize) -> u32
    ensures number { result ≡ (life_any store.now key list.old).number }
    ensures stretches { count.new ≡ (life_any store.now key list.old).count }
    ensures written { list.new ≡ (life_any store.now key list.old).list }
{
    host::rcst_life(store, key, list, count)
}

// What a store tells of itself goes to `state`: page count, current version, 1 if an update is open, roots used, edition, free pages,
// oldest
// version.
#[unsafe(no_mangle)]
pub extern "C" fn rcst_state(store: &[u8], state: &mut [u32; 7]) -> u32
    ensures number { result ≡ (state_any store.now).number }
    ensures told { state.new ≡ state_numbers (state_any store.now) }
{
    host::rcst_state(store, state)
}
