// The calls for programs in other languages: numbers and byte slices, any of them. include/rcst.h says the same to a C programmer. A library
// exports no symbols, whatever its attributes say: the crate host_c exports these.
#![tactic(auto)]

pub mod naming;
pub mod plainly;

ghost use Rattle.std.specs.Prelude.{◌≡◌, ℕ, List};
ghost use Rattle.model.specs.Layout.{bit};
ghost use Rattle.model.specs.State.{state_numbers};
ghost use Rattle.model.specs.Calls.{looked_number, looked_found, looked_value};
ghost use Rattle.model.specs.Lent.{leaving, fresh_lent};
ghost use Rattle.model.specs.Any.{judged_any, open_any, insert_any, delete_any, commit_any, abandon_any, return_any, prune_any, lookup_any};
ghost use Rattle.model.specs.Any.{range_any, life_any, difference_any, visits_any, state_any};
ghost use Rattle.model.specs.Convert.{convert_lent};
ghost use Rattle.model.specs.Refusals.{number_in, looked_in, listed_in};

use model::{ListRefusal, Refusal};

// What a call gives that is done or refused.
fn number(r: Result<(), Refusal>) -> u32
    ensures { result ≡ number_in r }
{
    match r {
        Ok(()) => 0,
        Err(e) => e.number(),
    }
}

// Makes a fresh store of edition 1.
#[unsafe(no_mangle)]
pub extern "C" fn rcst_fresh(store: &mut [u8]) -> u32
    ensures number { result ≡ (fresh_lent 4 store.old).number }
    ensures bytes { store.new ≡ (fresh_lent 4 store.old).store }
{
    number(store::fresh(store))
}

// Makes a fresh store of edition 2.
#[unsafe(no_mangle)]
pub extern "C" fn rcst_fresh_second(store: &mut [u8]) -> u32
    ensures number { result ≡ (fresh_lent 8 store.old).number }
    ensures bytes { store.new ≡ (fresh_lent 8 store.old).store }
{
    number(store::fresh_second(store))
}

// Judges a store; the lowest broken rule goes to `rule`.
#[unsafe(no_mangle)]
pub extern "C" fn rcst_check(store: &[u8], rule: &mut u32) -> u32
    ensures number { result ≡ (judged_any store.now).number }
    ensures broken { rule.new ≡ (judged_any store.now).rule }
{
    let (broken, number) = match judge::check(store) {
        Ok(()) => (0, 0),
        Err(fault) => (fault.rule(), fault.number()),
    };
    *rule = broken;
    number
}

// Opens an update.
#[unsafe(no_mangle)]
pub extern "C" fn rcst_open(store: &mut [u8]) -> u32
    ensures { leaving result store.new ≡ open_any store.old }
{
    number(calls::open(store))
}

// Inserts a setting in the open update.
#[unsafe(no_mangle)]
pub extern "C" fn rcst_insert(store: &mut [u8], key: u32, value: u32) -> u32
    ensures { leaving result store.new ≡ insert_any store.old key value }
{
    number(calls::insert(store, key, value))
}

// Deletes a setting in the open update.
#[unsafe(no_mangle)]
pub extern "C" fn rcst_delete(store: &mut [u8], key: u32) -> u32
    ensures { leaving result store.new ≡ delete_any store.old key }
{
    number(calls::delete(store, key))
}

// Commits the open update.
#[unsafe(no_mangle)]
pub extern "C" fn rcst_commit(store: &mut [u8]) -> u32
    ensures { leaving result store.new ≡ commit_any store.old }
{
    number(calls::commit(store))
}

// Abandons the open update.
#[unsafe(no_mangle)]
pub extern "C" fn rcst_abandon(store: &mut [u8]) -> u32
    ensures { leaving result store.new ≡ abandon_any store.old }
{
    number(calls::abandon(store))
}

// Returns to a committed version in the open update.
#[unsafe(no_mangle)]
pub extern "C" fn rcst_return(store: &mut [u8], version: u32) -> u32
    ensures { leaving result store.new ≡ return_any store.old version }
{
    number(calls::return_to(store, version))
}

// Makes a committed version the oldest, and drops what ended at or before it.
#[unsafe(no_mangle)]
pub extern "C" fn rcst_prune(store: &mut [u8], version: u32) -> u32
    ensures { leaving result store.new ≡ prune_any store.old version }
{
    number(calls::prune(store, version))
}

// Converts a store of edition 1 into one of edition 2.
#[unsafe(no_mangle)]
pub extern "C" fn rcst_convert(source: &[u8], target: &mut [u8]) -> u32
    ensures { leaving result target.new ≡ convert_lent source.now target.old }
{
    number(convert::convert(source, target))
}

// A lookup's answer, in the caller's two numbers.
fn looked(r: Result<Option<u32>, Refusal>, found: &mut u32, value: &mut u32) -> u32
    ensures number { result ≡ looked_number (looked_in r) }
    ensures alive { found.new ≡ bit (looked_found (looked_in r)) }
    ensures setting { value.new ≡ looked_value (looked_in r) }
{
    let (alive, setting, number) = match r {
        Ok(Some(x)) => (1, x, 0),
        Ok(None) => (0, 0, 0),
        Err(e) => (0, 0, e.number()),
    };
    *found = alive;
    *value = setting;
    number
}

// How many a list tells, in the caller's number.
fn told(r: Result<usize, ListRefusal>, count: &mut usize) -> u32
    ensures number { (ns : List ℕ) → result ≡ (listed_in r ns).number }
    ensures counted { (ns : List ℕ) → count.new ≡ (listed_in r ns).count }
{
    let (n, number) = match r {
        Ok(n) => (n, 0),
        Err(e) => (e.count(), e.number()),
    };
    *count = n;
    number
}

// Looks a key up at a version: whether it is alive goes to `found`, its value to `value`.
#[unsafe(no_mangle)]
pub extern "C" fn rcst_lookup(
    store: &[u8],
    key: u32,
    version: u32,
    found: &mut u32,
    value: &mut u32,
) -> u32
    ensures number { result ≡ looked_number (lookup_any store.now key version) }
    ensures alive { found.new ≡ bit (looked_found (lookup_any store.now key version)) }
    ensures setting { value.new ≡ looked_value (lookup_any store.now key version) }
{
    looked(calls::lookup(store, key, version), found, value)
}

// The settings from low to high at a version go to `list`, their number to `count`.
#[unsafe(no_mangle)]
pub extern "C" fn rcst_range(
    store: &[u8],
    low: u32,
    high: u32,
    version: u32,
    list: &mut [u32],
    count: &mut usize,
) -> u32
    ensures number { result ≡ (range_any store.now low high version list.old).number }
    ensures settings { count.new ≡ (range_any store.now low high version list.old).count }
    ensures written { list.new ≡ (range_any store.now low high version list.old).list }
{
    told(calls::range(store, low, high, version, list), count)
}

// The numbers of the pages that a lookup of a key at a version visits, from the root down, go to `pages`, their number to `count`.
#[unsafe(no_mangle)]
pub extern "C" fn rcst_visits(
    store: &[u8],
    key: u32,
    version: u32,
    pages: &mut [u32],
    count: &mut usize,
) -> u32
    ensures number { result ≡ (visits_any store.now key version pages.old).number }
    ensures visited { count.new ≡ (visits_any store.now key version pages.old).count }
    ensures written { pages.new ≡ (visits_any store.now key version pages.old).list }
{
    told(calls::visits(store, key, version, pages), count)
}

// What differs from version `old` to version `new` goes to `list`, the number of differences to `count`.
#[unsafe(no_mangle)]
pub extern "C" fn rcst_difference(
    store: &[u8],
    old: u32,
    new: u32,
    list: &mut [u32],
    count: &mut usize,
) -> u32
    ensures number { result ≡ (difference_any store.now old new list.old).number }
    ensures differences { count.new ≡ (difference_any store.now old new list.old).count }
    ensures written { list.new ≡ (difference_any store.now old new list.old).list }
{
    told(calls::difference(store, old, new, list), count)
}

// The stretches of committed versions in which a key held one value go to `list`, their number to `count`.
#[unsafe(no_mangle)]
pub extern "C" fn rcst_life(store: &[u8], key: u32, list: &mut [u32], count: &mut usize) -> u32
    ensures number { result ≡ (life_any store.now key list.old).number }
    ensures stretches { count.new ≡ (life_any store.now key list.old).count }
    ensures written { list.new ≡ (life_any store.now key list.old).list }
{
    told(calls::life(store, key, list), count)
}

// What a store tells of itself goes to `state`: page count, current version, 1 if an update is open, roots used, edition, free pages,
// oldest version.
#[unsafe(no_mangle)]
pub extern "C" fn rcst_state(store: &[u8], state: &mut [u32; 7]) -> u32
    ensures number { result ≡ (state_any store.now).number }
    ensures told { state.new ≡ state_numbers (state_any store.now) }
{
    match calls::state(store) {
        Ok(t) => {
            *state = [
                t.pages,
                t.current,
                u32::from(t.opened),
                t.roots,
                t.edition,
                t.free,
                t.oldest,
            ];
            0
        }
        Err(e) => {
            *state = [0; 7];
            e.number()
        }
    }
}
