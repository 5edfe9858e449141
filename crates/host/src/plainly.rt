// The plain engine (2026-10) for programs in other languages. A plain store is a list of numbers, four an item, and a state of five: the
// current version, 1 if an update is open, how many items there are, the oldest version and the edition. They are handed on at each call.
ghost use Rattle.std.specs.Prelude.{◌≡◌};
ghost use Rattle.model.specs.Layout.{bit};
ghost use Rattle.model.specs.Calls.{looked_number, looked_found, looked_value};
ghost use Rattle.plain.specs.Guard.{is_state, is_lent, left_lent, insert_guarded, delete_guarded, commit_guarded, abandon_guarded, return_guarded};
ghost use Rattle.plain.specs.Guard.{prune_guarded, lookup_guarded, range_guarded, difference_guarded, life_guarded, OpensGuarded, Spared};
ghost use Rattle.plain.specs.Guard.{StateAgain, LentAgain, list_number_in};

use model::ListRefusal;

// The number of a call that may lack room for its items.
fn list_number(r: Result<(), ListRefusal>) -> u32
    ensures { result ≡ list_number_in r }
{
    match r {
        Ok(()) => 0,
        Err(refusal) => refusal.number(),
    }
}

// Opens an update.
#[unsafe(no_mangle)]
pub extern "C" fn rcst_plain_open(state: &mut [u32; 5]) -> u32
    ensures given { OpensGuarded state.old result state.new }
    ensures spared { Spared (is_state state.old) state.old state.new }
    ensures again { StateAgain state.old state.new }
{
    crate::number(plain::lent::open(state))
}

// Inserts a setting in the open update.
#[unsafe(no_mangle)]
pub extern "C" fn rcst_plain_insert(
    items: &mut [u32],
    state: &mut [u32; 5],
    key: u32,
    value: u32,
) -> u32
    ensures given { left_lent result items.new state.new
        ≡ insert_guarded items.old state.old key value }
    ensures spared { Spared (is_lent items.old state.old) state.old state.new }
    ensures untouched { Spared (is_lent items.old state.old) items.old items.new }
    ensures again { LentAgain items.old state.old items.new state.new }
{
    list_number(plain::lent::insert(items, state, key, value))
}

// Deletes a setting in the open update.
#[unsafe(no_mangle)]
pub extern "C" fn rcst_plain_delete(items: &mut [u32], state: &mut [u32; 5], key: u32) -> u32
    ensures given { left_lent result items.new state.new
        ≡ delete_guarded items.old state.old key }
    ensures spared { Spared (is_lent items.old state.old) state.old state.new }
    ensures untouched { Spared (is_lent items.old state.old) items.old items.new }
    ensures again { LentAgain items.old state.old items.new state.new }
{
    crate::number(plain::lent::delete(items, state, key))
}

// Commits the open update.
#[unsafe(no_mangle)]
pub extern "C" fn rcst_plain_commit(items: &[u32], state: &mut [u32; 5]) -> u32
    ensures given { left_lent result items.now state.new ≡ commit_guarded items.now state.old }
    ensures spared { Spared (is_lent items.now state.old) state.old state.new }
    ensures again { LentAgain items.now state.old items.now state.new }
{
    crate::number(plain::lent::commit(items, state))
}

// Abandons the open update.
#[unsafe(no_mangle)]
pub extern "C" fn rcst_plain_abandon(items: &mut [u32], state: &mut [u32; 5]) -> u32
    ensures given { left_lent result items.new state.new ≡ abandon_guarded items.old state.old }
    ensures spared { Spared (is_lent items.old state.old) state.old state.new }
    ensures untouched { Spared (is_lent items.old state.old) items.old items.new }
    ensures again { LentAgain items.old state.old items.new state.new }
{
    crate::number(plain::lent::abandon(items, state))
}

// Returns to a committed version.
#[unsafe(no_mangle)]
pub extern "C" fn rcst_plain_return(items: &mut [u32], state: &mut [u32; 5], version: u32) -> u32
    ensures given { left_lent result items.new state.new
        ≡ return_guarded items.old state.old version }
    ensures spared { Spared (is_lent items.old state.old) state.old state.new }
    ensures untouched { Spared (is_lent items.old state.old) items.old items.new }
    ensures again { LentAgain items.old state.old items.new state.new }
{
    list_number(plain::lent::return_to(items, state, version))
}

// Drops what ended at or before a committed version: the versions below it are not kept.
#[unsafe(no_mangle)]
pub extern "C" fn rcst_plain_prune(items: &mut [u32], state: &mut [u32; 5], version: u32) -> u32
    ensures given { left_lent result items.new state.new
        ≡ prune_guarded items.old state.old version }
    ensures spared { Spared (is_lent items.old state.old) state.old state.new }
    ensures untouched { Spared (is_lent items.old state.old) items.old items.new }
    ensures again { LentAgain items.old state.old items.new state.new }
{
    crate::number(plain::lent::prune(items, state, version))
}

// Looks a key up at a version: whether it is alive goes to `found`, its value to `value`.
#[unsafe(no_mangle)]
pub extern "C" fn rcst_plain_lookup(
    items: &[u32],
    state: &[u32; 5],
    key: u32,
    version: u32,
    found: &mut u32,
    value: &mut u32,
) -> u32
    ensures number { result ≡ looked_number (lookup_guarded items.now state.now key version) }
    ensures alive { found.new ≡ bit (looked_found (lookup_guarded items.now state.now key version)) }
    ensures setting { value.new ≡ looked_value (lookup_guarded items.now state.now key version) }
{
    crate::looked(
        plain::lent::lookup(items, state, key, version),
        found,
        value,
    )
}

// The settings from low to high at a version go to `list`, their number to `count`.
#[unsafe(no_mangle)]
pub extern "C" fn rcst_plain_range(
    items: &[u32],
    state: &[u32; 5],
    low: u32,
    high: u32,
    version: u32,
    list: &mut [u32],
    count: &mut usize,
) -> u32
    ensures number { result ≡ (range_guarded items.now state.now low high version list.old).number }
    ensures found { count.new ≡ (range_guarded items.now state.now low high version
        list.old).count }
    ensures written { list.new ≡ (range_guarded items.now state.now low high version
        list.old).list }
{
    crate::told(
        plain::lent::range(items, state, low, high, version, list),
        count,
    )
}

// What differs from version `old` to version `new` goes to `list`, the number of differences to `count`.
#[unsafe(no_mangle)]
pub extern "C" fn rcst_plain_difference(
    items: &[u32],
    state: &[u32; 5],
    old: u32,
    new: u32,
    list: &mut [u32],
    count: &mut usize,
) -> u32
    ensures number { result ≡ (difference_guarded items.now state.now old new list.old).number }
    ensures found { count.new ≡ (difference_guarded items.now state.now old new
        list.old).count }
    ensures written { list.new ≡ (difference_guarded items.now state.now old new
        list.old).list }
{
    crate::told(plain::lent::difference(items, state, old, new, list), count)
}

// The stretches of committed versions in which a key held one value go to `list`, their number to `count`.
#[unsafe(no_mangle)]
pub extern "C" fn rcst_plain_life(
    items: &[u32],
    state: &[u32; 5],
    key: u32,
    list: &mut [u32],
    count: &mut usize,
) -> u32
    ensures number { result ≡ (life_guarded items.now state.now key list.old).number }
    ensures found { count.new ≡ (life_guarded items.now state.now key list.old).count }
    ensures written { list.new ≡ (life_guarded items.now state.now key list.old).list }
{
    crate::told(plain::lent::life_of(items, state, key, list), count)
}
