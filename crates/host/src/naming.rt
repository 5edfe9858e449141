// Named settings and the viewer for programs in other languages. A viewer is the store, the version and the table of kinds, handed on at
// each call.
ghost use Rattle.std.specs.Prelude.{◌≡◌};
ghost use Rattle.std.specs.Float.Ieee.{of_bits};
ghost use Rattle.std.specs.Float.{binary32};
ghost use Rattle.model.specs.Layout.{bit};
ghost use Rattle.model.specs.Calls.{looked_number, looked_found, looked_value};
ghost use Rattle.model.specs.Kinds.{wrong_row};
ghost use Rattle.model.specs.Named.{insert_named, delete_named, lookup_named, kind_named, range_named, viewed};
ghost use Rattle.model.specs.Lent.{leaving};

// The numbers of the kinds in a table.
const WHOLE: u32 = 0;

const SWITCH: u32 = 1;

const LEVEL: u32 = 2;

// Judges a table of kinds: the first wrong row, counted from 1, or 0.
#[unsafe(no_mangle)]
pub extern "C" fn rcst_kinds_check(table: &[u32]) -> usize
    ensures { result ≡ wrong_row table.now }
{
    kinds::wrong_row(table)
}

// Inserts a setting by its kind: 17, 16, or what the store gives.
#[unsafe(no_mangle)]
pub extern "C" fn rcst_named_insert(store: &mut [u8], table: &[u32], key: u32, value: u32) -> u32
    ensures { leaving result store.new ≡ insert_named table.now store.old key value }
{
    crate::number(named::insert(store, table, key, value))
}

// Deletes a setting with a known key: 17, or what the store gives.
#[unsafe(no_mangle)]
pub extern "C" fn rcst_named_delete(store: &mut [u8], table: &[u32], key: u32) -> u32
    ensures { leaving result store.new ≡ delete_named table.now store.old key }
{
    crate::number(named::delete(store, table, key))
}

// Opens a viewer on a store and one version.
#[unsafe(no_mangle)]
pub extern "C" fn rcst_view_open(store: &[u8], version: u32) -> u32
    ensures { result ≡ viewed store.now version }
{
    crate::number(viewer::opens(store, version))
}

// What a viewer shows of a key, of any kind.
#[unsafe(no_mangle)]
pub extern "C" fn rcst_view_value(
    store: &[u8],
    version: u32,
    table: &[u32],
    key: u32,
    found: &mut u32,
    value: &mut u32,
) -> u32
    ensures number { result ≡ looked_number (lookup_named table.now store.now key version) }
    ensures alive { found.new ≡ bit (looked_found (lookup_named table.now store.now key version)) }
    ensures setting { value.new ≡ looked_value (lookup_named table.now store.now key version) }
{
    crate::looked(named::lookup(store, table, key, version), found, value)
}

// What a viewer shows of a key that is a whole number.
#[unsafe(no_mangle)]
pub extern "C" fn rcst_view_whole(
    store: &[u8],
    version: u32,
    table: &[u32],
    key: u32,
    found: &mut u32,
    value: &mut u32,
) -> u32
    ensures number { result ≡ looked_number (kind_named 0 table.now store.now key version) }
    ensures alive { found.new ≡ bit (looked_found (kind_named 0 table.now store.now key version)) }
    ensures setting { value.new ≡ looked_value (kind_named 0 table.now store.now key version) }
{
    crate::looked(
        named::lookup_kind(store, table, WHOLE, key, version),
        found,
        value,
    )
}

// What a viewer shows of a key that is a switch.
#[unsafe(no_mangle)]
pub extern "C" fn rcst_view_switch(
    store: &[u8],
    version: u32,
    table: &[u32],
    key: u32,
    found: &mut u32,
    value: &mut u32,
) -> u32
    ensures number { result ≡ looked_number (kind_named 1 table.now store.now key version) }
    ensures alive { found.new ≡ bit (looked_found (kind_named 1 table.now store.now key version)) }
    ensures setting { value.new ≡ looked_value (kind_named 1 table.now store.now key version) }
{
    crate::looked(
        named::lookup_kind(store, table, SWITCH, key, version),
        found,
        value,
    )
}

// What a viewer shows of a key that is a level: the float's bits, and the float.
#[unsafe(no_mangle)]
pub extern "C" fn rcst_view_level(
    store: &[u8],
    version: u32,
    table: &[u32],
    key: u32,
    found: &mut u32,
    bits: &mut u32,
    level: &mut f32,
) -> u32
    ensures number { result ≡ looked_number (kind_named 2 table.now store.now key version) }
    ensures alive { found.new ≡ bit (looked_found (kind_named 2 table.now store.now key version)) }
    ensures setting { bits.new ≡ looked_value (kind_named 2 table.now store.now key version) }
    ensures float { level.new ≡ of_bits binary32
        (looked_value (kind_named 2 table.now store.now key version)) }
{
    let r = named::lookup_kind(store, table, LEVEL, key, version);
    let number = crate::looked(r, found, bits);
    *level = kinds::float_of(*bits);
    number
}

// The settings from low to high that a viewer shows, if each has a known key, go to `list`, their number to `count`.
#[unsafe(no_mangle)]
pub extern "C" fn rcst_view_range(
    store: &[u8],
    version: u32,
    table: &[u32],
    low: u32,
    high: u32,
    list: &mut [u32],
    count: &mut usize,
) -> u32
    ensures number { result ≡ (range_named table.now store.now low high version list.old).number }
    ensures settings { count.new ≡ (range_named table.now store.now low high version
        list.old).count }
    ensures written { list.new ≡ (range_named table.now store.now low high version
        list.old).list }
{
    crate::told(named::range(store, table, low, high, version, list), count)
}
