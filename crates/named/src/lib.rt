// Named settings: a layer above the store that knows each key's kind by a table that the caller lends (kinds). It refuses an unknown key
// with 17 and a value that its kind does not admit with 16, before the store sees them, and is else the store's own call.
#![tactic(auto)]

mod ranging;

ghost use Rattle.std.specs.Prelude.{◌≡◌};
ghost use Rattle.model.specs.Named.{insert_named, delete_named, lookup_named, kind_named};
ghost use Rattle.model.specs.Lent.{leaving};
ghost use Rattle.model.specs.Refusals.{number_in, looked_in};

use model::Refusal;
pub use ranging::range;

// Inserts a setting in the open update, if its key is known and its value of the kind.
pub fn insert(s: &mut [u8], table: &[u32], key: u32, value: u32) -> Result<(), Refusal>
    ensures { leaving (number_in result) s.new ≡ insert_named table.now s.old key value }
{
    kinds::allowed(kinds::kind_of(table, key), value)?;
    calls::insert(s, key, value)
}

// Deletes a setting in the open update, if its key is known.
pub fn delete(s: &mut [u8], table: &[u32], key: u32) -> Result<(), Refusal>
    ensures { leaving (number_in result) s.new ≡ delete_named table.now s.old key }
{
    kinds::unknown(kinds::kind_of(table, key))?;
    calls::delete(s, key)
}

// What a viewer shows of a known key. The value is shown as it is, inside its kind's limits or not.
pub fn lookup(s: &[u8], table: &[u32], key: u32, v: u32) -> Result<Option<u32>, Refusal>
    ensures { looked_in result ≡ lookup_named table.now s.now key v }
{
    kinds::unknown(kinds::kind_of(table, key))?;
    viewer::view_value(s, v, key)
}

// What a viewer shows of a key of one kind: 0 a whole number, 1 a switch, 2 a level.
pub fn lookup_kind(
    s: &[u8],
    table: &[u32],
    number: u32,
    key: u32,
    v: u32,
) -> Result<Option<u32>, Refusal>
    ensures { looked_in result ≡ kind_named number table.now s.now key v }
{
    kinds::unlike(number, kinds::kind_of(table, key))?;
    viewer::view_value(s, v, key)
}
