// The items in the lent list, four numbers each: key, start, end, value. The list has room for more, so how many there are goes beside it.
ghost use Rattle.std.specs.Prelude.{◌≡◌, ◌&&◌, ◌+◌, ◌*◌, ◌≤◌, eqb, length};
ghost use Rattle.model.specs.Entry.{live_at};
ghost use Rattle.model.specs.Refusals.{found_in};
ghost use Rattle.plain.specs.Plain.{value_at};
ghost use Rattle.plain.specs.Items.{item, from};
ghost use Rattle.plain.specs.Laid.{laid};

use model::Entry;

pub fn item(items: &[u32], i: usize) -> Entry
    requires { 4 * i + 4 ≤ length items.now }
    ensures { result ≡ item items.now i }
{
    Entry {
        key: items[4 * i],
        start: items[4 * i + 1],
        end: items[4 * i + 2],
        value: items[4 * i + 3],
    }
}

// Whether it is an item of the key, alive at v.
pub fn says(e: Entry, key: u32, v: u32) -> bool
    ensures { result ≡ (eqb e.key key && live_at v e) }
{
    e.key == key && e.start <= v && v < e.end
}

// The value of a key at v: that of the first item that says it.
pub fn value_at(items: &[u32], n: usize, key: u32, v: u32) -> Option<u32>
    requires { 4 * n ≤ length items.now }
    ensures { found_in result ≡ value_at key v (from items.now 0 n) }
{
    for i in 0..n {
        let e = item(items, i);
        if says(e, key, v) {
            return Some(e.value);
        }
    }
    None
}

// An item at a place.
pub fn put(items: &mut [u32], i: usize, e: Entry)
    requires { 4 * i + 4 ≤ length items.old }
    ensures { items.new ≡ laid items.old i e }
{
    items[4 * i] = e.key;
    items[4 * i + 1] = e.start;
    items[4 * i + 2] = e.end;
    items[4 * i + 3] = e.value;
}
