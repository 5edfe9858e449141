// "The viewer is a reader opened once on a store and one version": a struct that holds the store's slice and the version.
// Its lookups are thin: `value` takes the struct apart and leaves the work to `at`, and `view_value`, whose parameters are plain, serves
// every other caller.
#![tactic(auto)]

ghost use Rattle.std.specs.Prelude.{◌≡◌};
ghost use Rattle.model.specs.Any.{lookup_any};
ghost use Rattle.model.specs.Named.{viewed};
ghost use Rattle.model.specs.Refusals.{number_in, looked_in};

use model::Refusal;
use store::edition_lent;

#[derive(Clone, Copy)]
pub struct Viewer<'a> {
    pub store: &'a [u8],
    pub version: u32,
}

// Whether a viewer of a store at one version may be opened. This is asked first, and `view` then makes it.
pub fn opens(store: &[u8], version: u32) -> Result<(), Refusal>
    ensures { number_in result ≡ viewed store.now version }
{
    let l = edition_lent(store)?;
    near::guard::guard(store, l, false, version)
}

// The work: a lookup, with the viewer's fields in their order.
pub fn at(store: &[u8], version: u32, key: u32) -> Result<Option<u32>, Refusal>
    ensures { looked_in result ≡ lookup_any store.now key version }
{
    calls::lookup(store, key, version)
}

// A viewer of a store at one version.
pub fn view<'a>(store: &'a [u8], version: u32) -> Viewer<'a>
    ensures { (result.store ≡ store.entry) × (result.version ≡ version) }
{
    Viewer { store, version }
}

// What a viewer shows of a key.
pub fn value<'a>(w: Viewer<'a>, key: u32) -> Result<Option<u32>, Refusal>
    ensures { looked_in result ≡ lookup_any w.entry.store.now key w.entry.version }
{
    at(w.store, w.version, key)
}

// A viewer made, and asked once.
pub fn view_value(store: &[u8], version: u32, key: u32) -> Result<Option<u32>, Refusal>
    ensures { looked_in result ≡ lookup_any store.now key version }
{
    value(view(store, version), key)
}
