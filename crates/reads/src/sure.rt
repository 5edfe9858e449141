// The readings for a caller that may be sure of a sound store, as one is that made it and changes it by these calls alone ("checking once
// for a run of commands"): it is spared the judging, and the answers and the bytes are the same. One that is not sure is judged.
ghost use Rattle.std.specs.Prelude.{◌≡◌, true};
ghost use Rattle.model.specs.Judged.{is_sound};
ghost use Rattle.model.specs.Lent.{lookup_lent, range_lent};
ghost use Rattle.model.specs.Refusals.{listed_in, looked_in};
ghost use Rattle.reads.specs.Guard.{Sure};

use model::{Limits, ListRefusal, Refusal};

// "lookup(s, key, version)": on a sound store 5, then 6, then the walk.
pub fn lookup(s: &[u8], l: Limits, key: u32, v: u32, sure: bool) -> Result<Option<u32>, Refusal>
    requires { Sure l s.now sure }
    ensures { looked_in result ≡ lookup_lent l.least s.now key v }
{
    if !sure {
        return near::lookup(s, l, key, v);
    }
    crate::guard_sound(s, l, crate::KEYS <= key, v)?;
    Ok(walk::lookup(s, l, key, v))
}

// The settings from low to high, for a caller that is sure: near's range keeps a table of 688 kB and more on the stack for bytes made to
// keep it busy, which a sound store never asks for.
pub fn range(
    s: &[u8],
    l: Limits,
    low: u32,
    high: u32,
    v: u32,
    list: &mut [u32],
) -> Result<usize, ListRefusal>
    requires { is_sound l.least s.now ≡ true }
    ensures { listed_in result list.new ≡ range_lent l.least s.now low high v list.old }
{
    crate::guard_sound(s, l, near::guard::bad_range(low, high), v)?;
    near::sound_range(s, l, low, high, v, list)
}
