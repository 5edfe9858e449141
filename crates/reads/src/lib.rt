// The calls that read, for any bytes lent and the limits of an edition: each is its guard, which judges the store and then goes through the
// call's refusals in order, and a core that rests on a sound store. Lookup and range on any bytes are near's; a caller that is sure of its
// store has those of sure.rt.
#![tactic(auto)]

mod differing;
mod living;
mod stating;
pub mod sure;
mod visiting;

ghost use Rattle.std.specs.Prelude.{◌≡◌, true};
ghost use Rattle.model.specs.Layout.{decode};
ghost use Rattle.model.specs.Judged.{is_sound};
ghost use Rattle.model.specs.Calls.{first_of};
ghost use Rattle.model.specs.Refusals.{number_in};
ghost use Rattle.reads.specs.Guard.{guarded};
ghost use Rattle.reads.specs.Reading.{reading};

pub use differing::difference_in;
pub use living::life_in;
use model::{Limits, Refusal};
pub(crate) use near::KEYS;
pub use stating::state_in;
pub use visiting::visits_in;

// What a reading of a sound store is refused for: 5 where the key is wrong, then 6.
pub(crate) fn guard_sound(s: &[u8], l: Limits, bad: bool, v: u32) -> Result<(), Refusal>
    requires { is_sound l.least s.now ≡ true }
    ensures { number_in result ≡ first_of (reading bad v (decode l.least s.now)) }
{
    if bad {
        return Err(Refusal::KeyTooLarge);
    }
    let h = store::header(s, l);
    if near::guard::unreadable(h, v) {
        return Err(Refusal::VersionAboveLast);
    }
    Ok(())
}

// The guard of visits: judging, then 5 where the key is wrong, then 6. Offered to callers that read many
// times from a store that nobody writes in between.
pub fn guard_reading(s: &[u8], l: Limits, bad: bool, v: u32) -> Result<(), Refusal>
    ensures { number_in result ≡ guarded l.least s.now (reading bad v) }
{
    quick::judge(s, l)?;
    guard_sound(s, l, bad, v)
}
