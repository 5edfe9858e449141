// The guard of a reading: 1, 2, 3, 4 by the header and the slots, 5 and 6.
ghost use Rattle.std.specs.Prelude.{◌≡◌, ◌^◌, ◌<◌};
ghost use Rattle.model.specs.Store.{last_of};
ghost use Rattle.model.specs.Calls.{beyond, bad_range};
ghost use Rattle.model.specs.Refusals.{number_in};
ghost use Rattle.near.specs.Early.{fronted, guarded};

use model::{Header, Limits, Refusal};
pub use walk::KEYS;

// 1, 2, 3, and 4 by the header and the slots.
fn front(s: &[u8], l: Limits) -> Result<(), Refusal>
    ensures { number_in result ≡ fronted l.least s.now }
{
    if !store::whole(s, l) {
        return Err(Refusal::WrongLength);
    }
    if !store::named(s) {
        return Err(Refusal::WrongFirstBytes);
    }
    if !store::of_edition(s, l) {
        return Err(Refusal::WrongEdition);
    }
    if !local::front_right(s, l, store::size(s, l)) {
        return Err(Refusal::NotSound);
    }
    Ok(())
}

// 6: "version above last", or below the oldest.
pub fn unreadable(h: Header, v: u32) -> bool
    requires { h.current < 2 ^ 20 }
    ensures { result ≡ beyond (last_of h.opened h.current) h.oldest v }
{
    h.last() < v || v < h.oldest
}

// "With 5 or 6 only the header and the slots are judged first."
pub fn guard(s: &[u8], l: Limits, bad: bool, v: u32) -> Result<(), Refusal>
    ensures { number_in result ≡ guarded l.least s.now bad v }
{
    front(s, l)?;
    if bad {
        return Err(Refusal::KeyTooLarge);
    }
    if unreadable(store::header(s, l), v) {
        return Err(Refusal::VersionAboveLast);
    }
    Ok(())
}

// Whether a range's keys are wrong: "key too large, or range low above high".
pub fn bad_range(low: u32, high: u32) -> bool
    ensures { result ≡ bad_range low high }
{
    KEYS <= low || KEYS <= high || high < low
}
