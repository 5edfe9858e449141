// The life of a key: its guard, and then the core.
ghost use Rattle.std.specs.Prelude.{◌≡◌};
ghost use Rattle.model.specs.Lent.{life_lent};
ghost use Rattle.model.specs.Refusals.{listed_in, number_in};
ghost use Rattle.reads.specs.Guard.{guarded};
ghost use Rattle.reads.specs.Living.{living};

use model::{Limits, ListRefusal, Refusal};

// The guard of life: judging, then 5.
fn guard_living(s: &[u8], l: Limits, key: u32) -> Result<(), Refusal>
    ensures { number_in result ≡ guarded l.least s.now (living key) }
{
    quick::judge(s, l)?;
    if crate::KEYS <= key {
        return Err(Refusal::KeyTooLarge);
    }
    Ok(())
}

// Every stretch of committed versions in which a key held one value, oldest first: their number, and start, end and value of each in
// the caller's list.
pub fn life_in(s: &[u8], l: Limits, key: u32, list: &mut [u32]) -> Result<usize, ListRefusal>
    ensures { listed_in result list.new ≡ life_lent l.least s.now key list.old }
{
    guard_living(s, l, key)?;
    life::life(s, l, key, list)
}
