// What is tested of a plain store that another language lends: any five numbers for a state, and any list.
ghost use Rattle.std.specs.Prelude.{◌≡◌, suc, ◌+◌, ◌^◌, ◌<◌, false, MatchResult};
ghost use Rattle.model.specs.declared.refusal.Refusal.TheVariants.{NotSound};
ghost use Rattle.model.specs.Calls.{first_of, is_some, insert_tests};
ghost use Rattle.model.specs.Return.{return_tests};
ghost use Rattle.plain.specs.Plain.{value_at};
ghost use Rattle.plain.specs.Items.{plain_of, from, ItemsHeld};
ghost use Rattle.plain.specs.Guard.{state_numbers, lacks, own_inserts, Reads, Lends, is_lent, Fits};

use crate::{BENCH, State, items, room};
use model::{ListRefusal, Refusal};

// Four numbers for as many items as a state counts to.
const LONGEST: usize = 17179869180;

// Any five numbers: the current version, 1 if the next one is open, how many items, the oldest version and the edition.
impl TryFrom<&[u32; 5]> for State {
    type Error = Refusal;

    ghost try_from_gives = { λ n r. Reads n.now r };

    fn try_from(numbers: &[u32; 5]) -> Result<State, Refusal> {
        let [current, opened, count, oldest, edition] = *numbers;
        if opened <= 1
            && current <= 1048574 - opened
            && oldest <= current
            && (1..=2).contains(&edition)
        {
            Ok(State {
                current,
                opened: opened == 1,
                count: count as usize,
                oldest,
                edition,
            })
        } else {
            Err(Refusal::NotSound)
        }
    }
}

impl State {
    // The five numbers of a state. No `From`: the count has to fit.
    pub fn numbers(self) -> [u32; 5]
        requires { self.count < 2 ^ 32 }
        ensures { result ≡ state_numbers self }
    {
        [
            self.current,
            u32::from(self.opened),
            self.count as u32,
            self.oldest,
            self.edition,
        ]
    }
}

// The state lent, where it is one and the list lent holds its items.
pub fn lent(items: &[u32], state: &[u32; 5]) -> Result<State, Refusal>
    ensures { MatchResult result (Lends items.now state.now)
        (λ r. (is_lent items.now state.now ≡ false) × (r ≡ NotSound)) }
{
    let s = State::try_from(state)?;
    if items.len() <= LONGEST && 4 * s.count <= items.len() {
        Ok(s)
    } else {
        Err(Refusal::NotSound)
    }
}

// 14 where an insert would be done, and the list has not the room for its item.
pub fn insert_fits(items: &[u32], s: State, key: u32) -> Result<(), ListRefusal>
    requires { ItemsHeld s items.now }
    ensures { Fits (lacks items.now (s.count + 1)
        (first_of (insert_tests key s.opened (is_some (value_at key (suc s.current) (from items.now 0 s.count))))))
        result }
{
    if key < BENCH
        && s.opened
        && items.len() < 4 * (s.count + 1)
        && items::value_at(items, s.count, key, s.current + 1).is_none()
    {
        return Err(ListRefusal::TooShort(s.count + 1));
    }
    Ok(())
}

// 14 where a return would be done, and the list has not the room for its inserts.
pub fn return_fits(items: &[u32], s: State, v: u32) -> Result<(), ListRefusal>
    requires { ItemsHeld s items.now }
    ensures { Fits (lacks items.now (s.count + own_inserts (plain_of s items.now) v)
        (first_of (return_tests s.oldest s.current s.opened v))) result }
{
    if s.uncommitted(v) || !s.opened {
        return Ok(());
    }
    let count = s.count + room::comings(items, s.count, s.current + 1, v);
    if items.len() < 4 * count {
        return Err(ListRefusal::TooShort(count));
    }
    Ok(())
}
