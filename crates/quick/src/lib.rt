// Sound or not, found quickly: no walk, and no version by version, so that a million commits cost no more than none.
//
// The tests are those of spans/specs/Quick, which are rules 4 to 6 where rules 1 to 3 hold (spans/proofs/laws/Quick, `quick-rules`). Which
// rule is broken is for the crate `judge`: here the number of check is given, and no more.
#![tactic(auto)]

mod entry;
mod pages;
mod part;
mod routers;
mod slots;
mod sums;
mod under;
mod within;

ghost use Rattle.std.specs.Prelude.{◌≡◌, true, false, ◌+◌, ◌*◌, ◌≤◌, ◌<◌};
ghost use Rattle.model.specs.Layout.{decode, size_of};
ghost use Rattle.model.specs.Sound.{rule6};
ghost use Rattle.model.specs.Refusals.{number_in};
ghost use Rattle.model.specs.Judged.{length_ok, magic_ok, edition_ok, judged};
ghost use Rattle.spans.specs.Quick.{led_right, quick, quick_in};
ghost use Rattle.local.specs.Local.{Sized};
ghost use Rattle.notes.specs.Ready.{Ready};
ghost use Rattle.quick.specs.Good.{QuickGood};
ghost use Rattle.quick.specs.Noted.{ThreeRules};
ghost use Rattle.quick.specs.Number.{refused_by};
ghost use Rattle.quick.specs.Slots.{GoodSlots};
ghost use Rattle.quick.specs.Within.{QuickRight};

use model::{Header, Limits, Refusal};
use within::Stop;

// The sums and the slots: rule 6, once rules 4 and 5 hold (notes/proofs/laws/Six, `six-by`). Each is one pass over the store.
pub fn led(s: &[u8], l: Limits) -> bool
    requires { QuickGood l.least s.now × GoodSlots l.least s.now }
    ensures { result ≡ led_right l.least (decode l.least s.now) }
{
    sums::spans_met(s, l) && slots::slots_fine(s, l)
}

// How many pages `under` may read in all, by the number of pages alone.
fn budget(size: usize) -> u32
    requires { size ≤ 4096 }
    ensures { result ≡ 16 * size + 1024 }
{
    (16 * size + 1024) as u32
}

// The pages, where the sums and the slots are right: what is found is rules 4 to 6, if the budget is not used up.
fn pages_within(s: &[u8], l: Limits) -> Result<u32, Stop>
    requires { QuickGood l.least s.now × GoodSlots l.least s.now }
    ensures { led_right l.least (decode l.least s.now) ≡ true
        → QuickRight (16 * size_of l.least s.now + 1024) (quick l.least (decode l.least s.now)) result }
{
    let h = store::header(s, l);
    pages::pages_fine(s, l, h.oldest, budget(store::size(s, l)))
}

// Whether rules 4 to 6 are found to hold within the budget; `fit` is what `led` gave. Only `true` tells: `false` stands too where the
// budget is used up. For check, which asks the notes in either case, and so asks them once.
pub fn surely(s: &[u8], l: Limits, fit: bool) -> bool
    requires { QuickGood l.least s.now × GoodSlots l.least s.now × (fit ≡ led_right l.least (decode l.least s.now)) }
    ensures { result ≡ true → quick l.least (decode l.least s.now) ≡ true }
{
    fit && pages_within(s, l).is_ok()
}

// Whether rule 6 is found to be broken at v. Only `true` tells: any number may be asked, also one that is no version of the store.
fn missed(s: &[u8], l: Limits, h: Header, v: u32) -> bool
    requires { Ready l.least s.now h }
    ensures { result ≡ true → rule6 (decode l.least s.now) ≡ false }
{
    h.oldest <= v && v <= h.last() && !reach::version_ok(s, l, h, v)
}

// Rules 4 to 6 by the notes, where rules 1 to 3 hold and the sums and the slots are right. Where the pass left because a page had gone out
// of reach, rule 6 is broken there, and the walk finds that out: `broken` is never asked (docs/CHECK-COST.md, argued). That the answer is
// right does not rest on it.
fn by_notes(s: &[u8], l: Limits, h: Header) -> bool
    requires { Ready l.least s.now h × ThreeRules l.least (decode l.least s.now)
        × (led_right l.least (decode l.least s.now) ≡ true) }
    ensures { result ≡ quick l.least (decode l.least s.now) }
{
    match notes::both_hold(s, l, h) {
        Ok(hold) => hold,
        Err(away) => !missed(s, l, h, away) && notes::broken(s, l, h).is_none(),
    }
}

// Rules 4 to 6, where rules 1 to 3 hold. Both ways are exact: the pages within the budget, which is quick on what a history leaves, and,
// where that is used up, the notes, which no bytes can keep busy.
fn quick(s: &[u8], l: Limits, h: Header) -> bool
    requires { QuickGood l.least s.now × GoodSlots l.least s.now × Ready l.least s.now h
        × ThreeRules l.least (decode l.least s.now) }
    ensures { result ≡ quick l.least (decode l.least s.now) }
{
    if !led(s, l) {
        return false;
    }
    match pages_within(s, l) {
        Ok(_) => true,
        Err(Stop::Wrong) => false,
        Err(Stop::UsedUp) => by_notes(s, l, h),
    }
}

// Rules 1 to 7 of lent bytes, which make `size` pages.
fn rules_hold(s: &[u8], l: Limits, size: usize) -> bool
    requires { Sized l.least s.now size }
    ensures { result ≡ quick_in l.least s.now }
{
    if !local::first_rule(s, l, size) {
        return false;
    }
    let h = store::header(s, l);
    local::second_rule(s, l, h)
        && local::third_rule(s, l, h)
        && quick(s, l, h)
        && local::seventh_rule(s, l, h)
}

// What is refused with a number from 1 to 3: the length, the first bytes, the edition.
pub fn refused(s: &[u8], l: Limits) -> Result<(), Refusal>
    ensures { number_in result ≡ refused_by (length_ok l.least s.now) (magic_ok s.now)
        (edition_ok l.least s.now) }
{
    if !store::whole(s, l) {
        return Err(Refusal::WrongLength);
    }
    if !store::named(s) {
        return Err(Refusal::WrongFirstBytes);
    }
    if !store::of_edition(s, l) {
        return Err(Refusal::WrongEdition);
    }
    Ok(())
}

// What check gives for any bytes that are lent, without the rule that `NotSound` comes with.
pub fn judge(s: &[u8], l: Limits) -> Result<(), Refusal>
    ensures { number_in result ≡ (judged l.least s.now).number }
{
    refused(s, l)?;
    let size = store::size(s, l);
    if rules_hold(s, l, size) && local::eighth_rule(s, l, size) {
        Ok(())
    } else {
        Err(Refusal::NotSound)
    }
}
