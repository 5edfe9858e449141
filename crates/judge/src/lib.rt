// Judges a store that is lent: `check`, for any bytes, and the same over the limits of an edition.
//
// The rules are asked from 1 on, each "on its own, once all lower ones hold", to tell the lowest broken one; a store that `quick` surely
// finds sound is asked for no more. What it costs is told in docs/CHECK-COST.md.
#![tactic(auto)]

ghost use Rattle.std.specs.Prelude.{◌≡◌};
ghost use Rattle.model.specs.Inner.{lower_in};
ghost use Rattle.model.specs.Refusals.{verdict_in};
ghost use Rattle.model.specs.Judged.{broken_in, ruled, judged};
ghost use Rattle.model.specs.Any.{judged_any};
ghost use Rattle.local.specs.Local.{Sized};

use model::{Fault, Limits};

// The lowest rule from 1 to 7 that the bytes break. Where `quick` does not find rules 4 to 6 to hold, rules 4 and 5 are named by the notes,
// in one pass. Rule 6 is first looked for at the last version, by the reach walk, and then at every other by the sums and the slots.
fn lower(s: &[u8], l: Limits, size: usize) -> Result<(), Fault>
    requires { Sized l.least s.now size }
    ensures { verdict_in result ≡ ruled (lower_in l.least s.now) }
{
    if !local::first_rule(s, l, size) {
        return Err(Fault::Broken(1));
    }
    let h = store::header(s, l);
    if !local::second_rule(s, l, h) {
        return Err(Fault::Broken(2));
    }
    if !local::third_rule(s, l, h) {
        return Err(Fault::Broken(3));
    }
    let fit = quick::led(s, l);
    if !quick::surely(s, l, fit) {
        if let Some(rule) = notes::broken(s, l, h) {
            return Err(Fault::Broken(rule));
        }
        if !reach::version_ok(s, l, h, h.last()) || !fit {
            return Err(Fault::Broken(6));
        }
    }
    if !local::seventh_rule(s, l, h) {
        return Err(Fault::Broken(7));
    }
    Ok(())
}

// The lowest rule that the bytes break: rule 8 is tested last.
fn broken(s: &[u8], l: Limits, size: usize) -> Result<(), Fault>
    requires { Sized l.least s.now size }
    ensures { verdict_in result ≡ ruled (broken_in l.least s.now) }
{
    lower(s, l, size)?;
    if !local::eighth_rule(s, l, size) {
        return Err(Fault::Broken(8));
    }
    Ok(())
}

// What any bytes that are lent break: the first of the numbers 1 to 3, or the lowest broken rule.
pub fn judge_in(s: &[u8], l: Limits) -> Result<(), Fault>
    ensures { verdict_in result ≡ judged l.least s.now }
{
    quick::refused(s, l)?;
    broken(s, l, store::size(s, l))
}

// Judging by the edition lent.
pub fn check(s: &[u8]) -> Result<(), Fault>
    ensures { verdict_in result ≡ judged_any s.now }
{
    let l = store::edition_lent(s)?;
    judge_in(s, l)
}
