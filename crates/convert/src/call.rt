// The call, for any bytes lent as source and as target: its refusals in order, then the core.
ghost use Rattle.std.specs.Prelude.{◌≡◌, true};
ghost use Rattle.model.specs.Judged.{is_sound, length_ok};
ghost use Rattle.model.specs.Calls.{first_of};
ghost use Rattle.model.specs.Lent.{leaving};
ghost use Rattle.model.specs.Convert.{convert_tests, convert_lent};
ghost use Rattle.model.specs.Refusals.{number_in};
ghost use Rattle.convert.specs.Whole.{converted_to};

use model::Refusal;

// "fewer than five bytes gives 1; otherwise 2, then 3, then 1 by the edition's page size, then the rest as before"; "A source not of
// edition 1 gives 3, one with an update open 8, a target of the wrong length 1."
fn guard(s: &[u8], t: &[u8]) -> Result<(), Refusal>
    ensures { number_in result ≡ first_of (convert_tests s.now t.now) }
{
    if s.len() < 5 {
        return Err(Refusal::WrongLength);
    }
    if !store::named(s) {
        return Err(Refusal::WrongFirstBytes);
    }
    if s[4] != 1 {
        return Err(Refusal::WrongEdition);
    }
    if !store::whole(t, model::edition_two()) {
        return Err(Refusal::WrongLength);
    }
    let k = model::edition_one();
    quick::judge(s, k)?;
    if store::header(s, k).opened {
        return Err(Refusal::UpdateAlreadyOpen);
    }
    Ok(())
}

// A fresh target, and the replay into it. "Where the replay gives 12 or 13, so does the converter, and the target is then a fresh edition 2
// store".
fn convert_in(s: &[u8], t: &mut [u8]) -> Result<(), Refusal>
    requires { (is_sound 4 s.now ≡ true) × (length_ok 8 t.old ≡ true) }
    ensures { leaving (number_in result) t.new ≡ converted_to s.now t.old }
{
    // the target is as long as its edition asks, so making it fresh is not refused
    let _ = store::fresh_second(t);
    match crate::replay(s, model::edition_one(), t, model::edition_two()) {
        Ok(()) => Ok(()),
        Err(r) => {
            let _ = store::fresh_second(t);
            Err(r)
        }
    }
}

// Makes the target a store of edition 2 in which every committed version of the source, a store of edition 1, reads the same. The source is
// only read.
pub fn convert(s: &[u8], t: &mut [u8]) -> Result<(), Refusal>
    ensures { leaving (number_in result) t.new ≡ convert_lent s.now t.old }
{
    guard(s, t)?;
    convert_in(s, t)
}
