// Which edition lent bytes are of: found before the length is judged, since a page's bytes are the edition's.
ghost use Rattle.std.specs.Prelude.{◌≡◌};
ghost use Rattle.store.specs.Editions.{lent_as, lent_in};

use model::{Limits, Refusal};

// "fewer than five bytes gives 1; otherwise 2, then 3"
pub fn edition_lent(s: &[u8]) -> Result<Limits, Refusal>
    ensures { lent_in result ≡ lent_as s.now }
{
    if s.len() < 5 {
        return Err(Refusal::WrongLength);
    }
    if !crate::named(s) {
        return Err(Refusal::WrongFirstBytes);
    }
    match s[4] {
        1 => Ok(model::edition_one()),
        2 => Ok(model::edition_two()),
        _ => Err(Refusal::WrongEdition),
    }
}
