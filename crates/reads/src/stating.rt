// What a store tells of itself: judged first, and refused by nothing else.
ghost use Rattle.std.specs.Prelude.{◌≡◌, true, Ok};
ghost use Rattle.model.specs.Layout.{decode};
ghost use Rattle.model.specs.Judged.{is_sound};
ghost use Rattle.model.specs.State.{state_of};
ghost use Rattle.model.specs.Lent.{state_lent};
ghost use Rattle.model.specs.Refusals.{state_in};

use model::{Limits, Refusal, State};

// What a sound store tells: the header is read once, and the free pages are counted in one pass over the pages' fronts.
fn told(s: &[u8], l: Limits) -> State
    requires { is_sound l.least s.now ≡ true }
    ensures { state_in (Ok result) ≡ state_of l.least (decode l.least s.now) }
{
    let h = store::header(s, l);
    let size = parts::size_of(s, l);
    State {
        pages: h.pages,
        current: h.current,
        opened: h.opened,
        roots: h.roots,
        edition: model::edition_of(l.least),
        free: parts::count_free(s, l, size) as u32,
        oldest: h.oldest,
    }
}

// Page count, current version, whether an update is open, roots used, edition, free pages and oldest version.
pub fn state_in(s: &[u8], l: Limits) -> Result<State, Refusal>
    ensures { state_in result ≡ state_lent l.least s.now }
{
    quick::judge(s, l)?;
    Ok(told(s, l))
}
