// The page numbers that a group may use.
ghost use Rattle.std.specs.Prelude.{◌≡◌, [], ◌++◌, length, take};
ghost use Rattle.model.specs.Basic.{keep};
ghost use Rattle.model.specs.Rules.{usable};
ghost use Rattle.model.specs.Store.{free_ones};
ghost use Rattle.model.specs.Needs.{actives};
ghost use Rattle.parts.specs.Kept.{ExactBytes, pages_of};
ghost use Rattle.group.specs.Group.{routers_of, Routed};
ghost use Rattle.group.specs.Numbers.{Numbered, numbers_of};

use crate::{Numbers, Routers};
use model::Limits;

// x if a, and y if b. Two flags and two numbers, as `keep` in the contract has them.
fn chosen(a: bool, x: usize, b: bool, y: usize) -> Numbers
    ensures { Numbered result (keep a x (keep b y [])) }
{
    match (a, b) {
        (true, true) => Numbers {
            n: 2,
            first: x,
            second: y,
        },
        (true, false) => Numbers {
            n: 1,
            first: x,
            second: 0,
        },
        (false, true) => Numbers {
            n: 1,
            first: y,
            second: 0,
        },
        (false, false) => Numbers {
            n: 0,
            first: 0,
            second: 0,
        },
    }
}

// "the active ones among those gathered, left first"
pub fn active_ones(s: &[u8], l: Limits, w: u32, rs: Routers) -> Numbers
    requires { ExactBytes l s.now × Routed l s.now rs }
    ensures { Numbered result (actives w (pages_of l s.now) (routers_of rs)) }
{
    let x = rs.first.value as usize;
    let a = parts::is_active(s, l, x, w);
    match rs.second {
        Some(r) => {
            let y = r.value as usize;
            chosen(a, x, parts::is_active(s, l, y, w), y)
        }
        None => chosen(a, x, false, 0),
    }
}

// The lowest two free pages.
fn free_ones(s: &[u8], l: Limits, size: usize) -> Numbers
    requires { ExactBytes l s.now × (size ≡ length (pages_of l s.now)) }
    ensures { Numbered result (take 2 (free_ones (pages_of l s.now))) }
{
    let x = parts::first_free(s, l, 5, size);
    if x == size {
        return chosen(false, 0, false, 0);
    }
    let y = parts::first_free(s, l, x + 1, size);
    chosen(true, x, y < size, y)
}

// The first two of some numbers and others behind them.
fn first_two(u: Numbers, f: Numbers) -> Numbers
    requires { Numbered u (numbers_of u) × Numbered f (numbers_of f) }
    ensures { Numbered result (take 2 (numbers_of u ++ numbers_of f)) }
{
    match u.n {
        0 => f,
        1 => chosen(true, u.first, 1 <= f.n, f.first),
        _ => u,
    }
}

// "The pages used are the active ones among those gathered, left first, then the lowest free pages": the first two of them.
pub fn usable(s: &[u8], l: Limits, w: u32, rs: Routers, size: usize) -> Numbers
    requires { ExactBytes l s.now × Routed l s.now rs × (size ≡ length (pages_of l s.now)) }
    ensures { Numbered result (take 2 (usable w (pages_of l s.now) (routers_of rs))) }
{
    first_two(active_ones(s, l, w, rs), free_ones(s, l, size))
}
