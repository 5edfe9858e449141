// Rule 2: "Directory versions begin at 0, rise strictly, and are at most last."
ghost use Rattle.std.specs.Prelude.{◌≡◌, ◌+◌, ◌*◌, ◌-◌, ◌^◌, ◌≤◌, ◌<◌, length};
ghost use Rattle.model.specs.Sound.{rule2};
ghost use Rattle.model.specs.Layout.{read_slots, decode};
ghost use Rattle.model.specs.Inner.{first_ok, sooner};
ghost use Rattle.local.specs.Local.{Held, slot_at};
ghost use Rattle.local.specs.Second.{begun, newer};

use model::{Header, Limits};

// The slot behind place i, if there is one, has a higher version.
fn slot_rises(s: &[u8], l: Limits, i: usize, n: usize) -> bool
    requires { (384 * l.least ≤ length s.now) × (length s.now ≤ 2 ^ 21) × (i < n) × (n ≤ 64 * l.least) }
    ensures { result ≡ first_ok sooner (slot_at l.least s.now i)
        (read_slots s.now (512 * l.least + 32 * (i + 1)) (n - (i + 1))) }
{
    n <= i + 1 || store::slot(s, l, i).version < store::slot(s, l, i + 1).version
}

// All of the rule but that the slots behind the first are above the oldest version.
fn slots_begin(s: &[u8], l: Limits, h: Header) -> bool
    requires { Held l.least s.now h }
    ensures { result ≡ begun l.least s.now }
{
    let roots = h.roots as usize;
    let last = h.last();
    0 < roots
        && store::slot(s, l, 0).version <= h.oldest
        && (0..roots).all(|i| store::slot(s, l, i).version <= last && slot_rises(s, l, i, roots))
}

// The slots from slot 1 on are above the oldest version.
fn slots_newer(s: &[u8], l: Limits, h: Header) -> bool
    requires { Held l.least s.now h }
    ensures { result ≡ newer l.least s.now }
{
    (1..h.roots as usize).all(|i| h.oldest < store::slot(s, l, i).version)
}

pub fn second_rule(s: &[u8], l: Limits, h: Header) -> bool
    requires { Held l.least s.now h }
    ensures { result ≡ rule2 (decode l.least s.now) }
{
    slots_begin(s, l, h) && slots_newer(s, l, h)
}
