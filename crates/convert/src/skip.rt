// Versions in which nothing of the source starts or ends are not replayed one by one: the target's header goes on to the last of them in
// one step.
ghost use Rattle.std.specs.Prelude.{◌≡◌, true, ◌+◌, ◌-◌, ◌^◌, ◌≤◌, ◌<◌};
ghost use Rattle.model.specs.Layout.{read_header, decode, encode};
ghost use Rattle.model.specs.Judged.{is_sound};
ghost use Rattle.notes.specs.Ready.{BehindUpto, QuietSlots};
ghost use Rattle.convert.specs.Version.{Replaying};
ghost use Rattle.convert.specs.Skip.{moved, Still, Skipped};

use model::{Header, Limits};

// A version up to r such that no slot has one before it and behind v.
fn slots_change(s: &[u8], k: Limits, h: Header, v: u32, r: u32) -> u32
    requires { (is_sound k.least s.now ≡ true) × (h ≡ read_header k.least s.now) × (v < r) }
    ensures { BehindUpto v r result × QuietSlots k.least s.now h v result }
{
    let mut q = r;
    for i in 0..h.roots as usize {
        q = notes::sooner(v, q, store::slot(s, k, i).version);
    }
    q
}

// A version up to r such that nothing starts or ends before it and behind v.
fn next_change(s: &[u8], k: Limits, v: u32, r: u32) -> u32
    requires { (is_sound k.least s.now ≡ true) × (v < r) }
    ensures { BehindUpto v r result × Still k.least s.now v result }
{
    let h = store::header(s, k);
    let size = store::size(s, k);
    let mut q = slots_change(s, k, h, v, r);
    for n in 5..size {
        q = reach::page_change(store::part(s, k, n), k, v, q);
    }
    q
}

// The header at version w, with no update open.
fn move_on(t: &mut [u8], l: Limits, w: u32)
    requires { (is_sound l.least t.old ≡ true) × (w < 2 ^ 20) }
    ensures { t.new ≡ encode l.least (moved w (decode l.least t.old)) }
{
    let h = store::header(t, l);
    store::put_header(t, l, h.with_version(w).with_flag(false));
}

// From version v on to the last one, up to the source's current version c, that reads as it does; gives that version.
pub fn skip(s: &[u8], k: Limits, t: &mut [u8], l: Limits, v: u32, c: u32) -> u32
    requires { Replaying k s.now l t.old v × (c ≡ (decode k.least s.now).current) × (v ≤ c) }
    ensures { Skipped k s.now l t.old t.new v result }
{
    let w = next_change(s, k, v, c + 1) - 1;
    move_on(t, l, w);
    w
}
