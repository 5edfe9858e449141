// Answers as text: the first, and the settings behind it.
ghost use Rattle.std.specs.Prelude.{◌∷◌, ◌+◌, ◌*◌, ◌≤◌, length, take};
ghost use Rattle.model.specs.Basic.{flat_map};
ghost use Rattle.lines.specs.Answers.{text_of, Put};
ghost use Rattle.lines.specs.Session.{settings};

use lines::Answer;

// "`5 50`, `9 90`": a line a setting.
fn show_settings(list: &[u32], count: usize, out: &mut [u8], at: usize) -> usize
    requires { (2 * count ≤ length list.now) × (at + 22 * count ≤ length out.old) × (count ≤ 5020) }
    ensures put { Put out.old at (flat_map text_of (settings (take (2 * count) list.now))) out.new result }
    ensures upper_bound { result ≤ at + 22 * count }
{
    let mut e = at;
    for i in 0..count {
        let key = list[2 * i];
        let value = list[2 * i + 1];
        e = lines::say(Answer::Setting { key, value }, out, e);
    }
    e
}

pub(crate) fn show(answer: Answer, list: &[u32], count: usize, out: &mut [u8], at: usize) -> usize
    requires { (2 * count ≤ length list.now) × (at + 110462 ≤ length out.old) × (count ≤ 5020) }
    ensures put { Put out.old at (flat_map text_of (answer ∷ settings (take (2 * count) list.now)))
        out.new result }
    ensures upper_bound { result ≤ at + 110462 }
{
    let e = lines::say(answer, out, at);
    show_settings(list, count, out, e)
}
