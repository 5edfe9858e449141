// What two settings say of the smaller of their keys, and how it goes into the caller's list.
ghost use Rattle.std.specs.Prelude.{◌≡◌, true, [], ◌∷◌, ◌+◌, ◌*◌, ◌≤◌, length};
ghost use Rattle.differ.specs.Merge.{compared, told};
ghost use Rattle.model.specs.Telling.{written, Space, Gathers, deltas};

use model::{Delta, Pair};

// What two cursors say of the smaller of their keys; 3 where both have it with one value. The kind is a number, and 3 one of them, as the
// definitions have it: the key is told in each case, since the merge goes on behind it.
pub fn compared(x: Pair, y: Pair) -> Delta
    ensures { result ≡ compared x y }
{
    if x.key < y.key {
        Delta {
            key: x.key,
            kind: 1,
            old: x.value,
            new: 0,
        }
    } else if y.key < x.key {
        Delta {
            key: y.key,
            kind: 0,
            old: 0,
            new: y.value,
        }
    } else {
        Delta {
            key: x.key,
            kind: if x.value == y.value { 3 } else { 2 },
            old: x.value,
            new: y.value,
        }
    }
}

// A difference behind the first k of a list: its four numbers.
fn put_four(list: &mut [u32], k: usize, d: Delta)
    requires { 4 * (k + 1) ≤ length list.old }
    ensures { list.new ≡ written deltas true list.old k (d ∷ []) }
{
    list[4 * k] = d.key;
    list[4 * k + 1] = d.kind;
    list[4 * k + 2] = d.old;
    list[4 * k + 3] = d.new;
}

// What two cursors said, behind the first k of a list; gives how many there are then.
pub fn put(list: &mut [u32], k: usize, d: Delta, write: bool) -> usize
    requires { Space deltas write list.old k (told d) }
    ensures { Gathers deltas write list.old list.new k result (told d) }
{
    if d.kind == 3 {
        return k;
    }
    if write {
        put_four(list, k, d);
    }
    k + 1
}
