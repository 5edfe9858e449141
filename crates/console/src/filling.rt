// A piece of the input, line by line, until it is used up or the buffer has no room for another line's answers.
ghost use Rattle.std.specs.Prelude.{◌≡◌, ◌+◌, ◌^◌, ◌<◌, ◌≤◌, length};
ghost use Rattle.console.specs.Obeys.{store_in, Sure, PieceUpto, LastWritten};

use crate::Filled;
use crate::obeying::answer;
use lines::Held;

// What the answers to one line want: 22 bytes for `count 5020`, and 22 for each of 5,020 settings.
const ROOM: usize = 110462;

pub(crate) fn fill(
    held: Held,
    pages: usize,
    bytes: &mut [u8],
    list: &mut [u32],
    piece: &[u8],
    out: &mut [u8],
) -> Filled
    requires pages_bound { (pages ≤ 256) × (length bytes.old ≡ 65536) × (length list.old ≡ 10040) × Sure bytes.old pages }
    requires len_bound { (held.len ≤ 81) × (held.before + length piece.now + 1 < 2 ^ 64) }
    requires in_bounds { 110462 ≤ length out.old }
    ensures piece_upto { PieceUpto held (store_in bytes.old pages) piece.now bytes.new out.new result }
    ensures used_nonzero { 0 < length piece.now → 0 < result.used }
{
    let mut h = held;
    let mut p = pages;
    let mut used = 0;
    let mut len = 0;
    while used < piece.len() {
        if out.len() - len < ROOM {
            break;
        }
        let t = lines::hear(h, &piece[used..]);
        let heard = t.heard;
        let o = answer(heard, p, bytes, list, out, len);
        h = t.held;
        p = o.pages;
        used += t.used;
        len = o.at;
    }
    Filled {
        held: h,
        pages: p,
        used,
        len,
    }
}

// The end of the input: how many bytes of answers stand in the buffer then.
pub(crate) fn end(
    held: Held,
    pages: usize,
    bytes: &mut [u8],
    list: &mut [u32],
    out: &mut [u8],
) -> usize
    requires pages_bound { (pages ≤ 256) × (length bytes.old ≡ 65536) × (length list.old ≡ 10040) × Sure bytes.old pages }
    requires len_bound { (held.len ≤ 81) × (held.before + 1 < 2 ^ 64) }
    requires in_bounds { 110462 ≤ length out.old }
    ensures { LastWritten held (store_in bytes.old pages) out.new result }
{
    let heard = lines::last(held);
    let o = answer(heard, pages, bytes, list, out, 0);
    o.at
}
