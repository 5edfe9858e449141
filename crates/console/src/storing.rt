// Making a store.
ghost use Rattle.std.specs.Prelude.{◌≡◌, ◌≤◌, length};
ghost use Rattle.lines.specs.Session.{stored};
ghost use Rattle.console.specs.Obeys.{store_in, Sure, Single};

use crate::Reply;
use crate::updating::told;
use lines::Answer;
use model::Refusal;

// "for N outside 6 to 256 (an earlier store stays), the answer is `refused 1`"
pub(crate) fn make(n: u32, pages: usize, bytes: &mut [u8]) -> Reply
    requires { (pages ≤ 256) × (length bytes.old ≡ 65536) × Sure bytes.old pages }
    ensures { Single (stored 4 (store_in bytes.old pages) n) bytes.new result }
{
    if n < 6 || 256 < n {
        return told(pages, Err(Refusal::WrongLength));
    }
    let made = n as usize;
    let e = made * 256;
    // so many pages are a right length, and nothing is refused
    let _ = store::fresh(&mut bytes[..e]);
    Reply {
        pages: made,
        answer: Answer::Done,
        count: 0,
    }
}
