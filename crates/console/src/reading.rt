// Lookup and range.
ghost use Rattle.std.specs.Prelude.{◌≡◌, ◌≤◌, length};
ghost use Rattle.lines.specs.declared.Command.TheVariants.{Range};
ghost use Rattle.lines.specs.Session.{said, looked as Session·looked};
ghost use Rattle.model.specs.Lent.{lookup_lent};
ghost use Rattle.model.specs.Refusals.{looked_in};
ghost use Rattle.console.specs.Obeys.{store_in, Sure, Replies};

use crate::Reply;
use lines::Answer;
use model::Refusal;

fn looked(r: Result<Option<u32>, Refusal>) -> Answer
    ensures { result ≡ Session·looked (looked_in r) }
{
    match r {
        Ok(Some(v)) => Answer::Value(v),
        Ok(None) => Answer::Absent,
        Err(refusal) => Answer::Refused(refusal.number()),
    }
}

pub(crate) fn get(key: u32, v: u32, pages: usize, bytes: &[u8]) -> Answer
    requires { (pages ≤ 256) × (length bytes.now ≡ 65536) × Sure bytes.now pages }
    ensures { result ≡ Session·looked (lookup_lent 4 (store_in bytes.now pages) key v) }
{
    let l = model::edition_one();
    let e = pages * 256;
    looked(reads::sure::lookup(&bytes[..e], l, key, v, 0 < pages))
}

// "with a list of 10,040 numbers, which no range there outgrows": what an earlier range left in the list makes no difference. "before an
// accepted `store` .. the answer is `refused 1`".
pub(crate) fn range(
    low: u32,
    high: u32,
    v: u32,
    pages: usize,
    bytes: &[u8],
    list: &mut [u32],
) -> Reply
    requires { (pages ≤ 256) × (length bytes.now ≡ 65536) × (length list.old ≡ 10040) × Sure bytes.now pages }
    ensures { Replies (said 4 (store_in bytes.now pages) (Range low high v)) bytes.now list.new result }
{
    if pages == 0 {
        return Reply {
            pages,
            answer: Answer::Refused(1),
            count: 0,
        };
    }
    let l = model::edition_one();
    let e = pages * 256;
    match reads::sure::range(&bytes[..e], l, low, high, v, list) {
        Ok(count) => Reply {
            pages,
            answer: Answer::Count(count as u32),
            count,
        },
        Err(refusal) => Reply {
            pages,
            answer: Answer::Refused(refusal.number()),
            count: 0,
        },
    }
}
