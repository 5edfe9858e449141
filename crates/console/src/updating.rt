// The calls that change the store, each on the part of the bytes that is the store. The console makes stores of edition 1, and calls by
// its limits. "before an accepted `store` .. the answer is `refused 1`": that is told here, and not by a call that is not sure, so that no
// judging, which keeps 80 kB on the stack, is compiled into the program.
ghost use Rattle.std.specs.Prelude.{◌≡◌, ◌≤◌, length};
ghost use Rattle.lines.specs.Session.{answered, outcome};
ghost use Rattle.model.specs.Lent.{open_lent, insert_lent, delete_lent, commit_lent, abandon_lent};
ghost use Rattle.model.specs.Refusals.{number_in};
ghost use Rattle.console.specs.Obeys.{store_in, Sure, Single};

use crate::Reply;
use lines::Answer;
use model::Refusal;

// "`ok`", or "`refused 6`".
fn answer(given: Result<(), Refusal>) -> Answer
    ensures { result ≡ answered (number_in given) }
{
    match given {
        Ok(()) => Answer::Done,
        Err(refusal) => Answer::Refused(refusal.number()),
    }
}

// What a call gave as the reply, with nothing behind it.
pub(crate) fn told(pages: usize, given: Result<(), Refusal>) -> Reply
    ensures { result ≡ record { pages = pages; answer = answered (number_in given); count = 0 } }
{
    Reply {
        pages,
        answer: answer(given),
        count: 0,
    }
}

pub(crate) fn open(pages: usize, bytes: &mut [u8]) -> Reply
    requires { (pages ≤ 256) × (length bytes.old ≡ 65536) × Sure bytes.old pages }
    ensures { Single (outcome (open_lent 4 (store_in bytes.old pages))) bytes.new result }
{
    if pages == 0 {
        return told(pages, Err(Refusal::WrongLength));
    }
    let l = model::edition_one();
    let e = pages * 256;
    let r = changes::sure::open(&mut bytes[..e], l, true);
    told(pages, r)
}

pub(crate) fn insert(key: u32, value: u32, pages: usize, bytes: &mut [u8]) -> Reply
    requires { (pages ≤ 256) × (length bytes.old ≡ 65536) × Sure bytes.old pages }
    ensures { Single (outcome (insert_lent 4 (store_in bytes.old pages) key value)) bytes.new result }
{
    if pages == 0 {
        return told(pages, Err(Refusal::WrongLength));
    }
    let l = model::edition_one();
    let e = pages * 256;
    let r = changes::sure::insert(&mut bytes[..e], l, key, value, true);
    told(pages, r)
}

pub(crate) fn delete(key: u32, pages: usize, bytes: &mut [u8]) -> Reply
    requires { (pages ≤ 256) × (length bytes.old ≡ 65536) × Sure bytes.old pages }
    ensures { Single (outcome (delete_lent 4 (store_in bytes.old pages) key)) bytes.new result }
{
    if pages == 0 {
        return told(pages, Err(Refusal::WrongLength));
    }
    let l = model::edition_one();
    let e = pages * 256;
    let r = changes::sure::delete(&mut bytes[..e], l, key, true);
    told(pages, r)
}

pub(crate) fn commit(pages: usize, bytes: &mut [u8]) -> Reply
    requires { (pages ≤ 256) × (length bytes.old ≡ 65536) × Sure bytes.old pages }
    ensures { Single (outcome (commit_lent 4 (store_in bytes.old pages))) bytes.new result }
{
    if pages == 0 {
        return told(pages, Err(Refusal::WrongLength));
    }
    let l = model::edition_one();
    let e = pages * 256;
    let r = changes::sure::commit(&mut bytes[..e], l, true);
    told(pages, r)
}

pub(crate) fn abandon(pages: usize, bytes: &mut [u8]) -> Reply
    requires { (pages ≤ 256) × (length bytes.old ≡ 65536) × Sure bytes.old pages }
    ensures { Single (outcome (abandon_lent 4 (store_in bytes.old pages))) bytes.new result }
{
    if pages == 0 {
        return told(pages, Err(Refusal::WrongLength));
    }
    let l = model::edition_one();
    let e = pages * 256;
    let r = changes::sure::abandon(&mut bytes[..e], l, true);
    told(pages, r)
}
