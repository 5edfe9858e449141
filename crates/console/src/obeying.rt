// One line: the store after it, and its answers' text in the buffer.
ghost use Rattle.std.specs.Prelude.{◌≡◌, ◌+◌, ◌≤◌, length};
ghost use Rattle.lines.specs.Session.{said};
ghost use Rattle.console.specs.Obeys.{store_in, Sure, heard_said, Replies, Obeys};

use crate::reading::{get, range};
use crate::showing::show;
use crate::storing::make;
use crate::updating::{abandon, commit, delete, insert, open};
use crate::{Obeyed, Reply};
use lines::{Answer, Command, Line};

fn single(pages: usize, answer: Answer) -> Reply
    ensures { result ≡ record { pages = pages; answer = answer; count = 0 } }
{
    Reply {
        pages,
        answer,
        count: 0,
    }
}

fn reply(command: Command, pages: usize, bytes: &mut [u8], list: &mut [u32]) -> Reply
    requires { (pages ≤ 256) × (length bytes.old ≡ 65536) × (length list.old ≡ 10040) × Sure bytes.old pages }
    ensures { Replies (said 4 (store_in bytes.old pages) command) bytes.new list.new result }
{
    match command {
        Command::Store { pages: n } => make(n, pages, bytes),
        Command::Open => open(pages, bytes),
        Command::Insert { key, value } => insert(key, value, pages, bytes),
        Command::Delete { key } => delete(key, pages, bytes),
        Command::Commit => commit(pages, bytes),
        Command::Abandon => abandon(pages, bytes),
        Command::Get { key, version } => single(pages, get(key, version, pages, bytes)),
        Command::Range { low, high, version } => range(low, high, version, pages, bytes, list),
        Command::Bad => single(pages, Answer::BadLine),
    }
}

fn obey(
    command: Command,
    pages: usize,
    bytes: &mut [u8],
    list: &mut [u32],
    out: &mut [u8],
    at: usize,
) -> Obeyed
    requires pages_bound { (pages ≤ 256) × (length bytes.old ≡ 65536) × (length list.old ≡ 10040) × Sure bytes.old pages }
    requires at_in_bounds { at + 110462 ≤ length out.old }
    ensures { Obeys (said 4 (store_in bytes.old pages) command) bytes.new out.old at
        out.new result }
{
    let r = reply(command, pages, bytes, list);
    let answer = r.answer;
    let e = show(answer, list, r.count, out, at);
    Obeyed {
        pages: r.pages,
        at: e,
    }
}

// A line that ended, or none.
pub(crate) fn answer(
    heard: Option<Line>,
    pages: usize,
    bytes: &mut [u8],
    list: &mut [u32],
    out: &mut [u8],
    at: usize,
) -> Obeyed
    requires pages_bound { (pages ≤ 256) × (length bytes.old ≡ 65536) × (length list.old ≡ 10040) × Sure bytes.old pages }
    requires at_in_bounds { at + 110462 ≤ length out.old }
    ensures { Obeys (heard_said (store_in bytes.old pages) heard) bytes.new out.old at
        out.new result }
{
    match heard {
        Some(line) => obey(line.command, pages, bytes, list, out, at),
        None => Obeyed { pages, at },
    }
}
