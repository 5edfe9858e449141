// A line to its command, word by word: `after_` so many words there is more text, `with_` so many numbers the line is whole.
ghost use Rattle.std.specs.Prelude.{◌≡◌, ◌∷◌};
ghost use Rattle.lines.specs.Console.{words, spoken, command_of, with_none, with_one, with_two, with_three};

use crate::Command;
use crate::word::{find, number};

// "Any other line, or one over 80 bytes before its newline, answers `bad line`"
pub fn parse(line: &[u8]) -> Command
    ensures { result ≡ command_of line.now }
{
    if 80 < line.len() {
        return Command::Bad;
    }
    match find(line, b' ') {
        Some(e) => after_one(&line[..e], &line[e + 1..]),
        None => with_none(line),
    }
}

fn after_one(w: &[u8], rest: &[u8]) -> Command
    ensures { result ≡ spoken (w.now ∷ words rest.now) }
{
    match find(rest, b' ') {
        Some(e) => after_two(w, &rest[..e], &rest[e + 1..]),
        None => with_one(w, number(rest)),
    }
}

fn after_two(w: &[u8], a: &[u8], rest: &[u8]) -> Command
    ensures { result ≡ spoken (w.now ∷ a.now ∷ words rest.now) }
{
    match find(rest, b' ') {
        Some(e) => after_three(w, a, &rest[..e], &rest[e + 1..]),
        None => with_two(w, number(a), number(rest)),
    }
}

fn after_three(w: &[u8], a: &[u8], b: &[u8], rest: &[u8]) -> Command
    ensures { result ≡ spoken (w.now ∷ a.now ∷ b.now ∷ words rest.now) }
{
    match find(rest, b' ') {
        Some(_) => Command::Bad,
        None => with_three(w, number(a), number(b), number(rest)),
    }
}

// A `match` of the word would be plainer, but of its last arm a proof knows the word's length alone.
fn with_none(w: &[u8]) -> Command
    ensures { result ≡ with_none w.now }
{
    if w == b"open".as_slice() {
        Command::Open
    } else if w == b"commit".as_slice() {
        Command::Commit
    } else if w == b"abandon".as_slice() {
        Command::Abandon
    } else {
        Command::Bad
    }
}

fn with_one(w: &[u8], a: Option<u32>) -> Command
    ensures { result ≡ with_one w.now a }
{
    let Some(n) = a else {
        return Command::Bad;
    };
    if w == b"store".as_slice() {
        Command::Store { pages: n }
    } else if w == b"delete".as_slice() {
        Command::Delete { key: n }
    } else {
        Command::Bad
    }
}

fn with_two(w: &[u8], a: Option<u32>, b: Option<u32>) -> Command
    ensures { result ≡ with_two w.now a b }
{
    let (Some(key), Some(n)) = (a, b) else {
        return Command::Bad;
    };
    if w == b"insert".as_slice() {
        Command::Insert { key, value: n }
    } else if w == b"get".as_slice() {
        Command::Get { key, version: n }
    } else {
        Command::Bad
    }
}

fn with_three(w: &[u8], a: Option<u32>, b: Option<u32>, c: Option<u32>) -> Command
    ensures { result ≡ with_three w.now a b c }
{
    match (a, b, c) {
        (Some(low), Some(high), Some(version)) if w == b"range".as_slice() => Command::Range {
            low,
            high,
            version,
        },
        _ => Command::Bad,
    }
}
