// Answers as text, put into a lent buffer. Each function gives the place behind what it put.
ghost use Rattle.std.specs.Prelude.{◌+◌, ◌<◌, ◌≤◌, length};
ghost use Rattle.lines.specs.Answers.{decimal, named, text_of, Put};
ghost use Rattle.lines.specs.Digits.{digits};

use crate::Answer;

fn put(text: &[u8], out: &mut [u8], at: usize) -> usize
    requires { at + length text.now ≤ length out.old }
    ensures { Put out.old at text.now out.new result }
{
    let end = at + text.len();
    out[at..end].copy_from_slice(text);
    end
}

// The last N digits. Numbers are put by fours of them, by functions that call each other in a row: as a recursion, with `put_some` and
// `put_number` one, an answer takes ten instructions more.
fn put_digits<const N: usize>(mut n: u32, out: &mut [u8], at: usize) -> usize
    requires { at + N ≤ length out.old }
    ensures { Put out.old at (digits N n) out.new result }
{
    for i in (0..N).rev() {
        out[at + i] = b'0' + (n % 10) as u8;
        n /= 10;
    }
    at + N
}

// One to four digits.
fn put_few(n: u32, out: &mut [u8], at: usize) -> usize
    requires n_bound { n < 10000 }
    requires n_in_bounds { at + length (decimal n) ≤ length out.old }
    ensures { Put out.old at (decimal n) out.new result }
{
    if n < 10 {
        put_digits::<1>(n, out, at)
    } else if n < 100 {
        put_digits::<2>(n, out, at)
    } else if n < 1000 {
        put_digits::<3>(n, out, at)
    } else {
        put_digits::<4>(n, out, at)
    }
}

// One to eight digits.
fn put_some(n: u32, out: &mut [u8], at: usize) -> usize
    requires n_bound { n < 100000000 }
    requires n_in_bounds { at + length (decimal n) ≤ length out.old }
    ensures { Put out.old at (decimal n) out.new result }
{
    if n < 10000 {
        return put_few(n, out, at);
    }
    let e = put_few(n / 10000, out, at);
    put_digits::<4>(n % 10000, out, e)
}

fn put_number(n: u32, out: &mut [u8], at: usize) -> usize
    requires { at + length (decimal n) ≤ length out.old }
    ensures { Put out.old at (decimal n) out.new result }
{
    if n < 10000 {
        return put_few(n, out, at);
    }
    let e = put_some(n / 10000, out, at);
    put_digits::<4>(n % 10000, out, e)
}

// A word, a number, the line's end.
fn put_named(word: &[u8], n: u32, out: &mut [u8], at: usize) -> usize
    requires { at + length (named word.now n) ≤ length out.old }
    ensures { Put out.old at (named word.now n) out.new result }
{
    let a = put(word, out, at);
    let b = put_number(n, out, a);
    put(b"\n", out, b)
}

// A setting of a range.
fn put_setting(key: u32, value: u32, out: &mut [u8], at: usize) -> usize
    requires { at + length (text_of (Answer.Setting key value)) ≤ length out.old }
    ensures { Put out.old at (text_of (Answer.Setting key value)) out.new result }
{
    let a = put_number(key, out, at);
    put_named(b" ", value, out, a)
}

// An answer's line. None is longer than 22 bytes.
pub fn say(answer: Answer, out: &mut [u8], at: usize) -> usize
    requires { at + 22 ≤ length out.old }
    ensures put { Put out.old at (text_of answer) out.new result }
    ensures upper_bound { result ≤ at + 22 }
{
    match answer {
        Answer::Done => put(b"ok\n", out, at),
        Answer::Refused(n) => put_named(b"refused ", n, out, at),
        Answer::Value(v) => put_named(b"value ", v, out, at),
        Answer::Absent => put(b"absent\n", out, at),
        Answer::Count(c) => put_named(b"count ", c, out, at),
        Answer::Setting { key, value } => put_setting(key, value, out, at),
        Answer::BadLine => put(b"bad line\n", out, at),
    }
}
