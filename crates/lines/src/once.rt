// The commonest lines in one pass: `get K V`, `insert K V` and `delete K`, each with its newline, read in the piece where they stand.
// Of any other line, a bad one too, nothing is known here, and the way by words (gathering, parsing) reads it.
ghost use Rattle.std.specs.Prelude.{◌+◌, ◌<◌, length, IfSome};
ghost use Rattle.lines.specs.Places.{DigitsAt, NumberAt, TwoAt, LineAt};

use crate::Command;

// What stands from a place on, and the place behind it: for digits and their number that of the mark, for a command that of its line's
// newline.
#[derive(Clone, Copy)]
pub(crate) struct Upto<T> {
    pub value: T,
    pub end: usize,
}

// Digits, ten at most. A byte below 48 wraps to a large number: one test for both sides. In bytes the difference takes an instruction
// more for each digit.
fn digits_at(s: &[u8], from: usize) -> Upto<u64>
    requires { from + 10 < length s.now }
    ensures { DigitsAt s.now from result }
{
    let last = from + 10;
    let mut value: u64 = 0;
    for end in from..last {
        let d = u64::from(s[end]).wrapping_sub(48);
        if 9 < d {
            return Upto { value, end };
        }
        value = 10 * value + d;
    }
    Upto { value, end: last }
}

// "a number has 1 to 10 decimal digits and is at most 4,294,967,295"
fn number_at(s: &[u8], from: usize, mark: u8) -> Option<Upto<u32>>
    requires { from + 10 < length s.now }
    ensures { IfSome result (λ n. NumberAt s.now from mark n) }
{
    let Upto { value, end } = digits_at(s, from);
    if end == from || s[end] != mark || 4294967295 < value {
        return None;
    }
    Some(Upto {
        value: value as u32,
        end,
    })
}

fn two_at(s: &[u8], from: usize) -> Option<Upto<(u32, u32)>>
    requires { from + 21 < length s.now }
    ensures { IfSome result (λ t. TwoAt s.now from t) }
{
    let a = number_at(s, from, b' ')?;
    let b = number_at(s, a.end + 1, b'\n')?;
    Some(Upto {
        value: (a.value, b.value),
        end: b.end,
    })
}

// The longest of these lines has 29 bytes with its newline. A shorter piece is left to the other way, so that no digit asks for its end.
pub(crate) fn at_once(piece: &[u8]) -> Option<Upto<Command>>
    ensures { IfSome result (λ k. LineAt piece.now k) }
{
    if piece.len() < 29 {
        return None;
    }
    if piece.starts_with(b"get ") {
        let t = two_at(piece, 4)?;
        let (key, version) = t.value;
        return Some(Upto {
            value: Command::Get { key, version },
            end: t.end,
        });
    }
    if piece.starts_with(b"insert ") {
        let t = two_at(piece, 7)?;
        let (key, value) = t.value;
        return Some(Upto {
            value: Command::Insert { key, value },
            end: t.end,
        });
    }
    if piece.starts_with(b"delete ") {
        let n = number_at(piece, 7, b'\n')?;
        return Some(Upto {
            value: Command::Delete { key: n.value },
            end: n.end,
        });
    }
    None
}
