// The line that is being read, gathered from pieces of the input in constant memory.
// That `before + 1` fits is a caller's to see: it has read no more lines than bytes.
ghost use Rattle.std.specs.Prelude.{◌≡◌, ◌+◌, ◌^◌, ◌<◌, ◌≤◌};
ghost use Rattle.lines.specs.Reading.{reading, start as Reading·start, kept, ended as Reading·ended, last_of, shown, Hears};

use crate::once::at_once;
use crate::parsing::parse;
use crate::word::find;
use crate::{Command, Held, Line, Taken};

// Nothing read yet.
pub fn start() -> Held
    ensures result_value { reading result ≡ Reading·start }
    ensures len_bound { result.len ≤ 81 }
{
    Held {
        bytes: [0; 81],
        len: 0,
        before: 0,
    }
}

// More of the line, as far as 81 bytes go.
fn keep(mut held: Held, text: &[u8]) -> Held
    requires { held.len ≤ 81 }
    ensures result_value { reading result ≡ kept (reading held) text.now }
    ensures len_bound { result.len ≤ 81 }
{
    let len = held.len;
    let n = text.len().min(81 - len);
    held.bytes[len..len + n].copy_from_slice(&text[..n]);
    held.len = len + n;
    held
}

// A line that is this command ended with the newline at e.
fn ended(mut held: Held, command: Command, e: usize) -> Taken
    requires before_bound { held.before + 1 < 2 ^ 64 }
    requires e_bound { e + 1 < 2 ^ 64 }
    ensures result_value { shown result ≡ Reading·ended (reading held) command e }
    ensures len_bound { result.held.len ≤ 81 }
{
    let number = held.before + 1;
    held.len = 0;
    held.before = number;
    Taken {
        held,
        used: e + 1,
        heard: Some(Line { number, command }),
    }
}

// The way that reads every line. One that is whole in the piece is read where it stands; what is kept are bytes of a line that a
// piece's end cuts.
fn gather(held: Held, piece: &[u8]) -> Taken
    requires len_bound { held.len ≤ 81 }
    requires before_bound { held.before + 1 < 2 ^ 64 }
    ensures { Hears held piece.now result }
{
    match find(piece, b'\n') {
        Some(e) => {
            let standing = held.len == 0;
            if standing {
                return ended(held, parse(&piece[..e]), e);
            }
            let more = keep(held, &piece[..e]);
            ended(more, parse(&more.bytes[..more.len]), e)
        }
        None => Taken {
            held: keep(held, piece),
            used: piece.len(),
            heard: None,
        },
    }
}

// Up to the first newline of a piece of the input, or to its end. A caller goes on behind the bytes used, until the piece is used up.
// Where nothing is held, the line may be one that is known at once.
pub fn hear(held: Held, piece: &[u8]) -> Taken
    requires len_bound { held.len ≤ 81 }
    requires before_bound { held.before + 1 < 2 ^ 64 }
    ensures { Hears held piece.now result }
{
    if held.len == 0 {
        if let Some(known) = at_once(piece) {
            return ended(held, known.value, known.end);
        }
    }
    gather(held, piece)
}

// The end of the input: "its newline (which the last may lack)".
pub fn last(held: Held) -> Option<Line>
    requires len_bound { held.len ≤ 81 }
    requires before_bound { held.before + 1 < 2 ^ 64 }
    ensures { result ≡ last_of (reading held) }
{
    let text = &held.bytes[..held.len];
    if text.is_empty() {
        return None;
    }
    Some(Line {
        number: held.before + 1,
        command: parse(text),
    })
}
