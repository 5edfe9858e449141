// The console's language: a line's bytes to its command, and answers to their bytes. Reading and writing are the program's:
// from `start` on it hands each piece of its input to `hear` until the piece is used up, and at the end asks for the `last` line;
// `say` puts each answer into its buffer. The definitions are specs/Console (lines), Reading (pieces) and Answers; that pieces cut
// anywhere give the input's lines is `streams` (proofs/Streams).
#![tactic(auto)]

mod gathering;
mod once;
mod parsing;
mod saying;
mod word;

pub use gathering::{hear, last, start};
pub use parsing::parse;
pub use saying::say;

#[derive(Clone, Copy)]
pub enum Command {
    Store { pages: u32 },
    Open,
    Insert { key: u32, value: u32 },
    Delete { key: u32 },
    Commit,
    Abandon,
    Get { key: u32, version: u32 },
    Range { low: u32, high: u32, version: u32 },
    Bad,
}

// "Each line becomes a record of its line number and one command." The first line is number 1.
#[derive(Clone, Copy)]
pub struct Line {
    pub number: u64,
    pub command: Command,
}

// The line that is being read: its first bytes, 81 at most, how many they are, and how many lines came before. The bytes have a length
// beside them since the memory is fixed.
#[derive(Clone, Copy)]
pub struct Held {
    pub bytes: [u8; 81],
    pub len: usize,
    pub before: u64,
}

// What a piece of the input brought: the line that is being read then, how many bytes were used, and the line that ended.
#[derive(Clone, Copy)]
pub struct Taken {
    pub held: Held,
    pub used: usize,
    pub heard: Option<Line>,
}

// What the program answers, a line each. `Done` is written `ok`.
#[derive(Clone, Copy)]
pub enum Answer {
    Done,
    Refused(u32),
    Value(u32),
    Absent,
    Count(u32),
    Setting { key: u32, value: u32 },
    BadLine,
}
