// The console: reads commands from standard input, a line each, and writes its answers to standard output. Document 01, "The
// console program". What a line does is lines/specs/Session; where the program keeps it is specs/Obeys; that the bytes handed to
// standard output, one buffer after the other, are what is to be written for the input is `runs` (proofs/Whole), and the contract of
// `serve`, of a reader and a writer whose bytes are known.
#![tactic(auto)]

mod filling;
mod obeying;
mod reading;
mod serving;
mod showing;
mod storing;
mod updating;

use lines::{Answer, Held};
use std::process::ExitCode;

// What a command brought: the store's pages then, the first answer, and how many settings in the list follow it.
#[derive(Clone, Copy)]
struct Reply {
    pages: usize,
    answer: Answer,
    count: usize,
}

// The store's pages after a line, and the place in the buffer behind its answers.
#[derive(Clone, Copy)]
struct Obeyed {
    pages: usize,
    at: usize,
}

// After a part of a piece: the line that is being read, the store's pages, how many bytes of the piece were used, how many bytes of
// answers stand in the buffer.
#[derive(Clone, Copy)]
struct Filled {
    held: Held,
    pages: usize,
    used: usize,
    len: usize,
}

// Between pieces: the line that is being read, and the store's pages.
#[derive(Clone, Copy)]
struct Kept {
    held: Held,
    pages: usize,
}

// "in a store of up to 256 pages and with a list of 10,040 numbers"; a piece of the input, and a buffer for answers. Where a read or a
// write failed, standard error has the reason, if it takes it.
fn main(rt: HostRuntime) -> ExitCode {
    let mut bytes = [0u8; 65536];
    let mut list = [0u32; 10040];
    let mut piece = [0u8; 65536];
    let mut out = [0u8; 262144];
    let mut input = rt.stdin();
    let mut output = rt.stdout();
    match serving::serve(
        &mut input,
        &mut output,
        &mut bytes,
        &mut list,
        &mut piece,
        &mut out,
    ) {
        Ok(()) => ExitCode::SUCCESS,
        Err(e) => {
            let _ = eprintln!(rt; "console: {e}");
            ExitCode::FAILURE
        }
    }
}
