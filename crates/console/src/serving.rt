// An input to an output, in constant memory. The reader and the writer are any, so that a contract can name what is read and what is
// written: of standard input and output it claims nothing (a file gives and takes what it will), of a reader and a writer over memory all.
ghost use Rattle.std.specs.Prelude.{◌≡◌, ◌+◌, ◌^◌, ◌<◌, ◌≤◌, length, OnOk, IfSome, MatchResult};
ghost use Rattle.std.specs.Io.KnownBytes.{Appends};
ghost use Rattle.lines.specs.Reading.{reading, told, last_of, heard_lines};
ghost use Rattle.lines.specs.Session.{writes, written};
ghost use Rattle.console.specs.Obeys.{store_in, Sure, Passed, CutOff};

use crate::Kept;
use crate::filling::{end, fill};
use lines::Held;
use std::io;
use std::io::{Read, Write};

// The program ends after 2^40 reads, since a loop has to: 34 years of a thousand a second.
const READS: u64 = 1099511627776;

// The reads so far, with one more.
fn further(reads: u64) -> u64
    requires { reads < 1099511627776 }
    ensures { (reads < result) × (result ≤ 1099511627776) × (result ≡ reads + 1) }
{
    reads + 1
}

// A piece of the input, to its end: the buffer is written out each time it is full. Behind a write that failed no line is obeyed any
// more.
fn pass<W: Write>(
    output: &mut W,
    held: Held,
    pages: usize,
    bytes: &mut [u8],
    list: &mut [u32],
    piece: &[u8],
    out: &mut [u8],
) -> io::Result<Kept>
    requires pages_bound { (pages ≤ 256) × (length bytes.old ≡ 65536) × (length list.old ≡ 10040) × Sure bytes.old pages }
    requires len_bound { (held.len ≤ 81) × (held.before + length piece.now + 1 < 2 ^ 64) }
    requires in_bounds { 110462 ≤ length out.old }
    ensures kept { MatchResult result (Passed held (store_in bytes.old pages) piece.now bytes.new)
        (λ _. CutOff held (store_in bytes.old pages) piece.now bytes.new) }
    ensures written { OnOk result (Appends (W.contents output.old) (W.contents output.new)
        (writes 4 (store_in bytes.old pages) (told (reading held) piece.now))) }
{
    let mut h = held;
    let mut p = pages;
    let mut at = 0;
    while at < piece.len() {
        let f = fill(h, p, bytes, list, &piece[at..], out);
        let n = f.len;
        output.write_all(&out[..n])?;
        h = f.held;
        p = f.pages;
        at += f.used;
    }
    Ok(Kept { held: h, pages: p })
}

// What stands behind the last newline, where the input came to its end.
fn close<W: Write>(
    output: &mut W,
    held: Held,
    pages: usize,
    bytes: &mut [u8],
    list: &mut [u32],
    out: &mut [u8],
) -> io::Result<()>
    requires pages_bound { (pages ≤ 256) × (length bytes.old ≡ 65536) × (length list.old ≡ 10040) × Sure bytes.old pages }
    requires len_bound { (held.len ≤ 81) × (held.before + 1 < 2 ^ 64) }
    requires in_bounds { 110462 ≤ length out.old }
    ensures { OnOk result (Appends (W.contents output.old) (W.contents output.new)
        (writes 4 (store_in bytes.old pages) (heard_lines (last_of (reading held))))) }
{
    let e = end(held, pages, bytes, list, out);
    output.write_all(&out[..e])
}

// Piece after piece, until a read gives nothing. Where a read or a write fails, half a line is not obeyed.
pub(crate) fn serve<R: Read, W: Write>(
    input: &mut R,
    output: &mut W,
    bytes: &mut [u8],
    list: &mut [u32],
    piece: &mut [u8],
    out: &mut [u8],
) -> io::Result<()>
    requires { (length bytes.old ≡ 65536) × (length list.old ≡ 10040) × (length piece.old ≡ 65536) × (length out.old ≡ 262144) }
    ensures { OnOk result (IfSome (R.remaining input.old) (λ xs. length xs < 1099511627776
        → Appends (W.contents output.old) (W.contents output.new) (written xs))) }
{
    let mut h = lines::start();
    let mut p = 0;
    let mut reads: u64 = 0;
    while reads < READS {
        let n = input.read(piece)?;
        if n == 0 {
            break;
        }
        let k = pass(output, h, p, bytes, list, &piece[..n], out)?;
        h = k.held;
        p = k.pages;
        reads = further(reads);
    }
    close(output, h, p, bytes, list, out)
}
