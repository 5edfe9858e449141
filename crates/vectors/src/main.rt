// Makes a fresh store of six pages, of either edition, writes the bytes that docs/FORMAT.md gives of it, and judges it: as it is, with a
// stray bit set, and as a store of another edition.
#![tactic(auto)]

use std::io;

// Bytes in hexadecimal, one space behind each.
fn say_bytes(rt: &impl Print, s: &[u8]) -> io::Result<()> {
    for byte in s {
        print!(rt; "{byte:02x} ")?;
    }
    println!(rt; "")
}

fn say_verdict(rt: &impl Print, s: &[u8]) -> io::Result<()> {
    let (number, rule) = match judge::check(s) {
        Ok(()) => (0, 0),
        Err(fault) => (fault.number(), fault.rule()),
    };
    println!(rt; "check gives {number}, rule {rule}")
}

// The bytes from one place up to another, if they are there.
fn say_part(rt: &impl Print, s: &[u8], from: usize, to: usize) -> io::Result<()> {
    if s.len() < to {
        return Ok(());
    }
    if to < from {
        return Ok(());
    }
    say_bytes(rt, &s[from..to])
}

fn set(s: &mut [u8], at: usize, v: u8) {
    if at < s.len() {
        s[at] = v;
    }
}

// A fresh store's header, its first slot and the front of its root, in pages of so many bytes; judged as it is, with a stray bit at `spare`,
// and with another edition's number.
fn show(rt: &impl Print, s: &mut [u8], page: usize, spare: usize, edition: u8) -> io::Result<()> {
    say_part(rt, s, 0, 11)?;
    say_part(rt, s, page, page.saturating_add(4))?;
    say_part(
        rt,
        s,
        page.saturating_mul(5),
        page.saturating_mul(5).saturating_add(7),
    )?;
    say_verdict(rt, s)?;
    set(s, spare, 1);
    say_verdict(rt, s)?;
    set(s, spare, 0);
    set(s, 4, edition);
    say_verdict(rt, s)
}

fn main(rt: HostRuntime) -> io::Result<()> {
    let mut first = [0xEE; 1536];
    let _ = store::fresh(&mut first);
    show(&rt, &mut first, 256, 12, 3)?;
    let mut second = [0xEE; 3072];
    let _ = store::fresh_second(&mut second);
    show(&rt, &mut second, 512, 3071, 1)
}
