// What bench/ measures of the byte layer, for a Rust program to call: any numbers and any bytes; where they do not fit, nothing is
// done and the answer is 0. Each call does enough to be timed.
#![tactic(auto)]

ghost use Rattle.std.specs.Prelude.{◌≡◌, length};
ghost use Rattle.model.specs.Basic.{pick};
ghost use Rattle.gauge.specs.Gauge.{fits, field_sum, entry_sum, fill_fits, filled_page};

use model::Pair;

// Whether n pieces of 96 bits (an entry's) from bit `at` on stand in so many bytes, and none is wider than 32 bits.
fn fits(len: usize, at: usize, width: usize, n: usize) -> bool
    ensures { result ≡ fits len at width n }
{
    len <= 1048576 && at <= 1048576 && width <= 32 && n <= 1048576 && at + 96 * n <= 8 * len
}

// The sum of n fields of `width` bits: at bit `at`, and at every 96th behind it, as one field of each entry is read.
#[unsafe(no_mangle)]
pub extern "C" fn gauge_fields(s: &[u8], at: usize, width: usize, n: usize) -> u64
    ensures { result ≡ pick (fits (length s.now) at width n) (field_sum s.now at width n) 0 }
{
    if !fits(s.len(), at, width, n) {
        return 0;
    }
    let mut r: u64 = 0;
    for i in 0..n {
        r += bits::field(s, at + 96 * i, width) as u64;
    }
    r
}

// The sum of all four fields of the first n entries of a page.
#[unsafe(no_mangle)]
pub extern "C" fn gauge_entries(page: &[u8], n: usize) -> u64
    ensures { result ≡ pick (fits (length page.now) 128 0 n) (entry_sum page.now n) 0 }
{
    if !fits(page.len(), 128, 0, n) {
        return 0;
    }
    let mut r: u64 = 0;
    for i in 0..n {
        let e = page::entry_at(page, i);
        r += e.key as u64 + e.start as u64 + e.end as u64 + e.value as u64;
    }
    r
}

// Whether a page of so many bytes can be filled with n entries of these numbers.
fn fill_fits(len: usize, w: u32, key: u32, n: usize) -> bool
    ensures { result ≡ fill_fits len w key n }
{
    len == 256 && w <= 1048575 && key <= 16777215 && n <= 20
}

// Fills a page anew: a leaf of version w with n entries, all of one key and value. 1 if that was done.
#[unsafe(no_mangle)]
pub extern "C" fn gauge_fill(page: &mut [u8], w: u32, key: u32, value: u32, n: usize) -> u32
    ensures number { result ≡ pick (fill_fits (length page.old) w key n) 1 0 }
    ensures bytes { page.new ≡ pick (fill_fits (length page.old) w key n) (filled_page w key value n)
        page.old }
{
    if !fill_fits(page.len(), w, key, n) {
        return 0;
    }
    let list = [Pair { key, value }; 56];
    edit::fill(page, model::edition_one(), 1, w, list, 0, n);
    1
}
