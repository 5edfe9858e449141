// Entries of a page by their words, which are compared and copied whole: of a word that is taken apart, the compiler loads each byte by
// itself.
ghost use Rattle.std.specs.Prelude.{◌≡◌, false, ◌+◌, ◌*◌, ◌^◌, ◌≤◌, ◌<◌, length};
ghost use Rattle.model.specs.Field.{field, lay};
ghost use Rattle.model.specs.Entry.{live_at};
ghost use Rattle.model.specs.Layout.{read_entry, entry_parts};
ghost use Rattle.page.specs.Apart.{Apart};

// The first word of entry i of a page: its key, and 8 bits of its start.
pub fn first_word(page: &[u8], i: usize) -> usize
    requires { (16 + 12 * i + 12 ≤ length page.now) × (length page.now ≤ 2 ^ 40) }
    ensures { result ≡ field page.now (128 + 96 * i) 32 }
{
    bits::four(page, 16 + 12 * i) as usize
}

// The second: the other 12, and its end.
pub fn second_word(page: &[u8], i: usize) -> usize
    requires { (16 + 12 * i + 12 ≤ length page.now) × (length page.now ≤ 2 ^ 40) }
    ensures { result ≡ field page.now (128 + 96 * i + 32) 32 }
{
    bits::four(page, 20 + 12 * i) as usize
}

// The third: its value.
pub fn value_in(page: &[u8], i: usize) -> u32
    requires { (16 + 12 * i + 12 ≤ length page.now) × (length page.now ≤ 2 ^ 40) }
    ensures { result ≡ (read_entry page.now (128 + 96 * i)).value }
{
    bits::four(page, 24 + 12 * i)
}

// "A span runs from start up to but not including end": whether entry i of a page is alive at v. The last byte of its first word and its
// second word, as one number, are its start and then its end: that number tells by itself whether the start is above v.
pub fn alive_in(page: &[u8], i: usize, v: u32) -> bool
    requires { (16 + 12 * i + 12 ≤ length page.now) × (length page.now ≤ 2 ^ 40) }
    ensures { result ≡ live_at v (read_entry page.now (128 + 96 * i)) }
{
    let a = bits::one(page, 19 + 12 * i) as usize;
    let b = second_word(page, i);
    let w = v as usize;
    a * 4294967296 + b < w * 1048576 + 1048576 && w < b % 1048576
}

// Whether entry i of a page may start or end at w: where the answer is false, it does neither. One word tells it.
pub fn may_turn(page: &[u8], i: usize, w: u32) -> bool
    requires { (16 + 12 * i + 12 ≤ length page.now) × (length page.now ≤ 2 ^ 40) × (w < 2 ^ 20) }
    ensures { result ≡ false → Apart w (read_entry page.now (128 + 96 * i)) }
{
    let b = second_word(page, i);
    let v = w as usize;
    let low = v % 4096 * 1048576;
    (b + (1048576 - v)) % 1048576 == 0 || low <= b && b < low + 1048576
}

// Writes entry i of a page at place j as well.
pub fn copy_entry(page: &mut [u8], i: usize, j: usize)
    requires { (16 + 12 * i + 12 ≤ length page.old) × (16 + 12 * j + 12 ≤ length page.old) × (length page.old ≤ 2 ^ 40) }
    ensures { page.new
        ≡ lay page.old (128 + 96 * j) (entry_parts (read_entry page.old (128 + 96 * i))) }
{
    let from = 16 + 12 * i;
    let a = bits::four(page, from);
    let b = bits::four(page, from + 4);
    let c = bits::four(page, from + 8);
    let to = 128 + 96 * j;
    bits::put_field(page, to, 32, a as u64);
    bits::put_field(page, to + 32, 32, b as u64);
    bits::put_field(page, to + 64, 32, c as u64);
}

// The same; an entry that stands at its place already is left alone.
pub fn move_entry(page: &mut [u8], i: usize, j: usize)
    requires { (16 + 12 * i + 12 ≤ length page.old) × (16 + 12 * j + 12 ≤ length page.old) × (length page.old ≤ 2 ^ 40) }
    ensures { page.new
        ≡ lay page.old (128 + 96 * j) (entry_parts (read_entry page.old (128 + 96 * i))) }
{
    if i != j {
        copy_entry(page, i, j);
    }
}
