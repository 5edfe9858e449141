// Bit fields of a byte slice, packed with the most significant bit first.
#![tactic(auto)]

ghost use Rattle.std.specs.Prelude.{◌≡◌, ◌+◌, ◌*◌, ◌-◌, ◌/◌, ◌%◌, ◌^◌, ◌≤◌, ◌<◌, length};
ghost use Rattle.model.specs.Field.{field, put_field};

// The number of n whole bytes from byte `first` on.
fn word(s: &[u8], first: usize, n: usize) -> u64
    requires { (first + n ≤ length s.now) × (n ≤ 5) × (length s.now ≤ 2 ^ 40) }
    ensures { result ≡ field s.now (8 * first) (8 * n) }
{
    let mut r: u64 = 0;
    for i in 0..n {
        r = r * 256 + s[first + i] as u64;
    }
    r
}

// The number of the four whole bytes from byte `first` on. A place in bits is multiplied by eight and divided again when the program
// runs; a place in bytes is not.
pub fn four(s: &[u8], first: usize) -> u32
    requires { (first + 4 ≤ length s.now) × (length s.now ≤ 2 ^ 40) }
    ensures { result ≡ field s.now (8 * first) 32 }
{
    word(s, first, 4) as u32
}

// The number of the byte `first`.
pub fn one(s: &[u8], first: usize) -> u32
    requires { first < length s.now }
    ensures { result ≡ field s.now (8 * first) 8 }
{
    s[first] as u32
}

// The number of the `width` bits from bit `at` on. Every reader of the store whose field is not whole bytes reads through this one
// function, by whole bytes: those that the field touches, five at most, make one word, whose ends are trimmed.
pub fn field(s: &[u8], at: usize, width: usize) -> u32
    requires { (at + width ≤ 8 * length s.now) × (width ≤ 32) × (length s.now ≤ 2 ^ 40) }
    ensures { result ≡ field s.now at width }
{
    let skip = at % 8;
    let n = (skip + width + 7) / 8;
    let spare = 8 * n - skip - width;
    let w = word(s, at / 8, n);
    ((w >> spare) % (1 << width)) as u32
}

// Writes n whole bytes from byte `first` on.
fn put_word(s: &mut [u8], first: usize, n: usize, v: u64)
    requires { (first + n ≤ length s.old) × (n ≤ 5) × (length s.old ≤ 2 ^ 40) }
    ensures { s.new ≡ put_field s.old (8 * first) (8 * n) v }
{
    for i in 0..n {
        s[first + i] = ((v >> (8 * (n - 1 - i))) % 256) as u8;
    }
}

// A word in which v takes the place of the `width` bits before the last `spare`.
fn mixed(w: u64, width: usize, spare: usize, v: u64) -> u64
    requires { (w < 2 ^ 40) × (width ≤ 32) × (spare < 8) × (v < 2 ^ width) }
    ensures { result ≡ (w / 2 ^ spare / 2 ^ width * 2 ^ width + v) * 2 ^ spare + w % 2 ^ spare }
{
    let p = 1 << width;
    let q = 1 << spare;
    (w / q / p * p + v) * q + w % q
}

// Writes a field of at most 32 bits, by the whole bytes that it touches.
fn put_short(s: &mut [u8], at: usize, width: usize, v: u64)
    requires { (at + width ≤ 8 * length s.old) × (v < 2 ^ width) × (width ≤ 32) × (length s.old ≤ 2 ^ 40) }
    ensures { s.new ≡ put_field s.old at width v }
{
    let skip = at % 8;
    let n = (skip + width + 7) / 8;
    let spare = 8 * n - skip - width;
    let w = mixed(word(s, at / 8, n), width, spare, v);
    put_word(s, at / 8, n, w);
}

// Writes the number v into the `width` bits from bit `at` on: those above the last 32 first.
pub fn put_field(s: &mut [u8], at: usize, width: usize, v: u64)
    requires { (at + width ≤ 8 * length s.old) × (v < 2 ^ width) × (width < 64) × (length s.old ≤ 2 ^ 40) }
    ensures { s.new ≡ put_field s.old at width v }
{
    if width <= 32 {
        put_short(s, at, width, v);
    } else {
        let m = width - 32;
        put_short(s, at, m, v >> 32);
        put_short(s, at + m, 32, v % (1 << 32));
    }
}
