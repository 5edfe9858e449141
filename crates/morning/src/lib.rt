// Many lookups on a store that is judged once, for bench/: what a lookup costs besides the judging.
#![tactic(auto)]

ghost use Rattle.std.specs.Prelude.{◌<◌};
ghost use Rattle.walk.specs.Sure.{Walkable};

use model::Limits;

// The sum, modulo 2^32, of what n lookups find: of the key `from` and of every `step`th behind it, modulo the number of keys.
fn look_on(s: &[u8], l: Limits, from: u32, step: u32, n: u32, v: u32) -> u64
    requires { Walkable l s.now v }
{
    let mut key = from % 16777216;
    let stride = step % 16777216;
    let mut sum: u64 = 0;
    for _ in 0..n {
        let value = walk::lookup(s, l, key, v).unwrap_or(0);
        sum = (sum + u64::from(value)) % 4294967296;
        key = (key + stride) % 16777216;
    }
    sum
}

// The same on any bytes; 0 where a lookup at the version would be refused.
#[unsafe(no_mangle)]
pub extern "C" fn morning_lookups(s: &[u8], from: u32, step: u32, n: u32, version: u32) -> u64 {
    let l = model::edition_one();
    match reads::guard_reading(s, l, false, version) {
        Ok(()) => look_on(s, l, from, step, n, version),
        Err(_) => 0,
    }
}
