// The kinds of settings: which values a setting may take, and the table in which a caller lends the kinds. A value is 32 bits: an
// unsigned number, 0 or 1, or the bits of a float.
#![tactic(auto)]

ghost use Rattle.std.specs.Prelude.{◌≡◌};
ghost use Rattle.std.specs.Float.Ieee.{of_bits, nan_bits};
ghost use Rattle.std.specs.Float.{binary32};
ghost use Rattle.model.specs.Kinds.{admits, row_kind, known_in, allowed, unknown, unlike};
ghost use Rattle.model.specs.Refusals.{number_in};

use model::{Kind, Refusal};

mod table;

pub use table::wrong_row;

// Whether 32 bits are a NaN's: without the sign, above those of infinity.
fn is_nan(bits: u32) -> bool
    ensures { result ≡ nan_bits binary32 bits }
{
    2139095040 < bits % 2147483648
}

// The float that 32 bits stand for, a NaN's too.
pub fn float_of(bits: u32) -> f32
    ensures { result ≡ of_bits binary32 bits }
{
    if is_nan(bits) {
        f32::NAN
    } else {
        f32::from_bits(bits)
    }
}

// Whether a value is of the kind and inside its limits, both ends included. No comparison holds of a NaN, so a NaN lies in no level, and a
// level with a NaN for a limit has no value.
pub fn admits(kind: Kind, value: u32) -> bool
    ensures { result ≡ admits kind value }
{
    match kind {
        Kind::Whole(low, high) => (low..=high).contains(&value),
        Kind::Switch => value <= 1,
        Kind::Level(low, high) => (low..=high).contains(&float_of(value)),
    }
}

// The kind of a row: 0 a whole number, 1 a switch, 2 a level, with its limits; any other number is no kind.
fn row_kind(number: u32, low: u32, high: u32) -> Option<Kind>
    ensures { result ≡ row_kind number low high }
{
    match number {
        0 => Some(Kind::Whole(low, high)),
        1 => Some(Kind::Switch),
        2 => Some(Kind::Level(float_of(low), float_of(high))),
        _ => None,
    }
}

// What a table of rows of four numbers (key, kind, lowest, highest) says of a key: the first row that has it counts.
pub fn kind_of(table: &[u32], key: u32) -> Option<Kind>
    ensures { result ≡ known_in table.now key }
{
    for i in 0..table.len() / 4 {
        let at = 4 * i;
        if table[at] == key {
            return row_kind(table[at + 1], table[at + 2], table[at + 3]);
        }
    }
    None
}

// The layer's own refusals of an insert: an unknown key, and a value that its kind does not admit.
pub fn allowed(known: Option<Kind>, value: u32) -> Result<(), Refusal>
    ensures { number_in result ≡ allowed known value }
{
    match known {
        Some(kind) if !admits(kind, value) => Err(Refusal::ValueNotAdmitted),
        _ => unknown(known),
    }
}

// Refuses an unknown key.
pub fn unknown(known: Option<Kind>) -> Result<(), Refusal>
    ensures { number_in result ≡ unknown known }
{
    match known {
        Some(_) => Ok(()),
        None => Err(Refusal::KeyUnknown),
    }
}

// Refuses an unknown key, and one of another kind than the number's.
pub fn unlike(number: u32, known: Option<Kind>) -> Result<(), Refusal>
    ensures { number_in result ≡ unlike number known }
{
    match known {
        Some(kind) if table::number_of(kind) != number => Err(Refusal::ValueNotAdmitted),
        _ => unknown(known),
    }
}
