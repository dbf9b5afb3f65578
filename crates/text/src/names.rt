// The names of the kinds, and how many hex digits a value of each has.
ghost use Rattle.std.specs.Prelude.{◌≡◌};
ghost use Rattle.text.specs.Names.{kind_named, digits_of};

use crate::words::word_number;
use value::{Kind, kind_of_number, width_of};

// The names stand in the order of the kinds.
pub const KIND_NAMES: [u8; 41] = *b"u8 u16 u32 u64 i8 i16 i32 i64 f32 f64 f16";

pub fn kind_named(s: &[u8]) -> Option<Kind>
    ensures { result ≡ kind_named s.now }
{
    kind_of_number(word_number(s, &KIND_NAMES) as u8)
}

pub fn digits_of(k: Kind) -> usize
    ensures { result ≡ digits_of k }
{
    width_of(k) / 4
}
