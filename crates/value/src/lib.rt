// Values of eleven kinds, and what each stands for. f32 and f64 carry a float; the pattern of a NaN, which no float can tell, stands beside it.
// f16, for which the language has no type, carries its pattern.
// Every rule of the crates above speaks of a value's kind, its bits and its number (docs/RULES.md: The kinds), never of its parts.
#![tactic(auto)]

mod kinds;
mod patterns;

pub use kinds::{bytes_of, kind_number, kind_of, kind_of_number, layout_of, width_of};
pub use patterns::{bits_f32, bits_f64, bits_of, f32_value, f64_value, value_of};

#[derive(Clone, Copy, Debug, PartialEq, Eq)]
pub enum Kind {
    U8,
    U16,
    U32,
    U64,
    I8,
    I16,
    I32,
    I64,
    F32,
    F64,
    F16,
}

// A kind's form: how many bits, and of a float how many of them are the fraction.
#[derive(Clone, Copy, Debug, PartialEq, Eq)]
pub enum Layout {
    Unsigned(u8),
    Signed(u8),
    Float(u8, u8),
}

// The second part of F32 and F64 is the pattern of a NaN: it is looked at only when the float is a NaN. F16 is its 16 bits.
#[derive(Clone, Copy)]
pub enum Value {
    U8(u8),
    U16(u16),
    U32(u32),
    U64(u64),
    I8(i8),
    I16(i16),
    I32(i32),
    I64(i64),
    F32(f32, u32),
    F64(f64, u64),
    F16(u16),
}

// The number of the rule that refused, and the place of the first field or sample that it met. It is a number, as the C interface hands it out.
#[derive(Clone, Copy, Debug, PartialEq, Eq)]
pub struct Refusal {
    pub number: u8,
    pub place: usize,
}
