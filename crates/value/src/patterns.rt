// From a value to its bits and back. RULES.md: The kinds.
ghost use Rattle.std.specs.Prelude.{◌≡◌};
ghost use Rattle.std.specs.Float.{binary32, binary64};
ghost use Rattle.value.specs.Meaning.{float_bits, bits_of, f32_value, f64_value, value_of};

use crate::{Kind, Value};

// f32 and f64 stand twice, in four functions: a trait over the two would have as many parts to write for each, and be longer.

pub fn bits_f32(x: f32, word: u32) -> u32
    ensures { result ≡ float_bits binary32 x word }
{
    if !x.is_nan() {
        x.to_bits()
    } else if float::is_nan(word) {
        word
    } else {
        0x7fc0_0000
    }
}

pub fn bits_f64(x: f64, word: u64) -> u64
    ensures { result ≡ float_bits binary64 x word }
{
    if !x.is_nan() {
        x.to_bits()
    } else if float::is_nan(word) {
        word
    } else {
        0x7ff8_0000_0000_0000
    }
}

pub fn f32_value(bits: u32) -> Value
    ensures { result ≡ f32_value bits }
{
    if float::is_nan(bits) {
        Value::F32(f32::NAN, bits)
    } else {
        Value::F32(f32::from_bits(bits), 0)
    }
}

pub fn f64_value(bits: u64) -> Value
    ensures { result ≡ f64_value bits }
{
    if float::is_nan(bits) {
        Value::F64(f64::NAN, bits)
    } else {
        Value::F64(f64::from_bits(bits), 0)
    }
}

pub fn bits_of(v: Value) -> u64
    ensures { result ≡ bits_of v }
{
    match v {
        Value::U8(n) => n as u64,
        Value::U16(n) => n as u64,
        Value::U32(n) => n as u64,
        Value::U64(n) => n,
        Value::I8(z) => z.cast_unsigned() as u64,
        Value::I16(z) => z.cast_unsigned() as u64,
        Value::I32(z) => z.cast_unsigned() as u64,
        Value::I64(z) => z.cast_unsigned(),
        Value::F32(x, word) => bits_f32(x, word) as u64,
        Value::F64(x, word) => bits_f64(x, word),
        Value::F16(b) => b as u64,
    }
}

// Bits above the kind's width are not looked at.
pub fn value_of(k: Kind, bits: u64) -> Value
    ensures { result ≡ value_of k bits }
{
    match k {
        Kind::U8 => Value::U8((bits % 0x100) as u8),
        Kind::U16 => Value::U16((bits % 0x1_0000) as u16),
        Kind::U32 => Value::U32((bits % 0x1_0000_0000) as u32),
        Kind::U64 => Value::U64(bits),
        Kind::I8 => Value::I8(((bits % 0x100) as u8).cast_signed()),
        Kind::I16 => Value::I16(((bits % 0x1_0000) as u16).cast_signed()),
        Kind::I32 => Value::I32(((bits % 0x1_0000_0000) as u32).cast_signed()),
        Kind::I64 => Value::I64(bits.cast_signed()),
        Kind::F32 => f32_value((bits % 0x1_0000_0000) as u32),
        Kind::F64 => f64_value(bits),
        Kind::F16 => Value::F16((bits % 0x1_0000) as u16),
    }
}
