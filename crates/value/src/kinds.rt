// Kinds, their numbers 0 to 10, and their forms. RULES.md: The kinds.
ghost use Rattle.std.specs.Prelude.{◌≡◌, ◌≤◌, ◌<◌};
ghost use Rattle.value.specs.Kinds.{kind_of, kind_number, kind_at, form_of, layout_for, width_of, bytes_of};

use crate::{Kind, Layout, Value};

// These conversions keep their names, which callers and docs/ use: From and TryFrom beside them would say each a second time.

pub fn kind_of(v: Value) -> Kind
    ensures { result ≡ kind_of v }
{
    match v {
        Value::U8(_) => Kind::U8,
        Value::U16(_) => Kind::U16,
        Value::U32(_) => Kind::U32,
        Value::U64(_) => Kind::U64,
        Value::I8(_) => Kind::I8,
        Value::I16(_) => Kind::I16,
        Value::I32(_) => Kind::I32,
        Value::I64(_) => Kind::I64,
        Value::F32(_, _) => Kind::F32,
        Value::F64(_, _) => Kind::F64,
        Value::F16(_) => Kind::F16,
    }
}

pub fn kind_number(k: Kind) -> u8
    ensures { result ≡ kind_number k }
{
    k as u8
}

pub fn layout_of(k: Kind) -> Layout
    ensures { result ≡ layout_for (form_of k) }
{
    match k {
        Kind::U8 => Layout::Unsigned(8),
        Kind::U16 => Layout::Unsigned(16),
        Kind::U32 => Layout::Unsigned(32),
        Kind::U64 => Layout::Unsigned(64),
        Kind::I8 => Layout::Signed(8),
        Kind::I16 => Layout::Signed(16),
        Kind::I32 => Layout::Signed(32),
        Kind::I64 => Layout::Signed(64),
        Kind::F32 => Layout::Float(32, 23),
        Kind::F64 => Layout::Float(64, 52),
        Kind::F16 => Layout::Float(16, 10),
    }
}

// How many bits a sample of the kind has.
pub fn width_of(k: Kind) -> usize
    ensures { (result ≡ width_of k) × (8 ≤ result) × (result ≤ 64) }
{
    match layout_of(k) {
        Layout::Unsigned(width) | Layout::Signed(width) | Layout::Float(width, _) => width as usize,
    }
}

// How many bytes a sample of the kind has.
pub fn bytes_of(k: Kind) -> usize
    ensures { (result ≡ bytes_of k) × (0 < result) × (result ≤ 8) }
{
    width_of(k) / 8
}

// The kinds of each form in the order of their numbers.
const UNSIGNED: [Kind; 4] = [Kind::U8, Kind::U16, Kind::U32, Kind::U64];

const SIGNED: [Kind; 4] = [Kind::I8, Kind::I16, Kind::I32, Kind::I64];

const FLOATS: [Kind; 3] = [Kind::F32, Kind::F64, Kind::F16];

pub fn kind_of_number(n: u8) -> Option<Kind>
    ensures { result ≡ kind_at n }
{
    match n {
        0..=3 => Some(UNSIGNED[n as usize]),
        4..=7 => Some(SIGNED[n as usize - 4]),
        8..=10 => Some(FLOATS[n as usize - 8]),
        _ => None,
    }
}
