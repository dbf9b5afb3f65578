// A number put together in the target kind, or the rule that refuses it. RULES.md: Exact conversion.
ghost use Rattle.std.specs.Prelude.{◌≡◌, cond, ◌+◌, ◌*◌, ◌^◌, ◌≤◌, ◌<◌};
ghost use Rattle.std.specs.Int.Signed.{mag};
ghost use Rattle.float.specs.Number.{signed_of};
ghost use Rattle.value.specs.Outcome.{outcome_of};
ghost use Rattle.convert.specs.Inner.{into_of, magnitude, meaning, whole_at, whole_in, float_at, float_in, find_in, FitsIn, make_in};
ghost use Rattle.value.specs.Kinds.{form_of};

use crate::digits::{over, size_of};
use crate::formats::{F16, F32, F64, FloatFormat};
use crate::{Found, Parts, Scaled};
use value::{Kind, Refusal, Value};

// The rules that refuse a conversion.
const NO_NUMBER: Refusal = Refusal {
    number: 1,
    place: 0,
};

const INFINITE: Refusal = Refusal {
    number: 2,
    place: 0,
};

const FRACTION: Refusal = Refusal {
    number: 3,
    place: 0,
};

const OUT_OF_RANGE: Refusal = Refusal {
    number: 4,
    place: 0,
};

const NOT_HELD: Refusal = Refusal {
    number: 5,
    place: 0,
};

const MINUS_ZERO: Refusal = Refusal {
    number: 13,
    place: 0,
};

// A number as a whole number from -low to high; minus zero is none. From 2^64 on there is no fraction left.
fn whole(n: Scaled, low: u64, high: u64) -> Result<Found, Refusal>
    ensures { outcome_of result ≡ whole_at low high n.negative (magnitude n) }
{
    if n.digits == 0 {
        if n.negative {
            return Err(MINUS_ZERO);
        }
        return Ok(Found {
            negative: false,
            number: 0,
        });
    }
    if size_of(n.digits) as u64 + n.shift as u64 > 1138 {
        return Err(OUT_OF_RANGE);
    }
    let ratio = over(n, 1074);
    if ratio.rest {
        return Err(FRACTION);
    }
    let limit = if n.negative { low } else { high };
    if ratio.quotient > limit {
        return Err(OUT_OF_RANGE);
    }
    Ok(Found {
        negative: n.negative,
        number: ratio.quotient,
    })
}

fn whole_in(x: Parts, low: u64, high: u64) -> Result<Found, Refusal>
    ensures { outcome_of result ≡ whole_in low high (meaning x) }
{
    match x {
        Parts::NotANumber => Err(NO_NUMBER),
        Parts::Infinite(_) => Err(INFINITE),
        Parts::Finite(n) => whole(n, low, high),
    }
}

// A number in a float format: its leading digits are kept, one more than the fraction has, and those below have to be 0. Field k + 1 is the exponent's.
#[tactic(auto, using(crate::proofs::Holds::far_refused))]
fn held(n: Scaled, format: FloatFormat) -> Result<Found, Refusal>
    ensures { outcome_of result ≡ float_at format.fraction (2 ^ format.step) format.last n.negative (magnitude n) }
{
    if n.digits == 0 {
        return Ok(Found {
            negative: n.negative,
            number: 0,
        });
    }
    let digits = size_of(n.digits) as u64 + n.shift as u64;
    let kept = format.fraction as u64 + 1 + format.step as u64;
    let k = digits.saturating_sub(kept);
    if k > format.last as u64 {
        return Err(OUT_OF_RANGE);
    }
    let ratio = over(n, k + format.step as u64);
    if ratio.rest {
        if k == format.last as u64 && ratio.quotient == (2u64 << format.fraction) - 1 {
            return Err(OUT_OF_RANGE);
        }
        return Err(NOT_HELD);
    }
    Ok(Found {
        negative: n.negative,
        number: (k << format.fraction) + ratio.quotient,
    })
}

fn float_in(x: Parts, format: FloatFormat) -> Result<Found, Refusal>
    ensures { outcome_of result ≡ float_in format.fraction (2 ^ format.step) format.last (meaning x) }
{
    match x {
        Parts::NotANumber => Err(NO_NUMBER),
        Parts::Infinite(negative) => Ok(Found {
            negative,
            number: format.infinity(),
        }),
        Parts::Finite(n) => held(n, format),
    }
}

// ---- the value

impl Found {
    fn signed(self) -> i64
        requires { mag (signed_of self.negative self.number) < 2 ^ 63 }
        ensures { result ≡ signed_of self.negative self.number }
    {
        if self.negative {
            0i64.saturating_sub_unsigned(self.number)
        } else {
            self.number as i64
        }
    }

    // The pattern, of a format with this sign bit.
    pub(crate) fn with_sign(self, sign: u64) -> u64
        requires { (self.number < sign) × (sign ≤ 2 ^ 63) }
        ensures { (result ≡ cond self.negative (sign + self.number) self.number) × (result < 2 * sign) }
    {
        if self.negative {
            sign + self.number
        } else {
            self.number
        }
    }
}

// What the target kind finds: a whole number in its range, or the abs of its format.
fn find(x: Parts, to: Kind) -> Result<Found, Refusal>
    ensures { outcome_of result ≡ find_in to (meaning x) }
{
    match to {
        Kind::U8 => whole_in(x, 0, 0xff),
        Kind::U16 => whole_in(x, 0, 0xffff),
        Kind::U32 => whole_in(x, 0, 0xffff_ffff),
        Kind::U64 => whole_in(x, 0, 0xffff_ffff_ffff_ffff),
        Kind::I8 => whole_in(x, 0x80, 0x7f),
        Kind::I16 => whole_in(x, 0x8000, 0x7fff),
        Kind::I32 => whole_in(x, 0x8000_0000, 0x7fff_ffff),
        Kind::I64 => whole_in(x, 0x8000_0000_0000_0000, 0x7fff_ffff_ffff_ffff),
        Kind::F32 => float_in(x, F32),
        Kind::F64 => float_in(x, F64),
        Kind::F16 => float_in(x, F16),
    }
}

// The value that it makes of what it finds.
fn make(to: Kind, found: Found) -> Value
    requires { FitsIn (form_of to) found.negative found.number }
    ensures { result ≡ make_in to found.negative found.number }
{
    match to {
        Kind::U8 => Value::U8(found.number as u8),
        Kind::U16 => Value::U16(found.number as u16),
        Kind::U32 => Value::U32(found.number as u32),
        Kind::U64 => Value::U64(found.number),
        Kind::I8 => Value::I8(found.signed() as i8),
        Kind::I16 => Value::I16(found.signed() as i16),
        Kind::I32 => Value::I32(found.signed() as i32),
        Kind::I64 => Value::I64(found.signed()),
        Kind::F32 => value::f32_value(found.with_sign(0x8000_0000) as u32),
        Kind::F64 => value::f64_value(found.with_sign(0x8000_0000_0000_0000)),
        Kind::F16 => Value::F16(found.with_sign(0x8000) as u16),
    }
}

pub(crate) fn put(x: Parts, to: Kind) -> Result<Value, Refusal>
    ensures { outcome_of result ≡ into_of to (meaning x) }
{
    let found = find(x, to)?;
    Ok(make(to, found))
}
