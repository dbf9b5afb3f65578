// A value taken apart into the number that it stands for. RULES.md: The kinds, Scaled numbers.
ghost use Rattle.std.specs.Prelude.{◌≡◌, ◌+◌, ◌*◌, ◌^◌};
ghost use Rattle.float.specs.Number.{finite, times};
ghost use Rattle.value.specs.Meaning.{unit, exact_of};
ghost use Rattle.convert.specs.Inner.{meaning, pattern_at};

use crate::formats::{F16, F32, F64, FloatFormat};
use crate::{Parts, Scaled};
use value::Value;

// A whole number by its sign and its magnitude.
fn whole_parts(negative: bool, digits: u64) -> Parts
    ensures { meaning result ≡ finite negative (digits * unit) }
{
    Parts::Finite(Scaled {
        negative,
        digits,
        shift: 1074,
    })
}

// A float by its sign and abs.
fn float_parts(negative: bool, a: u64, format: FloatFormat) -> Parts
    ensures { let inf = (format.last + 2) * 2 ^ format.fraction in meaning result ≡ times (2 ^ format.step) (pattern_at format.fraction inf negative a) }
{
    let inf = format.infinity();
    if a > inf {
        return Parts::NotANumber;
    }
    if a == inf {
        return Parts::Infinite(negative);
    }
    let hidden = format.hidden();
    let field = a / hidden;
    let fraction = a % hidden;
    Parts::Finite(if field == 0 {
        Scaled {
            negative,
            digits: fraction,
            shift: format.step,
        }
    } else {
        Scaled {
            negative,
            digits: hidden + fraction,
            shift: (field - 1) as u16 + format.step,
        }
    })
}

pub(crate) fn parts_of(v: Value) -> Parts
    ensures { meaning result ≡ exact_of v }
{
    match v {
        Value::U8(n) => whole_parts(false, n as u64),
        Value::U16(n) => whole_parts(false, n as u64),
        Value::U32(n) => whole_parts(false, n as u64),
        Value::U64(n) => whole_parts(false, n),
        Value::I8(z) => whole_parts(z < 0, z.unsigned_abs() as u64),
        Value::I16(z) => whole_parts(z < 0, z.unsigned_abs() as u64),
        Value::I32(z) => whole_parts(z < 0, z.unsigned_abs() as u64),
        Value::I64(z) => whole_parts(z < 0, z.unsigned_abs()),
        Value::F32(x, word) => {
            let b = value::bits_f32(x, word);
            float_parts(float::is_sign_negative(b), float::abs(b) as u64, F32)
        }
        Value::F64(x, word) => {
            let b = value::bits_f64(x, word);
            float_parts(float::is_sign_negative(b), float::abs(b), F64)
        }
        Value::F16(b) => float_parts(float::is_sign_negative(b), float::abs(b) as u64, F16),
    }
}
