// The comparison of two values. RULES.md: Comparison.
ghost use Rattle.std.specs.Prelude.{◌≡◌};
ghost use Rattle.value.specs.Outcome.{outcome_of};
ghost use Rattle.cmp.specs.Compare.{compare_of};

use float::{Order, order_integers};
use value::{Refusal, Value, bits_f32, bits_f64};

// Rule 7.
const KINDS_DIFFER: Refusal = Refusal {
    number: 7,
    place: 0,
};

pub fn compare(a: Value, b: Value) -> Result<Order, Refusal>
    ensures { outcome_of result ≡ compare_of a b }
{
    match (a, b) {
        (Value::U8(m), Value::U8(n)) => Ok(order_integers(m, n)),
        (Value::U16(m), Value::U16(n)) => Ok(order_integers(m, n)),
        (Value::U32(m), Value::U32(n)) => Ok(order_integers(m, n)),
        (Value::U64(m), Value::U64(n)) => Ok(order_integers(m, n)),
        (Value::I8(m), Value::I8(n)) => Ok(order_integers(m, n)),
        (Value::I16(m), Value::I16(n)) => Ok(order_integers(m, n)),
        (Value::I32(m), Value::I32(n)) => Ok(order_integers(m, n)),
        (Value::I64(m), Value::I64(n)) => Ok(order_integers(m, n)),
        (Value::F32(x, v), Value::F32(y, w)) => Ok(float::compare(bits_f32(x, v), bits_f32(y, w))),
        (Value::F64(x, v), Value::F64(y, w)) => Ok(float::compare(bits_f64(x, v), bits_f64(y, w))),
        (Value::F16(x), Value::F16(y)) => Ok(float::compare(x, y)),
        _ => Err(KINDS_DIFFER),
    }
}
