// The total order of two values. RULES.md: Total order.
ghost use Rattle.value.specs.Outcome.{outcome_of};
ghost use Rattle.std.specs.Prelude.{◌≡◌};
ghost use Rattle.float.specs.Format.{position_in};
ghost use Rattle.float.specs.Order.{order_z};
ghost use Rattle.cmp.specs.Compare.{total_of};

use crate::compare;
use float::{Order, Pattern, order_integers, position};
use value::{Refusal, Value, bits_f32, bits_f64};

// Two patterns by their places.
fn by_position<P: Pattern>(x: P, y: P) -> Order
    ensures { result ≡ order_z (position_in P.format (P.whole x)) (position_in P.format (P.whole y)) }
{
    order_integers(position(x), position(y))
}

pub fn total_order(a: Value, b: Value) -> Result<Order, Refusal>
    ensures { outcome_of result ≡ total_of a b }
{
    match (a, b) {
        (Value::F32(x, v), Value::F32(y, w)) => Ok(by_position(bits_f32(x, v), bits_f32(y, w))),
        (Value::F64(x, v), Value::F64(y, w)) => Ok(by_position(bits_f64(x, v), bits_f64(y, w))),
        (Value::F16(x), Value::F16(y)) => Ok(by_position(x, y)),
        _ => compare(a, b),
    }
}
