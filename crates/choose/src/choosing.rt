// Choosing between two values, and clamping one. RULES.md: Choosing and clamping.
ghost use Rattle.std.specs.Prelude.{◌≡◌};
ghost use Rattle.value.specs.Outcome.{outcome_of};
ghost use Rattle.cmp.specs.Inner.{chosen_by};
ghost use Rattle.choose.specs.Choose.{min_of, max_of, clamp_of};

use crate::{BAD_BOUNDS, UNORDERED};
use cmp::{compare, le};
use float::Order;
use value::{Refusal, Value};

// The other one when the order is Greater, else the first.
fn chosen(order: Order, one: Value, other: Value) -> Result<Value, Refusal>
    ensures { outcome_of result ≡ chosen_by 0 one other order }
{
    match order {
        Order::Unordered => Err(UNORDERED),
        Order::Greater => Ok(other),
        _ => Ok(one),
    }
}

pub fn min(a: Value, b: Value) -> Result<Value, Refusal>
    ensures { outcome_of result ≡ min_of a b }
{
    chosen(compare(a, b)?, a, b)
}

pub fn max(a: Value, b: Value) -> Result<Value, Refusal>
    ensures { outcome_of result ≡ max_of a b }
{
    chosen(compare(a, b)?, b, a)
}

pub fn clamp(v: Value, lower: Value, upper: Value) -> Result<Value, Refusal>
    ensures { outcome_of result ≡ clamp_of v lower upper }
{
    let low = compare(v, lower)?;
    let high = compare(v, upper)?;
    let in_order = le(lower, upper)?;
    if !in_order {
        return Err(BAD_BOUNDS);
    }
    match (low, high) {
        (Order::Unordered, _) => Err(UNORDERED),
        (Order::Less, _) => Ok(lower),
        (_, Order::Greater) => Ok(upper),
        _ => Ok(v),
    }
}
