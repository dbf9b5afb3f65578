// The six tests of a comparison. RULES.md: Comparison.
ghost use Rattle.std.specs.Prelude.{◌≡◌};
ghost use Rattle.cmp.specs.Compare.{eq_of, ne_of, lt_of, le_of, gt_of, ge_of};
ghost use Rattle.value.specs.Outcome.{mapped, outcome_of};

use crate::compare;
use float::Order;
use value::{Refusal, Value};

pub fn eq(a: Value, b: Value) -> Result<bool, Refusal>
    ensures { outcome_of result ≡ eq_of a b }
{
    compare(a, b).map(|o| o == Order::Equal)
}

pub fn ne(a: Value, b: Value) -> Result<bool, Refusal>
    ensures { outcome_of result ≡ ne_of a b }
{
    compare(a, b).map(|o| o != Order::Equal)
}

pub fn lt(a: Value, b: Value) -> Result<bool, Refusal>
    ensures { outcome_of result ≡ lt_of a b }
{
    compare(a, b).map(|o| o == Order::Less)
}

pub fn le(a: Value, b: Value) -> Result<bool, Refusal>
    ensures { outcome_of result ≡ le_of a b }
{
    compare(a, b).map(|o| matches!(o, Order::Less | Order::Equal))
}

pub fn gt(a: Value, b: Value) -> Result<bool, Refusal>
    ensures { outcome_of result ≡ gt_of a b }
{
    compare(a, b).map(|o| o == Order::Greater)
}

pub fn ge(a: Value, b: Value) -> Result<bool, Refusal>
    ensures { outcome_of result ≡ ge_of a b }
{
    compare(a, b).map(|o| matches!(o, Order::Equal | Order::Greater))
}
