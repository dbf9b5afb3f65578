// The comparison of two records, field by field. RULES.md: Records.
ghost use Rattle.value.specs.Outcome.{outcome_of};
ghost use Rattle.std.specs.Prelude.{◌≡◌, false, ◌+◌, ◌≤◌, ◌<◌, take, drop};
ghost use Rattle.cmp.specs.Compare.{kinds_differ, value_order};
ghost use Rattle.record.specs.Record.{value_at};
ghost use Rattle.lexical.specs.Lexical.{shapes_differ, compare_of};
ghost use Rattle.lexical.specs.Inner.{decision_from, decide_of};

use crate::shapes::{bad_counts, shapes_differ};
use float::Order;
use record::Record;
use value::Refusal;

// How two records of one shape compare, and the index of the field that decides.
#[derive(Clone, Copy)]
pub(crate) struct Decision {
    pub order: Order,
    pub at: usize,
}

// The order of the values in a place, which are of one kind and so never refused.
fn order_at(a: Record, b: Record, at: usize) -> Order
    requires { (at < 12) × (kinds_differ (value_at a.fields at) (value_at b.fields at) ≡ false) }
    ensures { result ≡ value_order (value_at a.fields at) (value_at b.fields at) }
{
    cmp::compare(a.fields[at].value, b.fields[at].value).unwrap_or(Order::Unordered)
}

// From a place on: the field there, and when it is Equal a call on the fields that are left behind it.
// It calls itself and is no loop: a rule of the project names this form for the comparison of records.
fn compare_from(a: Record, b: Record, at: usize, left: usize) -> Decision
    requires { (at + left ≤ 12) × (shapes_differ (take left (drop at a.fields)) (take left (drop at b.fields)) ≡ false) }
    ensures { result ≡ decision_from at (take left (drop at a.fields)) (take left (drop at b.fields)) }
{
    if left == 0 {
        return Decision {
            order: Order::Equal,
            at,
        };
    }
    match order_at(a, b, at) {
        Order::Equal => compare_from(a, b, at + 1, left - 1),
        order => Decision { order, at },
    }
}

// Rules 11 and 7, then the comparison.
#[tactic(auto, unfolding(crate::specs::Inner::decide_of))]
pub(crate) fn decide(a: Record, b: Record) -> Result<Decision, Refusal>
    ensures { outcome_of result ≡ decide_of a b }
{
    if bad_counts(a.count, b.count) {
        return Err(Refusal {
            number: 11,
            place: 0,
        });
    }
    if shapes_differ(&a.fields[..a.count], &b.fields[..b.count]) {
        return Err(Refusal {
            number: 7,
            place: 0,
        });
    }
    Ok(compare_from(a, b, 0, a.count))
}

pub fn compare(a: Record, b: Record) -> Result<Order, Refusal>
    ensures { outcome_of result ≡ compare_of a b }
{
    let d = decide(a, b)?;
    Ok(d.order)
}
