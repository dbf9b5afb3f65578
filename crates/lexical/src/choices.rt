// The lower and the higher of two records. RULES.md: Records.
ghost use Rattle.std.specs.Prelude.{◌≡◌};
ghost use Rattle.value.specs.Outcome.{and_then, outcome_of};
ghost use Rattle.record.specs.Record.{recorded_of};
ghost use Rattle.lexical.specs.Lexical.{min_of, max_of};
ghost use Rattle.lexical.specs.Inner.{chosen_from};

use crate::comparisons::{Decision, decide};
use float::Order;
use record::{Record, Recorded, refused};
use value::Refusal;

// The other one when the order is Greater, else the first.
// The refusal has an arm of its own and no `?`: the wrong body that hands back the first record beside it (must-fail) is a change of that arm.
fn chosen_by(decision: Result<Decision, Refusal>, one: Record, other: Record) -> Recorded
    ensures { result ≡ recorded_of (and_then (outcome_of decision) (chosen_from one other)) }
{
    match decision {
        Ok(d) => match d.order {
            Order::Unordered => refused(8, d.at),
            Order::Greater => Recorded::from(Ok(other)),
            _ => Recorded::from(Ok(one)),
        },
        Err(f) => refused(f.number, f.place),
    }
}

pub fn min(a: Record, b: Record) -> Recorded
    ensures { result ≡ recorded_of (min_of a b) }
{
    chosen_by(decide(a, b), a, b)
}

pub fn max(a: Record, b: Record) -> Recorded
    ensures { result ≡ recorded_of (max_of a b) }
{
    chosen_by(decide(a, b), b, a)
}
