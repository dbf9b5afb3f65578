// Making records, setting their places and reading them. RULES.md: Records.
ghost use Rattle.std.specs.Prelude.{◌≡◌, ltb};
ghost use Rattle.value.specs.Outcome.{refuses, outcome_of};
ghost use Rattle.record.specs.Record as spec;
ghost use Rattle.record.specs.Record.{recorded_of, set_of, get_of, push_of};

use crate::{Field, Record, Recorded};
use value::{Refusal, Value};

pub fn blank() -> Record
    ensures { result ≡ spec.blank }
{
    Record {
        fields: [Field {
            value: Value::U8(0),
        }; 12],
        count: 0,
    }
}

impl From<Result<Record, Refusal>> for Recorded {
    ghost use Rattle.std.specs.Prelude.{◌≡◌};
    ghost use Rattle.value.specs.Outcome.{outcome_of};
    ghost use Rattle.record.specs.Record.{recorded_of};

    ghost from_gives = { λ answer recorded. recorded ≡ recorded_of (outcome_of answer) };

    fn from(answer: Result<Record, Refusal>) -> Recorded {
        match answer {
            Ok(record) => Recorded {
                outcome: Ok(()),
                record,
            },
            Err(refusal) => Recorded {
                outcome: Err(refusal),
                record: blank(),
            },
        }
    }
}

// A refusal, and the blank record beside it.
pub fn refused(number: u8, place: usize) -> Recorded
    ensures { result ≡ recorded_of (refuses number place) }
{
    Recorded::from(Err(Refusal { number, place }))
}

// Whether an index is none of the twelve places.
fn is_outside(at: usize) -> bool
    ensures { result ≡ ltb 11 at }
{
    11 < at
}

#[tactic(auto, unfolding(crate::specs::Record::set_of))]
pub fn set(r: Record, at: usize, v: Value) -> Recorded
    ensures { result ≡ recorded_of (set_of r at v) }
{
    if is_outside(at) {
        return refused(11, 0);
    }
    let mut changed = r;
    changed.fields[at] = Field { value: v };
    Recorded::from(Ok(changed))
}

#[tactic(auto, unfolding(crate::specs::Record::get_of))]
pub fn get(r: Record, at: usize) -> Result<Value, Refusal>
    ensures { outcome_of result ≡ get_of r at }
{
    if is_outside(at) {
        Err(Refusal {
            number: 11,
            place: 0,
        })
    } else {
        Ok(r.fields[at].value)
    }
}

// One more field behind those that count.
#[tactic(auto, unfolding(crate::specs::Record::push_of))]
pub fn push(r: Record, v: Value) -> Recorded
    ensures { result ≡ recorded_of (push_of r v) }
{
    let end = r.count;
    if is_outside(end) {
        return refused(11, 0);
    }
    let mut changed = r;
    changed.fields[end] = Field { value: v };
    changed.count = end + 1;
    Recorded::from(Ok(changed))
}
