// Counts and shapes of records. RULES.md: Records.
ghost use Rattle.std.specs.Prelude.{◌≡◌, ◌≤◌, length};
ghost use Rattle.record.specs.Record.{bad_count, kinds_of, blank_shape, shape_for, shaped_of, shape_of};

use crate::{Field, Place, Record, Shape, Shaped};
use value::{Kind, Refusal, kind_of};

// Rule 11.
pub fn bad_count(n: usize) -> bool
    ensures { result ≡ bad_count n }
{
    n == 0 || 12 < n
}

pub fn blank_shape() -> Shape
    ensures { result ≡ blank_shape }
{
    Shape {
        places: [Place { kind: Kind::U8 }; 12],
        count: 0,
    }
}

impl From<Result<Shape, Refusal>> for Shaped {
    ghost use Rattle.std.specs.Prelude.{◌≡◌};
    ghost use Rattle.value.specs.Outcome.{outcome_of};
    ghost use Rattle.record.specs.Record.{shaped_of};

    ghost from_gives = { λ answer shaped. shaped ≡ shaped_of (outcome_of answer) };

    fn from(answer: Result<Shape, Refusal>) -> Shaped {
        match answer {
            Ok(shape) => Shaped {
                outcome: Ok(()),
                shape,
            },
            Err(refusal) => Shaped {
                outcome: Err(refusal),
                shape: blank_shape(),
            },
        }
    }
}

// The kinds of the fields, and u8 in the places past them.
fn shape_for(fields: &[Field]) -> Shape
    requires { length fields.now ≤ 12 }
    ensures { result ≡ shape_for (kinds_of fields.now) }
{
    let mut shape = blank_shape();
    for (at, field) in fields.iter().enumerate() {
        shape.places[at] = Place {
            kind: kind_of(field.value),
        };
    }
    shape.count = fields.len();
    shape
}

#[tactic(auto, unfolding(crate::specs::Record::shape_of), using(crate::proofs::Twelve::good_count))]
pub fn shape_of(r: Record) -> Shaped
    ensures { result ≡ shaped_of (shape_of r) }
{
    if bad_count(r.count) {
        return Shaped::from(Err(Refusal {
            number: 11,
            place: 0,
        }));
    }
    Shaped::from(Ok(shape_for(&r.fields[..r.count])))
}
