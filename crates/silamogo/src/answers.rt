// What the libraries answered, as numbers. RULES.md: The boundary.
ghost use Rattle.std.specs.Prelude.{◌≡◌};
ghost use Rattle.value.specs.Outcome.{outcome_of};
ghost use Rattle.row.specs.Row.{rowed_outcome};
ghost use Rattle.silamogo.specs.Answer.{answered_of, ordered_of, classed_of, positioned_of, sampled_of, measured_of};

use crate::{Answer, Classed, Measured, Ordered, Positioned, Sampled};
use float::{Class, Order};
use value::{Refusal, Value};

impl From<Result<(), Refusal>> for Answer {
    ghost from_gives = { λ r a. a ≡ answered_of (rowed_outcome r) };

    fn from(r: Result<(), Refusal>) -> Answer {
        match r {
            Ok(()) => Answer {
                number: 0,
                place: 0,
            },
            Err(Refusal { number, place }) => Answer { number, place },
        }
    }
}

impl From<Result<Order, Refusal>> for Ordered {
    ghost from_gives = { λ r a. a ≡ ordered_of (outcome_of r) };

    fn from(r: Result<Order, Refusal>) -> Ordered {
        match r {
            Ok(o) => Ordered {
                number: 0,
                place: 0,
                order: o as u8,
            },
            Err(Refusal { number, place }) => Ordered {
                number,
                place,
                order: 0,
            },
        }
    }
}

impl From<Result<Class, Refusal>> for Classed {
    ghost from_gives = { λ r a. a ≡ classed_of (outcome_of r) };

    fn from(r: Result<Class, Refusal>) -> Classed {
        match r {
            Ok(c) => Classed {
                number: 0,
                place: 0,
                class: c as u8,
            },
            Err(Refusal { number, place }) => Classed {
                number,
                place,
                class: 0,
            },
        }
    }
}

impl From<Result<i64, Refusal>> for Positioned {
    ghost from_gives = { λ r a. a ≡ positioned_of (outcome_of r) };

    fn from(r: Result<i64, Refusal>) -> Positioned {
        match r {
            Ok(position) => Positioned {
                number: 0,
                place: 0,
                position,
            },
            Err(Refusal { number, place }) => Positioned {
                number,
                place,
                position: 0,
            },
        }
    }
}

impl From<Result<Value, Refusal>> for Sampled {
    ghost from_gives = { λ r a. a ≡ sampled_of (outcome_of r) };

    fn from(r: Result<Value, Refusal>) -> Sampled {
        match r {
            Ok(v) => Sampled {
                number: 0,
                place: 0,
                kind: value::kind_number(value::kind_of(v)),
                bits: value::bits_of(v),
            },
            Err(Refusal { number, place }) => Sampled {
                number,
                place,
                kind: 0,
                bits: 0,
            },
        }
    }
}

impl From<Result<usize, Refusal>> for Measured {
    ghost from_gives = { λ r a. a ≡ measured_of (outcome_of r) };

    fn from(r: Result<usize, Refusal>) -> Measured {
        match r {
            Ok(length) => Measured {
                number: 0,
                place: 0,
                length,
            },
            Err(Refusal { number, place }) => Measured {
                number,
                place,
                length: 0,
            },
        }
    }
}
