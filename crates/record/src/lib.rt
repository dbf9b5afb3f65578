// Records of up to twelve fields, each of its own kind: made, read, and their shape. Two are compared by the crate lexical.
// A record is a count and twelve places; places past the count are never looked at (docs/RULES.md: Records).
#![tactic(auto)]

mod makings;
mod shapes;

pub use makings::{blank, get, push, refused, set};
pub use shapes::{bad_count, blank_shape, shape_of};
use value::{Kind, Refusal, Value};

// One place of a record.
#[derive(Clone, Copy)]
pub struct Field {
    pub value: Value,
}

// Twelve places beside a count, and no Vec: a record is on no heap, and is copied whole.
#[derive(Clone, Copy)]
pub struct Record {
    pub fields: [Field; 12],
    pub count: usize,
}

// One place of a shape.
#[derive(Clone, Copy)]
pub struct Place {
    pub kind: Kind,
}

// The kinds of a record's fields; places past the count are never looked at. On no heap, as a record is.
#[derive(Clone, Copy)]
pub struct Shape {
    pub places: [Place; 12],
    pub count: usize,
}

// A record beside the outcome; after a refusal it is blank: count 0, and u8 0 in every place.
// Not a Result of a record: `recorded_of`, which the contracts cite, owes the blank record beside a refusal.
#[derive(Clone, Copy)]
pub struct Recorded {
    pub outcome: Result<(), Refusal>,
    pub record: Record,
}

// A shape beside the outcome; after a refusal it is blank: count 0, and u8 in every place.
// Not a Result of a shape: `shaped_of`, which the contract cites, owes the blank shape beside a refusal.
#[derive(Clone, Copy)]
pub struct Shaped {
    pub outcome: Result<(), Refusal>,
    pub shape: Shape,
}
