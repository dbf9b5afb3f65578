// Choosing between two values, and clamping one (docs/RULES.md: Choosing and clamping).
#![tactic(auto)]

mod choosing;
mod ranges;

pub use choosing::{clamp, max, min};
use value::{Refusal, Value};

// A range of samples: two bounds, which may hold anything.
#[derive(Clone, Copy)]
pub struct Range {
    pub lower: f32,
    pub upper: f32,
}

// The rules that refuse a range, and a choice or a clamp.
const BAD_BOUNDS: Refusal = Refusal {
    number: 6,
    place: 0,
};

const UNORDERED: Refusal = Refusal {
    number: 8,
    place: 0,
};
