// Rows of samples that the caller lends, converted into a second row. A row is refused whole, with the lowest index deciding, or done whole:
// a pass that only looks comes before the pass that writes (docs/RULES.md: Rows). A row is clamped by the crate rowclamp.
#![tactic(auto)]

mod conversion;
mod floating;
mod looking;
mod narrowing;
mod wholes;
mod widening;

pub use floating::u16_to_f32;
pub use looking::{Test, first_of};
pub use narrowing::u16_to_u8;
use value::Refusal;
pub use wholes::f32_to_u16;
pub use widening::u8_to_u16;
