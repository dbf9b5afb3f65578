// Comparison of two values, the six tests of it, the total order.
// Values of different kinds are refused with 7, place 0. Two values of one kind compare as the numbers that they stand for
// (docs/RULES.md: Comparison, Total order).
#![tactic(auto)]

mod comparison;
mod tests;
mod total;

pub use comparison::compare;
pub use tests::{eq, ge, gt, le, lt, ne};
pub use total::total_order;
