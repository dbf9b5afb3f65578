// f16, f32 and f64 by their bits: sign, class, position in the total order, and the comparison of two patterns.
// Nothing here computes with floats: a pattern is a whole number, and every rule is one about whole numbers (docs/RULES.md).
// Definitions and laws are over (p, e), the numbers of fraction and exponent bits: 10, 5 for f16, 23, 8 for f32 and 52, 11 for f64.
#![tactic(auto)]

mod bits;
mod classes;
mod integers;
mod orders;
mod patterns;
mod positions;

pub use bits::{abs, is_finite, is_infinite, is_nan, is_sign_negative};
pub use classes::classify;
pub use integers::Integer;
pub use orders::{compare, order_integers};
pub use patterns::Pattern;
pub use positions::position;

// The class of a pattern.
#[derive(Clone, Copy, Debug, PartialEq, Eq)]
pub enum Class {
    Zero,
    Subnormal,
    Normal,
    Infinite,
    Nan,
}

// What a comparison answers. No Option<Ordering>: the definitions and theorems over specs/Order.antt name its four cases.
#[derive(Clone, Copy, Debug, PartialEq, Eq)]
pub enum Order {
    Less,
    Equal,
    Greater,
    Unordered,
}
