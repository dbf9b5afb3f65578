// Byte strings: numbers as bytes, high or low byte first, the order of byte strings, and the choice between two lent rows of bytes by a prefix
// (docs/RULES.md: Keys, Choice between lent rows).
#![tactic(auto)]

mod prefixes;

pub use prefixes::{max_by_prefix, min_by_prefix};
