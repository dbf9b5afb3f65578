// Keys: byte strings that order as their records do (docs/KEYS.md, docs/RULES.md: Keys).
#![tactic(auto)]

mod lengths;
mod numbers;
mod reading;
mod writing;

pub use reading::read;
use value::Refusal;
pub use writing::write;

// How a kind's bits are turned into a key and back: the weight of the sign bit, and of a float the bits of plus infinity.
#[derive(Clone, Copy)]
enum Weights {
    Unsigned,
    Signed(u64),
    Float(u64, u64),
}
