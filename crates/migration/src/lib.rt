// A file moved from kind to kind, or looked at before: a chain of turns, each of which takes the next block (docs/RULES.md: Migration, Report).
#![tactic(auto)]

mod blocks;
mod looks;
mod watches;

pub use blocks::{Fault, State, run};
pub use looks::{Look, look_through};
pub use watches::Watch;
