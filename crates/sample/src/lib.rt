// Samples in bytes: how many there are, the one at an index, and whether its conversion is refused. Nothing here writes.
// What moves samples is the crate block, what reports on them the crate look (docs/RULES.md: Migration, Report).
#![tactic(auto)]

mod bytes;
mod samples;

pub use samples::{count, is_refused, number_of, sample_at};
