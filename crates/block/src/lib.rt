// Samples in bytes, moved block by block: what a program with files asks of each block that it has read. Nothing here reads or writes
// a file. A block goes on from the samples before it, so that the answers of all blocks are the answer of the whole input (docs/RULES.md: Migration).
#![tactic(auto)]

mod bytes;
mod halves;
mod layouts;
mod passes;
mod rows;
mod steps;

pub use steps::convert_block;
use value::Refusal;

// How many places a row for a whole block has; a longer block of such a pair goes sample by sample.
pub const ROW_PLACES: usize = 32768;

// How many samples came before, and what they were answered; before the first, 0 and Ok.
#[derive(Clone, Copy)]
pub struct Progress {
    pub samples: usize,
    pub answer: Result<(), Refusal>,
}
