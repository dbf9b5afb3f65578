// What is seen of samples in bytes, block after block: what a program with files asks of each block that it has read. Nothing here reads
// a file, and nothing is converted. What was seen goes on with the next block, so that what all blocks show is what the whole input shows
// (docs/RULES.md: Report).
#![tactic(auto)]

mod looks;

pub use looks::look_block;
use value::{Refusal, Value};

// What was seen of samples: how many there were, how many of them are NaN, infinities and minus zeros, the lowest and the highest, how many
// a conversion would refuse, and what it would answer; before the first, 0, None and Ok.
#[derive(Clone, Copy)]
pub struct Seen {
    pub samples: usize,
    pub nans: usize,
    pub infinities: usize,
    pub minus_zeros: usize,
    pub lowest: Option<Value>,
    pub highest: Option<Value>,
    pub refusable: usize,
    pub answer: Result<(), Refusal>,
}
