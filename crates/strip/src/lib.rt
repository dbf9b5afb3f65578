// What a sheet tells of a strip of f32 samples in bytes, and where two masters differ, block after block. Nothing here reads a file. What was
// told goes on with the next block, so that what all blocks tell is what the whole input has (docs/RULES.md: Strip sheet, Two masters).
#![tactic(auto)]

mod differences;
mod samples;
mod tallies;

pub use differences::compare_block;
pub use tallies::tally_block;

// No more samples than this are told of a strip or a master.
pub const MOST: u64 = 4294967295;

// What was told of samples: how many there were, how many of each class, the lowest and the highest that aren't NaN, and the bytes left over
// behind them; before the first, 0 and None.
#[derive(Clone, Copy, Default)]
pub struct Sheet {
    pub samples: u64,
    pub zero: u64,
    pub subnormal: u64,
    pub normal: u64,
    pub infinite: u64,
    pub nan: u64,
    pub lowest: Option<u32>,
    pub highest: Option<u32>,
    pub tail: usize,
}

// What was seen of two masters: how many samples each has, how many of the places that both have differ, the first of these, and the largest
// distance in total order; before the first block, 0 and None.
#[derive(Clone, Copy)]
pub struct Difference {
    pub left: u64,
    pub right: u64,
    pub different: u64,
    pub first: Option<u64>,
    pub widest: u64,
}
