// A file read in turns, block after block, whatever a turn does with its block (docs/RULES.md: Migration).
#![tactic(auto)]

mod reads;

pub use reads::{Block, Failed, fill, read_block};
