// Two records compared field by field, and the lower or the higher of the two (docs/RULES.md: Records).
#![tactic(auto)]

mod choices;
mod comparisons;
mod shapes;

pub use choices::{max, min};
pub use comparisons::compare;
