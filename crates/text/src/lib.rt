// The small words of case lines: digits and the numbers that they spell, words and lists of words, and the names of the kinds.
// Every call is total: what is no such digit, number or name is answered None.
#![tactic(auto)]

mod digits;
mod names;
mod words;

pub use digits::{decimal_number, hex_char, hex_digit, hex_number};
pub use names::{KIND_NAMES, digits_of, kind_named};
pub use words::{after, before, nth_word, place_of, word_number};
