// The boundary: thin functions on numbers and slices, for C, Rust and Python. No call demands anything of its caller.
// A slice passes as a pointer and a length, a sample as its kind's number and its bits; an answer starts with a number of refusal and a place,
// 0 and 0 when the call is done (docs/RULES.md: The boundary).
// Numbers stand for cases, kinds and bits are two slices, and each name is a function of its own: the C interface (crate silamogo_c) holds them so.
#![tactic(auto)]

mod answers;
mod fields;
mod floats;
mod records;
mod rows;
mod samples;
mod singles;

pub use floats::{silamogo_classify, silamogo_position};
pub use records::{silamogo_key_read, silamogo_key_write, silamogo_record_compare};
pub use rows::{
    silamogo_row_clamp, silamogo_row_f32_to_u16, silamogo_row_u8_to_u16, silamogo_row_u16_to_f32,
    silamogo_row_u16_to_u8,
};
pub use singles::{
    silamogo_clamp, silamogo_compare, silamogo_convert, silamogo_max, silamogo_min,
    silamogo_total_order,
};

// A sample: its kind's number, and its bits; a signed number in two's complement of its own width, all bits above are 0.
#[repr(C)]
#[derive(Clone, Copy)]
pub struct Sample {
    pub kind: u8,
    pub bits: u64,
}

#[repr(C)]
#[derive(Clone, Copy)]
pub struct Answer {
    pub number: u8,
    pub place: usize,
}

// An order: 0 Less, 1 Equal, 2 Greater, 3 Unordered.
#[repr(C)]
#[derive(Clone, Copy)]
pub struct Ordered {
    pub number: u8,
    pub place: usize,
    pub order: u8,
}

// A class: 0 zero, 1 subnormal, 2 normal, 3 infinite, 4 NaN.
#[repr(C)]
#[derive(Clone, Copy)]
pub struct Classed {
    pub number: u8,
    pub place: usize,
    pub class: u8,
}

// A position in the total order.
#[repr(C)]
#[derive(Clone, Copy)]
pub struct Positioned {
    pub number: u8,
    pub place: usize,
    pub position: i64,
}

#[repr(C)]
#[derive(Clone, Copy)]
pub struct Sampled {
    pub number: u8,
    pub place: usize,
    pub kind: u8,
    pub bits: u64,
}

// The length of a key.
#[repr(C)]
#[derive(Clone, Copy)]
pub struct Measured {
    pub number: u8,
    pub place: usize,
    pub length: usize,
}
