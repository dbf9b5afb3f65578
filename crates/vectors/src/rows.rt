// What is lent to a line: a row of samples for each kind that a row has, so that a conversion has its source in one and its destination in
// another, two rows of bytes, and a record. A sample goes in and comes out as a value.
ghost use Rattle.std.specs.Prelude.{◌≤◌, ◌<◌};
ghost use Rattle.vectors.specs.declared.rows.TheConstants.{MOST_SAMPLES};

use crate::answers::Fault;
use crate::letters::Letters;
use crate::lists::{count_in, items_in};
use crate::operands::with_digits;
use record::Record;
use std::fmt;
use value::{Kind, Refusal, Value, bits_of, value_of};

// The most samples that a line may have, and the length of each row of samples. Of f32 a line has room for fewer.
const MOST_SAMPLES: usize = 8192;

// The bits that a destination holds before a conversion; a sample has as many of them as its kind.
const FILLING: u64 = 0xa5a5_a5a5_a5a5_a5a5;

#[derive(Drop)]
pub(crate) struct Rows {
    pub u8s: [u8; MOST_SAMPLES],
    pub u16s: [u16; MOST_SAMPLES],
    pub f32s: [f32; MOST_SAMPLES],
    pub one: [u8; 512],
    pub other: [u8; 512],
    // The record of an answer. An answer is copied for every line, and one that held its record would be large.
    pub record: Record,
}

// The first `count` samples of the row of a kind.
#[derive(Clone, Copy)]
pub(crate) struct Part {
    pub kind: Kind,
    pub count: usize,
    ghost in_row: { count ≤ MOST_SAMPLES },
}

// As many samples as a text says.
pub(crate) fn part_in(kind: Kind, s: &[u8]) -> Option<Part> {
    let count = count_in(MOST_SAMPLES, s)?;
    Some(Part { kind, count })
}

impl Rows {
    pub(crate) fn new() -> Self {
        Rows {
            u8s: [0; MOST_SAMPLES],
            u16s: [0; MOST_SAMPLES],
            f32s: [0.0; MOST_SAMPLES],
            one: [0; 512],
            other: [0; 512],
            record: record::blank(),
        }
    }

    // Puts the samples of a text, the digits of their kind each, at the front of the row of that kind.
    pub(crate) fn read(&mut self, kind: Kind, s: &[u8]) -> Option<Part> {
        let count = items_in(
            s,
            MOST_SAMPLES,
            |at: usize, digits: &[u8]| -> Option<()>
                requires { at < MOST_SAMPLES }
            {
                self.store(with_digits(kind, digits)?, at);
                Some(())
            },
        )?;
        Some(Part { kind, count })
    }

    // Puts a sample in the row of its kind; no other kind has a row. A type for the index would hold this one bound, which a use has at hand.
    fn store(&mut self, v: Value, at: usize)
        requires { at < MOST_SAMPLES }
    {
        match v {
            Value::U8(n) => self.u8s[at] = n,
            Value::U16(n) => self.u16s[at] = n,
            Value::F32(x, _) => self.f32s[at] = x,
            _ => {}
        }
    }

    fn sample_at(&self, kind: Kind, at: usize) -> Value
        requires { at < MOST_SAMPLES }
    {
        match kind {
            Kind::U8 => Value::U8(self.u8s[at]),
            Kind::U16 => Value::U16(self.u16s[at]),
            _ => Value::F32(self.f32s[at], 0),
        }
    }

    pub(crate) fn fill(&mut self, part: Part) {
        let count = part.count;
        match value_of(part.kind, FILLING) {
            Value::U8(n) => self.u8s[..count].fill(n),
            Value::U16(n) => self.u16s[..count].fill(n),
            Value::F32(x, _) => self.f32s[..count].fill(x),
            _ => {}
        }
    }

    // Whether the filling is still there. As an f32 it is neither NaN nor zero, so that only its own bits equal it.
    fn is_filled(&self, part: Part) -> bool {
        let count = part.count;
        match value_of(part.kind, FILLING) {
            Value::U8(n) => all_are(&self.u8s[..count], n),
            Value::U16(n) => all_are(&self.u16s[..count], n),
            Value::F32(x, _) => all_are(&self.f32s[..count], x),
            _ => true,
        }
    }

    // What the refusal of a call comes to, to which a part was lent that was filled before.
    pub(crate) fn refused(&self, f: Refusal, lent: Part) -> Fault {
        if self.is_filled(lent) {
            Fault::Refused(f)
        } else {
            Fault::Changed
        }
    }

    // Samples as text: the digits of their kind each, joined by commas, and `-` where there are none.
    pub(crate) fn write<W: fmt::Write>(
        &self,
        f: &mut fmt::Formatter<W>,
        part: Part,
    ) -> fmt::Result {
        if part.count == 0 {
            return f.write_char('-');
        }
        let mut letters = Letters::new(f);
        for at in 0..part.count {
            if at > 0 {
                letters.put(b',')?;
            }
            letters.put_bits(part.kind, bits_of(self.sample_at(part.kind, at)))?;
        }
        letters.hand_on()
    }
}

// Whether every sample is x. It doesn't end at one that differs, so that the compiled loop compares many at once.
fn all_are<T: PartialEq + Copy>(samples: &[T], x: T) -> bool {
    samples
        .iter()
        .fold(true, |same, sample| same & (*sample == x))
}
