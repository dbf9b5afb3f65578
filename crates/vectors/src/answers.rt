// What a line is answered with, and its text.
use crate::bytes::write_bytes;
use crate::letters::Letters;
use crate::rows::{Part, Rows};
use float::{Class, Order};
use record::Record;
use std::fmt;
use text::{KIND_NAMES, nth_word};
use value::{Refusal, Value, bits_of, kind_number, kind_of};

#[derive(Drop)]
pub(crate) enum Answer<'a> {
    Class(Class),
    Order(Order),
    Test(bool),
    Value(Value),
    Record(&'a Record),
    Row(&'a Rows, Part),
    Bytes(&'a [u8]),
    // The length of a key, and all bytes that were lent for it.
    Key(usize, &'a [u8]),
}

// Why a line has no such answer.
#[derive(Clone, Copy)]
pub(crate) enum Fault {
    Malformed,
    Refused(Refusal),
    // Lent memory did not stay as it was after a refusal.
    Changed,
}

impl From<Refusal> for Fault {
    fn from(f: Refusal) -> Self {
        Fault::Refused(f)
    }
}

impl fmt::Display for Answer<'_> {
    fn fmt<W: fmt::Write>(&self, f: &mut fmt::Formatter<W>) -> fmt::Result {
        match self {
            Answer::Class(c) => f.write_str(class_word(*c)),
            Answer::Order(o) => f.write_str(order_word(*o)),
            Answer::Test(yes) => f.write_str(if *yes { "yes" } else { "no" }),
            Answer::Value(v) => {
                let mut letters = Letters::new(f);
                write_value(&mut letters, *v)?;
                letters.hand_on()
            }
            Answer::Record(r) => write_record(f, r),
            Answer::Row(rows, part) => rows.write(f, *part),
            Answer::Bytes(bytes) => write_bytes(f, bytes),
            Answer::Key(n, lent) => {
                write!(f, "{n} ")?;
                write_bytes(f, lent)
            }
        }
    }
}

impl fmt::Display for Fault {
    fn fmt<W: fmt::Write>(&self, f: &mut fmt::Formatter<W>) -> fmt::Result {
        match self {
            Fault::Malformed => f.write_str("malformed"),
            Fault::Refused(refusal) => write!(f, "refused {} {}", refusal.number, refusal.place),
            Fault::Changed => f.write_str("changed"),
        }
    }
}

fn class_word(c: Class) -> &'static str {
    match c {
        Class::Zero => "zero",
        Class::Subnormal => "subnormal",
        Class::Normal => "normal",
        Class::Infinite => "infinite",
        Class::Nan => "nan",
    }
}

fn order_word(o: Order) -> &'static str {
    match o {
        Order::Less => "Less",
        Order::Equal => "Equal",
        Order::Greater => "Greater",
        Order::Unordered => "Unordered",
    }
}

// KIND:HEX, with all digits of the kind.
fn write_value<W: fmt::Write>(letters: &mut Letters<'_, W>, v: Value) -> fmt::Result {
    let kind = kind_of(v);
    letters.put_all(nth_word(&KIND_NAMES, kind_number(kind) as usize))?;
    letters.put(b':')?;
    letters.put_bits(kind, bits_of(v))
}

// The fields that count, joined by commas.
fn write_record<W: fmt::Write>(f: &mut fmt::Formatter<W>, r: &Record) -> fmt::Result {
    let count = r.count;
    let mut letters = Letters::new(f);
    for (at, field) in r.fields.iter().take(count).enumerate() {
        if at > 0 {
            letters.put(b',')?;
        }
        write_value(&mut letters, field.value)?;
    }
    letters.hand_on()
}
