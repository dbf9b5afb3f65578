// Records and shapes as text: lists of values, or of names of kinds. A list of 13 to 20 stands for a count of that many, the first twelve
// having a place; a longer one is malformed.
use crate::lists::items_in;
use crate::operands::value_in;
use record::{Field, Place, Record, Shape};
use text::{after, before, kind_named};

// The most values or names of a list.
const MOST_FIELDS: usize = 20;

// No record holds a space, so a third field makes the second record malformed.
pub(crate) fn records_in(s: &[u8]) -> Option<(Record, Record)> {
    let one = record_in(before(b' ', s))?;
    let other = record_in(after(b' ', s))?;
    Some((one, other))
}

pub(crate) fn record_in(s: &[u8]) -> Option<Record> {
    let mut r = record::blank();
    r.count = items_in(s, MOST_FIELDS, |at, item| {
        let value = value_in(item)?;
        if let Some(field) = r.fields.get_mut(at) {
            *field = Field { value };
        }
        Some(())
    })?;
    Some(r)
}

pub(crate) fn shape_in(s: &[u8]) -> Option<Shape> {
    let mut shape = record::blank_shape();
    shape.count = items_in(s, MOST_FIELDS, |at, item| {
        let kind = kind_named(item)?;
        if let Some(place) = shape.places.get_mut(at) {
            *place = Place { kind };
        }
        Some(())
    })?;
    Some(shape)
}
