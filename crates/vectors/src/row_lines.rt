// The lines whose answers are rows. Their samples stand in the row of their kind, and so does the answer.
use crate::answers::{Answer, Fault};
use crate::operands::with_digits;
use crate::rows::{Part, Rows, part_in};
use choose::Range;
use text::{after, before, kind_named};
use value::{Kind, Refusal, Value};

// Two bounds and samples, which are clamped.
pub(crate) fn row_clamp_line<'a>(rest: &[u8], rows: &'a mut Rows) -> Result<Answer<'a>, Fault> {
    let next = after(b' ', rest);
    let lower = bound_in(before(b' ', rest)).ok_or(Fault::Malformed)?;
    let upper = bound_in(before(b' ', next)).ok_or(Fault::Malformed)?;
    let samples = rows
        .read(Kind::F32, after(b' ', next))
        .ok_or(Fault::Malformed)?;
    rowclamp::clamp(&mut rows.f32s[..samples.count], Range { lower, upper })?;
    Ok(Answer::Row(rows, samples))
}

fn bound_in(s: &[u8]) -> Option<f32> {
    match with_digits(Kind::F32, s)? {
        Value::F32(x, _) => Some(x),
        _ => None,
    }
}

// Two kinds, samples of the first, and how many samples of the second there is room for, which are filled before the call.
pub(crate) fn row_line<'a>(rest: &[u8], rows: &'a mut Rows) -> Result<Answer<'a>, Fault> {
    let from = kind_named(before(b' ', rest)).ok_or(Fault::Malformed)?;
    let next = after(b' ', rest);
    let to = kind_named(before(b' ', next)).ok_or(Fault::Malformed)?;
    let last = after(b' ', next);
    let samples = rows.read(from, before(b' ', last)).ok_or(Fault::Malformed)?;
    let lent = part_in(to, after(b' ', last)).ok_or(Fault::Malformed)?;
    rows.fill(lent);
    let outcome = converted(rows, samples, lent).ok_or(Fault::Malformed)?;
    outcome.map_err(|f| rows.refused(f, lent))?;
    Ok(Answer::Row(rows, lent))
}

// The four row conversions that there are.
fn converted(rows: &mut Rows, from: Part, to: Part) -> Option<Result<(), Refusal>> {
    let count = from.count;
    let room = to.count;
    let u8s = &mut rows.u8s[..];
    let u16s = &mut rows.u16s[..];
    let f32s = &mut rows.f32s[..];
    match (from.kind, to.kind) {
        (Kind::U8, Kind::U16) => Some(row::u8_to_u16(&u8s[..count], &mut u16s[..room])),
        (Kind::U16, Kind::U8) => Some(row::u16_to_u8(&u16s[..count], &mut u8s[..room])),
        (Kind::U16, Kind::F32) => Some(row::u16_to_f32(&u16s[..count], &mut f32s[..room])),
        (Kind::F32, Kind::U16) => Some(row::f32_to_u16(&f32s[..count], &mut u16s[..room])),
        _ => None,
    }
}
