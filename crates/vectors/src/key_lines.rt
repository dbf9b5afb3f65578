// The lines about keys and the choice between rows of bytes.
use crate::answers::{Answer, Fault};
use crate::bytes::bytes_in;
use crate::lists::count_in;
use crate::records::{record_in, shape_in};
use crate::rows::{Part, Rows};
use text::{after, before, decimal_number};
use value::Kind;

// A record, and how many bytes of the row of bytes are lent for its key. They are filled before the call.
pub(crate) fn write_line<'a>(rest: &[u8], rows: &'a mut Rows) -> Result<Answer<'a>, Fault> {
    let r = record_in(before(b' ', rest)).ok_or(Fault::Malformed)?;
    let count = count_in(128, after(b' ', rest)).ok_or(Fault::Malformed)?;
    let lent = Part {
        kind: Kind::U8,
        count,
    };
    rows.fill(lent);
    let n = key::write(r, &mut rows.u8s[..count]).map_err(|f| rows.refused(f, lent))?;
    Ok(Answer::Key(n, &rows.u8s[..count]))
}

// A shape and a key.
pub(crate) fn read_line<'a>(rest: &[u8], rows: &'a mut Rows) -> Result<Answer<'a>, Fault> {
    let shape = shape_in(before(b' ', rest)).ok_or(Fault::Malformed)?;
    let key = bytes_in(after(b' ', rest), &mut rows.one).ok_or(Fault::Malformed)?;
    let read = key::read(shape, key);
    read.outcome?;
    rows.record = read.record;
    Ok(Answer::Record(&rows.record))
}

// The length of a prefix and two rows of bytes, of which one is chosen by their prefixes.
pub(crate) fn prefix_line<'a, F>(
    rest: &[u8],
    rows: &'a mut Rows,
    choose: F,
) -> Result<Answer<'a>, Fault>
where
    F: FnOnce(&'a [u8], &'a [u8], usize) -> &'a [u8],
    requires { F.IsAlwaysCallable choose }
{
    let k = decimal_number(before(b' ', rest)).ok_or(Fault::Malformed)?;
    let both = after(b' ', rest);
    let one = bytes_in(before(b' ', both), &mut rows.one).ok_or(Fault::Malformed)?;
    let other = bytes_in(after(b' ', both), &mut rows.other).ok_or(Fault::Malformed)?;
    Ok(Answer::Bytes(choose(one, other, k as usize)))
}
