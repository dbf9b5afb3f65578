// What a refusal means, in the sentence of its number. The list of all is include/refusals.txt, which the wrappers have too.
use crate::lines::put_text;
use std::io;

pub(crate) fn put_why(rt: HostRuntime, number: u8) -> io::Result<()> {
    put_text(rt, b"why=")?;
    match number {
        1 => put_text(rt, b"a NaN has no number to convert, and no key")?,
        2 => put_text(rt, b"an infinity has no place in an integer kind")?,
        3 => put_text(
            rt,
            b"a number with a fraction has no place in an integer kind",
        )?,
        4 => put_text(rt, b"the number lies outside the kind's range")?,
        5 => put_text(rt, b"the float kind has no such number")?,
        6 => put_text(rt, b"the bounds aren't lower <= upper")?,
        7 => put_text(rt, b"the kinds or shapes don't fit each other or the call")?,
        8 => put_text(rt, b"a NaN has no order")?,
        9 => put_text(rt, b"the lengths don't fit, or bytes are left over")?,
        10 => put_text(rt, b"the buffer is shorter than the key")?,
        11 => put_text(rt, b"a record has 1 to 12 fields")?,
        12 => put_text(rt, b"no record has this key")?,
        13 => put_text(
            rt,
            b"minus zero, the mark of a masked pixel, has no place in an integer kind",
        )?,
        _ => put_text(rt, b"a refusal that has no sentence here")?,
    }
    put_text(rt, b"\n")?;
    Ok(())
}
