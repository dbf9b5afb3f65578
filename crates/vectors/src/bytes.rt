// Strings of bytes as text: two digits a byte, and `-` where there are none.
ghost use Rattle.std.specs.Prelude.{◌≤◌, length, IfSome};

use crate::letters::Letters;
use std::fmt;
use text::hex_number;

// Puts the bytes of a text at the front of a row: these bytes. No string of a line is longer than the row.
pub(crate) fn bytes_in<'a>(s: &[u8], row: &'a mut [u8; 512]) -> Option<&'a [u8]>
    ensures { IfSome result (λ bytes. length bytes.now ≤ 512) }
{
    if matches!(s, b"-") {
        return Some(&row[..0]);
    }
    let n = s.len() / 2;
    if s.is_empty() || s.len() % 2 != 0 || n > row.len() {
        return None;
    }
    for (pair, b) in s.chunks_exact(2).zip(row.iter_mut()) {
        *b = u8::try_from(hex_number(pair)?).ok()?;
    }
    Some(&row[..n])
}

pub(crate) fn write_bytes<W: fmt::Write>(f: &mut fmt::Formatter<W>, bytes: &[u8]) -> fmt::Result {
    if bytes.is_empty() {
        return f.write_char('-');
    }
    let mut letters = Letters::new(f);
    letters.put_hex(bytes)?;
    letters.hand_on()
}
