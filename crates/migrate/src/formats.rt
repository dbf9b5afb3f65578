// Files that are no raw samples, by the four bytes or more with which they begin.
use crate::lines::put_text;
use sample::sample_at;
use std::fs::File;
use std::io;
use std::os::unix::fs::FileExt;
use value::{Kind, bits_of};

// Whether a file begins as one of these formats does; then a line says which. A pipe isn't looked at, as it can't be read twice.
pub(crate) fn put_if_container(rt: HostRuntime, input: &File) -> io::Result<bool> {
    let mut head = [0u8; 8];
    if input.read_at(&mut head, 0).unwrap_or(0) < 4 {
        return Ok(false);
    }
    let Some(format) = format_of(
        bits_of(sample_at(Kind::U32, &head, 0)),
        bits_of(sample_at(Kind::U32, &head, 1)),
    ) else {
        return Ok(false);
    };
    put_text(rt, b"error=IN begins as a file of ")?;
    put_text(rt, format.as_bytes())?;
    put_text(
        rt,
        b" does, and not with a sample; if these are raw samples, say so by --raw\n",
    )?;
    Ok(true)
}

// The format's name, by the first four bytes and the next four, low byte first: 93 NUM; II*, MM and their like of BigTIFF; 89 PNG; a JPEG 2000
// codestream, or its box with the name in the next four; OpenEXR's number; PK with the kind of the archive's first part.
fn format_of(first: u64, second: u64) -> Option<&'static str> {
    match first {
        0x4d55_4e93 => Some("NPY"),
        0x002a_4949 | 0x2a00_4d4d | 0x002b_4949 | 0x2b00_4d4d => Some("TIFF"),
        0x474e_5089 => Some("PNG"),
        0x51ff_4fff => Some("JPEG-2000"),
        0x0c00_0000 if second == 0x2020_506a => Some("JPEG-2000"),
        0x0131_2f76 => Some("OpenEXR"),
        0x0403_4b50 | 0x0605_4b50 | 0x0807_4b50 => Some("ZIP"),
        _ => None,
    }
}
