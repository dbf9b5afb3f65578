// The lines of an answer, on standard output.
use crate::files::ENAMETOOLONG;
use crate::sentences::put_why;
use std::io;
use text::{KIND_NAMES, digits_of, nth_word};
use value::{Kind, Layout, Refusal, Value, bits_of, kind_number, kind_of, layout_of};

// The system's numbers that have words of their own here.
const ENOENT: i32 = 2;

const EIO: i32 = 5;

const EACCES: i32 = 13;

const EEXIST: i32 = 17;

const ENOTDIR: i32 = 20;

const EISDIR: i32 = 21;

const EFBIG: i32 = 27;

const ENOSPC: i32 = 28;

const EROFS: i32 = 30;

// Where a line can't be written, the program ends with the error.
pub(crate) fn put_text(rt: HostRuntime, s: &[u8]) -> io::Result<()> {
    rt.write_all(s)
}

fn put_decimal(rt: HostRuntime, n: u64) -> io::Result<()> {
    rt.print(n)
}

// In as many digits.
fn put_hex(rt: HostRuntime, n: u64, digits: usize) -> io::Result<()> {
    print!(rt; "{n:0digits$x}")
}

pub(crate) fn put_number(rt: HostRuntime, name: &[u8], n: u64) -> io::Result<()> {
    put_text(rt, name)?;
    put_decimal(rt, n)?;
    put_text(rt, b"\n")?;
    Ok(())
}

// A sample, or `-` where there is none.
pub(crate) fn put_found(rt: HostRuntime, name: &[u8], f: Option<Value>) -> io::Result<()> {
    put_text(rt, name)?;
    match f {
        Some(v) => put_value(rt, v)?,
        None => put_text(rt, b"-")?,
    }
    put_text(rt, b"\n")?;
    Ok(())
}

// An integer in decimal, a float by its bits.
fn put_value(rt: HostRuntime, v: Value) -> io::Result<()> {
    let bits = bits_of(v);
    let k = kind_of(v);
    match layout_of(k) {
        Layout::Unsigned(_) => put_decimal(rt, bits)?,
        Layout::Signed(width) => put_signed(rt, bits, 1 << (width - 1))?,
        Layout::Float(_, _) => put_bits(rt, k, bits)?,
    }
    Ok(())
}

// Two's complement: patterns from half on are negative, and what they lack to twice half is the magnitude. Twice 2^63 is 0 here.
fn put_signed(rt: HostRuntime, bits: u64, half: u64) -> io::Result<()> {
    if bits < half {
        put_decimal(rt, bits)?;
    } else {
        put_text(rt, b"-")?;
        put_decimal(rt, half.wrapping_add(half).wrapping_sub(bits))?;
    }
    Ok(())
}

// The name of the kind, and hex digits.
fn put_bits(rt: HostRuntime, k: Kind, bits: u64) -> io::Result<()> {
    put_text(rt, nth_word(&KIND_NAMES, kind_number(k) as usize))?;
    put_text(rt, b":")?;
    put_hex(rt, bits, digits_of(k))?;
    Ok(())
}

// The number, the place, the sample if there is one, and what the number means.
pub(crate) fn put_refusal(rt: HostRuntime, f: Refusal, sample: Option<Value>) -> io::Result<()> {
    put_number(rt, b"refused=", f.number as u64)?;
    put_number(rt, b"place=", f.place as u64)?;
    if let Some(v) = sample {
        put_text(rt, b"sample=")?;
        put_bits(rt, kind_of(v), bits_of(v))?;
        put_text(rt, b"\n")?;
    }
    put_why(rt, f.number)?;
    Ok(())
}

// An argument that names no kind.
pub(crate) fn put_no_kind(rt: HostRuntime, name: &[u8]) -> io::Result<()> {
    put_text(rt, b"error=")?;
    put_text(rt, name)?;
    put_text(rt, b" is no kind: ")?;
    put_text(rt, &KIND_NAMES)?;
    put_text(rt, b"\n")?;
    Ok(())
}

pub(crate) fn put_error(rt: HostRuntime, what: &[u8]) -> io::Result<()> {
    put_text(rt, b"error=")?;
    put_text(rt, what)?;
    put_text(rt, b"\n")?;
    Ok(())
}

// What failed, and why by the system's number, 0 where it gave none.
pub(crate) fn put_failure(rt: HostRuntime, what: &[u8], e: io::Error) -> io::Result<()> {
    put_text(rt, b"error=")?;
    put_text(rt, what)?;
    put_text(rt, b": ")?;
    put_cause(rt, e.raw_os_error().unwrap_or(0))?;
    put_text(rt, b"\n")?;
    Ok(())
}

fn put_cause(rt: HostRuntime, errno: i32) -> io::Result<()> {
    match errno {
        ENOENT => put_text(rt, b"there is no such file or folder"),
        EEXIST => put_text(rt, b"it is there already"),
        EACCES => put_text(rt, b"it is not permitted"),
        EISDIR => put_text(rt, b"it is a folder"),
        ENOTDIR => put_text(rt, b"a part of the path is no folder"),
        ENOSPC => put_text(rt, b"no space is left"),
        EFBIG => put_text(rt, b"the file grows too large"),
        ENAMETOOLONG => put_text(rt, b"the name is too long"),
        EROFS => put_text(rt, b"nothing can be written there"),
        EIO => put_text(rt, b"the device failed"),
        _ => {
            put_text(rt, b"the system refuses it, with error ")?;
            put_decimal(rt, bits_of(Value::I32(errno)))
        }
    }
}
