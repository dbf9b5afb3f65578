// Reading in large parts. The library's contracts don't say what a read brings; these say that it is no more than was asked for.
ghost use Rattle.std.specs.Prelude.{◌+◌, ◌≤◌, min, ◌≡◌, eqb, length};
ghost use Rattle.input.specs.Came.{came};

use std::io;
use std::io::Read;

// A block of input: how many bytes, and whether more may follow.
#[derive(Clone, Copy, Debug, PartialEq, Eq)]
pub struct Block {
    pub bytes: usize,
    pub full: bool,
}

// A read that failed: what had come before it, and the error.
#[derive(Clone, Copy, Debug)]
pub struct Failed<T> {
    pub got: T,
    pub error: io::Error,
}

// Reads until buf is full or the input ends, and says how many bytes came; a pipe may give few bytes at a time.
pub fn fill<R: Read>(from: &mut R, buf: &mut [u8]) -> Result<usize, Failed<usize>>
    ensures { came result ≤ length buf.old }
{
    let n = buf.len();
    let mut at = 0;
    // No index is counted here: a read says how far it comes.
    while at < n {
        let got = from
            .read(&mut buf[at..])
            .map_err(|error| Failed { got: at, error })?;
        if got == 0 {
            break;
        }
        at += got;
    }
    Ok(at)
}

// A block of these bytes, where there was room for so many.
fn block_of(bytes: usize, room: usize) -> Block
    ensures { result ≡ record { bytes = bytes; full = eqb bytes room } }
{
    Block {
        bytes,
        full: bytes == room,
    }
}

// Reads up to size bytes, or as many as buf has. A block that isn't full is the last one.
pub fn read_block<R: Read>(
    from: &mut R,
    size: usize,
    buf: &mut [u8],
) -> Result<Block, Failed<Block>>
    ensures most { (came result).bytes ≤ min size (length buf.old) }
    ensures full { (came result).full ≡ eqb (came result).bytes (min size (length buf.old)) }
{
    let room = size.min(buf.len());
    match fill(from, &mut buf[..room]) {
        Ok(bytes) => Ok(block_of(bytes, room)),
        Err(f) => Err(Failed {
            got: block_of(f.got, room),
            error: f.error,
        }),
    }
}
