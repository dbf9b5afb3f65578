// Files: IN opened and held against itself, names that are taken, and the numbers of the system's errors.
ghost use Rattle.std.specs.Prelude.{◌≡◌, ◌≤◌, length};

use crate::formats::put_if_container;
use crate::lines::{put_error, put_failure};
use migration::Watch;
use std::env::FillError;
use std::fs::{File, OpenOptions};
use std::io::{IsTerminal, Seek, SeekFrom};
use std::os::fd::AsRawFd;
use std::rt::Env;
use std::{fs, io};

// The system's numbers for a name that is too long, and for one that is no text: the library opens no other.
pub(crate) const ENAMETOOLONG: i32 = 36;

const EILSEQ: i32 = 84;

// An argument, put at the front of a buffer; no bytes where there is none. Of one that is longer, its front fills the buffer.
pub(crate) fn argument(rt: HostRuntime, i: usize, buf: &mut [u8]) -> &[u8]
    ensures { length result.now ≤ length buf.old }
{
    let n = match rt.arg(i, buf) {
        Ok(n) => n,
        Err(FillError::TooLong) => buf.len(),
        Err(FillError::NotPresent) => 0,
    };
    &buf[..n]
}

// Whether there is an argument of this number, be it empty.
pub(crate) fn is_argument(rt: HostRuntime, i: usize) -> bool {
    let mut front = [0u8; 8];
    match rt.arg(i, &mut front) {
        Err(FillError::NotPresent) => false,
        _ => true,
    }
}

// An argument as a path, or an error: it is longer than a path may be, or no text.
pub(crate) fn path_in(rt: HostRuntime, i: usize, buf: &mut [u8; 4096]) -> io::Result<&str> {
    let n = match rt.arg(i, buf) {
        Ok(n) => n,
        Err(FillError::TooLong) => return Err(io::Error::from_raw_os_error(ENAMETOOLONG)),
        Err(FillError::NotPresent) => 0,
    };
    text_of(&buf[..n])
}

// Bytes as text.
pub(crate) fn text_of(bytes: &[u8]) -> io::Result<&str> {
    str::from_utf8(bytes).map_err(|_| io::Error::from_raw_os_error(EILSEQ))
}

// IN for reading, or nothing after a line that says why.
pub(crate) fn open_in(rt: HostRuntime, in_arg: usize, raw: bool) -> io::Result<Option<File>> {
    let mut buf = [0u8; 4096];
    let path = match path_in(rt, in_arg, &mut buf) {
        Ok(path) => path,
        Err(e) => {
            put_failure(rt, b"IN can't be opened", e)?;
            return Ok(None);
        }
    };
    let input = match File::open(&rt, path) {
        Ok(input) => input,
        Err(e) => {
            put_failure(rt, b"IN can't be opened", e)?;
            return Ok(None);
        }
    };
    if is_standard(rt, &input)? {
        return Ok(None);
    }
    if raw {
        return Ok(Some(input));
    }
    if put_if_container(rt, &input)? {
        return Ok(None);
    }
    Ok(Some(input))
}

// A file that got the number of standard input, output or error, as that was closed, would have lines written into it: a line says so.
pub(crate) fn is_standard(rt: HostRuntime, file: &File) -> io::Result<bool> {
    if file.as_raw_fd() > 2 {
        return Ok(false);
    }
    put_error(
        rt,
        b"standard input, output or error is closed: open it, on /dev/null for instance",
    )?;
    Ok(true)
}

// How many bytes a file has; nothing where the system doesn't say, as of a pipe. The next read is from its start.
pub(crate) fn size_of(file: &mut File) -> Option<u64> {
    let size = end_of(file);
    let _ = file.seek(SeekFrom::Start(0));
    size
}

fn end_of(file: &mut File) -> Option<u64> {
    file.seek(SeekFrom::End(0)).ok()
}

// Whether a file of this size has another by now, or more or less was read of it.
pub(crate) fn is_changed(file: &mut File, size: Option<u64>) -> bool {
    if size.is_none() {
        return false;
    }
    let read = file.stream_position().ok();
    let now = end_of(file);
    (read != size) | (now != size)
}

// Whether a file has no byte; no file that has no length has none.
pub(crate) fn is_empty(file: &mut File) -> bool {
    end_of(file) == Some(0)
}

// Lines of progress are for a terminal, or for who asks for them.
pub(crate) fn watched(rt: HostRuntime, progress: bool, size: Option<u64>) -> Watch {
    Watch {
        wanted: progress | rt.stderr().is_terminal(),
        bytes: size,
        second: None,
    }
}

// These bytes and zeros behind them, as far as there is room.
pub(crate) fn joined(path: &[u8], tail: &[u8]) -> [u8; 4096]
    ensures { 4096 ≡ length result }
{
    let mut all = [0u8; 4096];
    for (place, b) in all.iter_mut().zip(path.iter().chain(tail)) {
        *place = *b;
    }
    all
}

// Whether something has this name, be it a link that leads nowhere.
pub(crate) fn is_taken(rt: HostRuntime, path: &str) -> bool {
    fs::symlink_metadata(&rt, path).is_ok()
}
