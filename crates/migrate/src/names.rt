// A new file of a name that nothing has: the last six bytes of its path become letters and digits by chance, anew while such a name is taken.
ghost use Rattle.std.specs.Prelude.{◌≡◌, length};

use crate::files::text_of;
use std::fs::{File, OpenOptions};
use std::io;
use std::os::unix::fs::OpenOptionsExt;
use std::random::RandomSource;

const EEXIST: i32 = 17;

const LETTERS: [u8; 62] = *b"abcdefghijklmnopqrstuvwxyzABCDEFGHIJKLMNOPQRSTUVWXYZ0123456789";

// How many names are tried.
const TRIES: u32 = 238328;

// The file, which is its owner's alone. Then `path` is its path.
pub(crate) fn made_beside(rt: HostRuntime, path: &mut [u8]) -> io::Result<File> {
    for _ in 0..TRIES {
        put_letters(rt, path)?;
        match made(rt, path) {
            Err(e) if e.raw_os_error() == Some(EEXIST) => {}
            other => return other,
        }
    }
    Err(io::Error::from_raw_os_error(EEXIST))
}

fn made(rt: HostRuntime, path: &[u8]) -> io::Result<File> {
    OpenOptions::new()
        .read(true)
        .write(true)
        .create_new(true)
        .mode(0o600)
        .open(&rt, text_of(path)?)
}

// Of a path that is shorter, all bytes.
fn put_letters(rt: HostRuntime, path: &mut [u8]) -> io::Result<()>
    ensures { length path.old ≡ length path.new }
{
    let mut chance = [0u8; 6];
    rt.fill_bytes(&mut chance)?;
    for (place, n) in path.iter_mut().rev().zip(chance) {
        *place = LETTERS[(n % 62) as usize];
    }
    Ok(())
}
