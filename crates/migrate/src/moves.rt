// A migration from file to file. The output is written beside OUT, into a file of this run alone, which takes the name OUT at the end; after a
// refusal or an error it is removed before a line says so. With `into`, the caller has made OUT, empty, and names or removes it.
ghost use Rattle.std.specs.Prelude.{◌≤◌, length};

use crate::Options;
use crate::files::{
    ENAMETOOLONG, is_changed, is_empty, is_standard, is_taken, joined, open_in, path_in, size_of,
    text_of, watched,
};
use crate::lines::{put_error, put_failure, put_number, put_refusal};
use crate::names::made_beside;
use migration::{Fault, State, run};
use std::fs::{File, OpenOptions};
use std::{fs, io};
use value::{Kind, Refusal};

// The system's number for what a file system can't do.
const EINVAL: i32 = 22;

// What is to be moved: from which kind to which, and what was asked for beside the words.
#[derive(Clone, Copy)]
pub(crate) struct Move {
    pub from: Kind,
    pub to: Kind,
    pub asked: Options,
}

// The paths of IN and OUT are arguments.
pub(crate) fn migrate(rt: HostRuntime, in_arg: usize, out_arg: usize, m: Move) -> io::Result<()> {
    if let Some(mut input) = open_in(rt, in_arg, m.asked.raw)? {
        migrate_from(rt, &mut input, out_arg, m)?;
    }
    Ok(())
}

fn migrate_from(rt: HostRuntime, input: &mut File, out_arg: usize, m: Move) -> io::Result<()> {
    let mut buf = [0u8; 4096];
    match path_in(rt, out_arg, &mut buf) {
        Err(e) => put_failure(rt, b"OUT can't be made", e)?,
        Ok(out) => if out.is_empty() {
            put_error(rt, b"OUT has no name")?;
        } else if m.asked.into {
            migrate_into(rt, input, out, m)?;
        } else if is_taken(rt, out) {
            put_error(rt, b"OUT is there already, and stays as it is")?;
        } else {
            migrate_beside(rt, input, out, m)?;
        },
    }
    Ok(())
}

// OUT is the caller's, and empty, so that no byte of anybody's is written over and nothing stands behind the output. What isn't done leaves it so.
fn migrate_into(rt: HostRuntime, input: &mut File, out: &str, m: Move) -> io::Result<()> {
    match OpenOptions::new().read(true).write(true).open(&rt, out) {
        Err(e) => put_failure(rt, b"OUT can't be opened", e)?,
        Ok(output) => if !is_standard(rt, &output)? {
            migrate_in(rt, input, output, m)?;
        },
    }
    Ok(())
}

fn migrate_in(rt: HostRuntime, input: &mut File, mut output: File, m: Move) -> io::Result<()> {
    if is_filled(rt, &mut output)? {
        return Ok(());
    }
    let size = size_of(input);
    let watch = watched(rt, m.asked.progress, size);
    let r = run(&rt, input, &mut output, m.from, m.to, watch);
    let changed = is_changed(input, size);
    if !is_done(r, changed) {
        let _ = output.set_len(0);
    }
    closed(output);
    put_answer(rt, r, changed)?;
    Ok(())
}

// Closes a file. What the system says to that is lost: the library doesn't tell it.
fn closed(_file: File) {}

// Whether a file that should be empty isn't, or isn't one that has a length; then a line says so.
fn is_filled(rt: HostRuntime, file: &mut File) -> io::Result<bool> {
    if is_empty(file) {
        return Ok(false);
    }
    put_error(rt, b"OUT is not empty, or not a regular file")?;
    Ok(true)
}

// The file beside OUT is called as OUT is, with `.part-XXXXXX` behind it: other letters for the last six make it this run's alone.
fn migrate_beside(rt: HostRuntime, input: &mut File, out: &str, m: Move) -> io::Result<()> {
    if out.len() > 4083 {
        put_failure(
            rt,
            b"OUT can't be made",
            io::Error::from_raw_os_error(ENAMETOOLONG),
        )?;
        return Ok(());
    }
    let n = out.len() + 12;
    let mut part = joined(out.as_bytes(), b".part-XXXXXX");
    migrate_to(rt, input, out, &mut part[..n], m)?;
    Ok(())
}

fn migrate_to(
    rt: HostRuntime,
    input: &mut File,
    out: &str,
    part: &mut [u8],
    m: Move,
) -> io::Result<()> {
    let made = made_beside(rt, part);
    match (made, text_of(part)) {
        (Ok(output), Ok(part)) => migrate_through(rt, input, output, out, part, m)?,
        (Err(e), _) => put_failure(rt, b"no file can be made beside OUT", e)?,
        (_, Err(e)) => put_failure(rt, b"no file can be made beside OUT", e)?,
    }
    Ok(())
}

fn migrate_through(
    rt: HostRuntime,
    input: &mut File,
    mut output: File,
    out: &str,
    part: &str,
    m: Move,
) -> io::Result<()> {
    if is_standard(rt, &output)? {
        removed(rt, part);
        return Ok(());
    }
    let size = size_of(input);
    let watch = watched(rt, m.asked.progress, size);
    let r = run(&rt, input, &mut output, m.from, m.to, watch);
    let changed = is_changed(input, size);
    let done = is_done(r, changed);
    let kept = stored(output, done & !m.asked.unsynced);
    if !done {
        removed(rt, part);
        put_answer(rt, r, changed)?;
    } else if let Err(e) = kept {
        removed(rt, part);
        put_failure(rt, b"OUT can't be brought to the disk", e)?;
    } else if named(rt, part, out, m)? {
        put_answer(rt, r, changed)?;
    }
    Ok(())
}

fn removed(rt: HostRuntime, part: &str) {
    let _ = fs::remove_file(&rt, part);
}

// Whether the run came to its end, nothing is refused, and IN is what it was.
fn is_done(r: State, changed: bool) -> bool {
    !changed & r.fault.is_none() & r.progress.answer.is_ok()
}

// Brings a file to the disk, if that is asked for, and closes it.
fn stored(file: File, synced: bool) -> io::Result<()> {
    if synced {
        file.sync_all()?;
    }
    Ok(())
}

// Gives the output its name, unless something has it by now, and brings the folder to the disk: whether all went well; else a line says why.
fn named(rt: HostRuntime, part: &str, out: &str, m: Move) -> io::Result<bool> {
    if is_taken(rt, out) {
        removed(rt, part);
        put_error(rt, b"OUT is there by now, and stays as it is")?;
        return Ok(false);
    }
    if let Err(e) = fs::rename(&rt, part, out) {
        removed(rt, part);
        put_failure(rt, b"the output can't be given the name OUT", e)?;
        return Ok(false);
    }
    if m.asked.unsynced {
        return Ok(true);
    }
    match folder_stored(rt, out.as_bytes()) {
        Err(e) if e.raw_os_error() != Some(EINVAL) => {
            put_failure(
                rt,
                b"OUT is whole, but its folder can't be brought to the disk",
                e,
            )?;
            Ok(false)
        }
        _ => Ok(true),
    }
}

// Brings the folder of a path to the disk; EINVAL on a file system that can't do this with a folder.
fn folder_stored(rt: HostRuntime, path: &[u8]) -> io::Result<()> {
    let folder = match path.iter().rposition(|&b| b == b'/') {
        Some(at) => text_of(&path[..at + 1])?,
        None => ".",
    };
    stored(File::open(&rt, folder)?, true)
}

// The lines of the answer.
fn put_answer(rt: HostRuntime, r: State, changed: bool) -> io::Result<()> {
    match r.fault {
        Some(fault) => put_fault(rt, fault),
        None if changed => put_error(rt, b"IN changed while it was read"),
        None => put_result(rt, r),
    }
}

// What failed, and why.
pub(crate) fn put_fault(rt: HostRuntime, fault: Fault) -> io::Result<()> {
    match fault {
        Fault::Reading(e) => put_failure(rt, b"IN can't be read", e),
        Fault::Writing(e) => put_failure(rt, b"OUT can't be written", e),
    }
}

fn put_result(rt: HostRuntime, r: State) -> io::Result<()> {
    put_number(rt, b"samples=", r.progress.samples as u64)?;
    match r.progress.answer {
        Ok(()) => put_number(rt, b"refused=", 0),
        Err(f) => put_refusal(rt, f, r.sample),
    }
}
