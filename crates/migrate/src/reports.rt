// A report on a file of samples: read through, nothing written but lines. What looks through a file is migration::look_through.
use crate::Options;
use crate::files::{is_changed, open_in, size_of, watched};
use crate::lines::{put_error, put_found, put_number, put_refusal};
use crate::moves::put_fault;
use crate::sentences::put_why;
use look::Seen;
use migration::{Look, look_through};
use std::fs::File;
use std::io;
use value::{Kind, Refusal};

// The path of IN is an argument; `asked` is whether the lines on TO are wanted.
pub(crate) fn report(
    rt: HostRuntime,
    from: Kind,
    to: Kind,
    asked: bool,
    in_arg: usize,
    o: Options,
) -> io::Result<()> {
    if let Some(input) = open_in(rt, in_arg, o.raw)? {
        let (r, changed) = looked(rt, input, from, to, o);
        put_look(rt, r, changed, asked)?;
    }
    Ok(())
}

// What IN holds, and whether it changed while it was read. It is closed then.
fn looked(rt: HostRuntime, mut input: File, from: Kind, to: Kind, o: Options) -> (Look, bool) {
    let size = size_of(&mut input);
    let watch = watched(rt, o.progress, size);
    let r = look_through(&rt, &mut input, from, to, watch);
    let changed = is_changed(&mut input, size);
    (r, changed)
}

fn put_look(rt: HostRuntime, r: Look, changed: bool, asked: bool) -> io::Result<()> {
    match r.fault {
        Some(fault) => put_fault(rt, fault),
        None if changed => put_error(rt, b"IN changed while it was read"),
        None => put_seen(rt, r.seen, asked),
    }
}

// Bytes left over, which no sample is refused for, are told alone: such a file isn't what it was taken for.
fn put_seen(rt: HostRuntime, s: Seen, asked: bool) -> io::Result<()> {
    put_number(rt, b"samples=", s.samples as u64)?;
    match s.answer {
        Err(f) if f.number == 9 => put_refusal(rt, f, None),
        answer => put_all_seen(rt, s, asked, answer),
    }
}

fn put_all_seen(
    rt: HostRuntime,
    s: Seen,
    asked: bool,
    answer: Result<(), Refusal>,
) -> io::Result<()> {
    put_number(rt, b"nan=", s.nans as u64)?;
    put_number(rt, b"infinite=", s.infinities as u64)?;
    put_number(rt, b"minus_zero=", s.minus_zeros as u64)?;
    put_found(rt, b"lowest=", s.lowest)?;
    put_found(rt, b"highest=", s.highest)?;
    if asked {
        put_number(rt, b"refusable=", s.refusable as u64)?;
        put_first(rt, answer)?;
    }
    Ok(())
}

// The index of the first sample that a move would refuse, and the number of its refusal.
fn put_first(rt: HostRuntime, answer: Result<(), Refusal>) -> io::Result<()> {
    if let Err(f) = answer {
        put_number(rt, b"first=", f.place as u64)?;
        put_number(rt, b"number=", f.number as u64)?;
        put_why(rt, f.number)?;
    }
    Ok(())
}
