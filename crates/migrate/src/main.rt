// Moves a file of samples from one kind to another, exactly or not at all: `migrate [OPTIONS] FROM TO IN OUT`; or looks at it before: `migrate
// [OPTIONS] report FROM IN [TO]`. The answer is lines on standard output (docs/RULES.md: Migration, Report). What moves a file
// is migration::run, and what looks through one migration::look_through; here are only files, arguments and lines.
#![tactic(auto)]

mod files;
mod formats;
mod lines;
mod moves;
mod names;
mod reports;
mod sentences;

use files::{argument, is_argument};
use lines::{put_error, put_no_kind};
use moves::{Move, migrate};
use reports::report;
use std::io;
use text::kind_named;
use value::Kind;

// What was asked for beside the words, and the place of the first word. `into` is for a caller that makes, names and removes OUT itself.
#[derive(Clone, Copy)]
pub(crate) struct Options {
    pub first: usize,
    pub raw: bool,
    pub progress: bool,
    pub unsynced: bool,
    pub into: bool,
}

fn main(rt: HostRuntime) -> io::Result<()> {
    let mut o = no_options();
    for _ in 0..4 {
        o = with_next(rt, o);
    }
    let words = words_behind(rt, o.first);
    let asked = says(rt, o.first, b"report");
    if asked & (words == 3) {
        report_alone(rt, o)?;
    } else if asked & (words == 4) {
        report_to(rt, o)?;
    } else if words == 4 {
        move_file(rt, o)?;
    } else {
        put_error(
            rt,
            b"usage: migrate [--raw] [--progress] [--no-sync] FROM TO IN OUT, or migrate [--raw] [--progress] report FROM IN [TO]",
        )?;
    }
    Ok(())
}

// How many arguments there are from one on; 5 stands for more than 4.
fn words_behind(rt: HostRuntime, first: usize) -> usize {
    for words in 0..5 {
        if !is_argument(rt, first.wrapping_add(words)) {
            return words;
        }
    }
    5
}

fn no_options() -> Options {
    Options {
        first: 1,
        raw: false,
        progress: false,
        unsynced: false,
        into: false,
    }
}

// The options stand before the words; one more is taken, if the next argument is one.
fn with_next(rt: HostRuntime, o: Options) -> Options {
    let mut name = [0u8; 16];
    let first = o.first.wrapping_add(1);
    match argument(rt, o.first, &mut name) {
        b"--raw" => Options {
            first,
            raw: true,
            ..o
        },
        b"--progress" => Options {
            first,
            progress: true,
            ..o
        },
        b"--no-sync" => Options {
            first,
            unsynced: true,
            ..o
        },
        b"--into" => Options {
            first,
            into: true,
            ..o
        },
        _ => o,
    }
}

// Whether an argument is this word.
fn says(rt: HostRuntime, i: usize, word: &[u8]) -> bool {
    let mut name = [0u8; 8];
    argument(rt, i, &mut name) == word
}

fn move_file(rt: HostRuntime, o: Options) -> io::Result<()> {
    let Some(from) = kind_in(rt, o, 0) else {
        put_no_kind(rt, b"FROM")?;
        return Ok(());
    };
    let Some(to) = kind_in(rt, o, 1) else {
        put_no_kind(rt, b"TO")?;
        return Ok(());
    };
    let m = Move { from, to, asked: o };
    migrate(rt, o.first.wrapping_add(2), o.first.wrapping_add(3), m)
}

fn report_alone(rt: HostRuntime, o: Options) -> io::Result<()> {
    let Some(from) = kind_in(rt, o, 1) else {
        put_no_kind(rt, b"FROM")?;
        return Ok(());
    };
    report(rt, from, from, false, o.first.wrapping_add(2), o)?;
    Ok(())
}

fn report_to(rt: HostRuntime, o: Options) -> io::Result<()> {
    let Some(from) = kind_in(rt, o, 1) else {
        put_no_kind(rt, b"FROM")?;
        return Ok(());
    };
    let Some(to) = kind_in(rt, o, 3) else {
        put_no_kind(rt, b"TO")?;
        return Ok(());
    };
    report(rt, from, to, true, o.first.wrapping_add(2), o)?;
    Ok(())
}

// The kind that a word names; one that is longer than any name is none.
fn kind_in(rt: HostRuntime, o: Options, word: usize) -> Option<Kind> {
    let mut name = [0u8; 8];
    kind_named(argument(rt, o.first.wrapping_add(word), &mut name))
}
