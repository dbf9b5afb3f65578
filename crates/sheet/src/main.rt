// One sheet for a strip: `sheet < STRIP` reads little-endian f32 samples from standard input and writes nine lines (docs/RULES.md: Strip
// sheet). What tells of a block is strip::tally_block; here are only the blocks, one after the other, and the lines. Arguments aren't looked at.
#![tactic(auto)]

mod lines;
mod runs;

ghost use Rattle.std.specs.Prelude.{◌≤◌, length};

use lines::put_sheet;
use runs::run;
use std::io::{Error, Write};

fn main(rt: HostRuntime) {
    let mut input = rt.stdin();
    let r = run(&mut input);
    if let Some(e) = r.fault {
        put_cause(rt, "standard input", e);
        put(rt, b"error=standard input can't be read\n");
        return;
    }
    let page = put_sheet(r.sheet);
    put(rt, page.text());
}

// All of it in one call, so that a full disk leaves no half sheet.
fn put(rt: HostRuntime, text: &[u8]) {
    if let Err(e) = Print::write_all(&rt, text) {
        put_cause(rt, "standard output", e);
    }
}

// On standard error, what failed, and why in the system's words. A line that can't be written is lost.
fn put_cause(rt: HostRuntime, what: &str, e: Error) {
    let mut text = [0u8; 256];
    let mut rest: &mut [u8] = &mut text;
    let _ = write!(rest, "{what}: {e}");
    let n = words_in(&text);
    let _ = Print::write_all(&rt.stderr(), &text[..n]);
    let _ = Print::write_all(&rt.stderr(), b"\n");
}

// How many bytes come before the number of an error, or before the first zero.
fn words_in(text: &[u8]) -> usize
    ensures { result ≤ length text.now }
{
    for i in 0..text.len() {
        let rest = &text[i..];
        if rest.starts_with(b" (os error ") | (text[i] == 0) {
            return i;
        }
    }
    text.len()
}
