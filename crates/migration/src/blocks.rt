// The blocks of a file, one after the other.
ghost use Rattle.std.specs.Prelude.{◌-◌, ◌*◌, ◌/◌, ◌%◌, ◌≤◌, ◌<◌, ◌≡◌, eqb, length, take};
ghost use Rattle.value.specs.Kinds.{bytes_of};
ghost use Rattle.row.specs.Row.{rowed_outcome};
ghost use Rattle.sample.specs.Samples.{sample_at};
ghost use Rattle.block.specs.Migrate.{StepTaken};
ghost use Rattle.migration.specs.Sizes.{buffer_bytes, block_bytes};
ghost use Rattle.migration.specs.Steps.{MovedOn, found_or, sample_after};
ghost use Rattle.migration.specs.Inner.{Stepped};
ghost use Rattle.migration.specs.Runs.{Runs};
ghost use Rattle.migration.specs.Turns.{is_nothing, turns_left, WritingOnly};

use crate::watches::{Watch, begun, tell};
use block::{Progress, ROW_PLACES, convert_block};
use input::{Block, read_block};
use sample::sample_at;
use std::io;
use std::io::{Read, Seek, Write};
use std::rt::Clock;
use value::{Kind, Value, bytes_of};

// Room for a block of samples, in either kind. Why so much: docs/DECISIONS.md, Blocks by pair.
const BUFFER_BYTES: usize = 262144;

pub(crate) type Buffer = [u8; BUFFER_BYTES];

// What stopped a run before its end: a read or a write, with the error.
#[derive(Clone, Copy, Debug)]
pub enum Fault {
    Reading(io::Error),
    Writing(io::Error),
}

// Where a run stands; `sample` is the one that was refused, if one was, and `turns` how many blocks may still be read, 0 once the input has ended.
#[derive(Clone, Copy)]
pub struct State {
    pub progress: Progress,
    pub sample: Option<Value>,
    pub fault: Option<Fault>,
    pub turns: u64,
}

pub(crate) fn large_buffer() -> Buffer
    ensures { buffer_bytes ≡ length result }
{
    [0; BUFFER_BYTES]
}

// How many bytes are read at once: some samples and whole ones, with room for them in both buffers. Samples that become wider fill the second one.
pub(crate) fn block_bytes(from: Kind, to: Kind) -> usize
    ensures size { result ≡ block_bytes from to }
    ensures some { 0 < result }
    ensures whole { result % bytes_of from ≡ 0 }
    ensures room { (result ≤ buffer_bytes) × (result / bytes_of from * bytes_of to ≤ buffer_bytes) }
{
    let own = bytes_of(from);
    let other = bytes_of(to);
    let samples = if own < other {
        BUFFER_BYTES / other
    } else {
        ROW_PLACES
    };
    samples * own
}

// No samples yet, and nothing refused.
fn start() -> Progress
    ensures { result ≡ record { samples = 0; answer = Ok tt } }
{
    Progress {
        samples: 0,
        answer: Ok(()),
    }
}

// Moves the whole of input to output. The two kinds stay apart here and below: every definition takes them apart.
pub fn run<R: Read + Seek, W: Write>(
    rt: &(impl Clock + Eprint),
    input: &mut R,
    output: &mut W,
    from: Kind,
    to: Kind,
    w: Watch,
) -> State
    ensures { Runs from to result }
{
    let mut src = large_buffer();
    let mut dst = large_buffer();
    run_in(rt, input, output, from, to, &mut src, &mut dst, w)
}

// The same, in buffers for a block of input and one of output.
fn run_in<R: Read + Seek, W: Write>(
    rt: &(impl Clock + Eprint),
    input: &mut R,
    output: &mut W,
    from: Kind,
    to: Kind,
    src: &mut Buffer,
    dst: &mut Buffer,
    w: Watch,
) -> State
    ensures { Runs from to result }
{
    let mut watch = begun(rt, w);
    let mut r = State {
        progress: start(),
        sample: None,
        fault: None,
        turns: u64::MAX,
    };
    // No index is counted here: a turn says how many are left.
    while r.turns > 0 {
        r = step(input, output, from, to, src, dst, r);
        let progress = r.progress;
        watch = tell(rt, watch, input, progress.samples);
    }
    r
}

// Reads a block and moves it on.
// Here and below a turn is left. No type says so: the last state, which a run answers, has none.
fn step<R: Read, W: Write>(
    input: &mut R,
    output: &mut W,
    from: Kind,
    to: Kind,
    src: &mut Buffer,
    dst: &mut Buffer,
    r: State,
) -> State
    requires { 0 < r.turns }
    ensures fewer { result.turns < r.turns }
    ensures step { Stepped from to r src.new dst.old dst.new result }
{
    match read_block(input, block_bytes(from, to), src) {
        Ok(got) => move_on(got, output, from, to, src, dst, r),
        Err(f) => State {
            fault: Some(Fault::Reading(f.error)),
            turns: 0,
            ..r
        },
    }
}

// What was read, and no more, is the next block. It is cut out here, where the contract says which bytes it is; that of `step` doesn't.
fn move_on<W: Write>(
    got: Block,
    output: &mut W,
    from: Kind,
    to: Kind,
    src: &[u8],
    dst: &mut [u8],
    r: State,
) -> State
    requires some { 0 < r.turns }
    requires read { (got.bytes ≤ length src.now) × (got.bytes ≤ block_bytes from to) }
    requires full { got.full ≡ eqb got.bytes (block_bytes from to) }
    requires room { length dst.old ≡ buffer_bytes }
    ensures fewer { result.turns < r.turns }
    ensures step { MovedOn from to r (take got.bytes src.now) dst.old dst.new result }
{
    let block = &src[..got.bytes];
    let progress = convert_block(r.progress, from, to, block, dst);
    let fault = write_block(output, progress, from, to, dst, block.len());
    State {
        progress,
        sample: sample_after(r, from, block, progress),
        fault,
        turns: turns_left(r.turns, got.full, fault),
    }
}

// The sample that was refused, after a block: with Ok there is none, and none with 9, bytes left over.
fn sample_after(r: State, from: Kind, block: &[u8], after: Progress) -> Option<Value>
    ensures { result ≡ sample_after from r block.now (rowed_outcome after.answer) }
{
    let Err(f) = after.answer else {
        return None;
    };
    if f.number == 9 {
        return None;
    }
    let i = f.place.saturating_sub(r.progress.samples);
    r.sample.or(Some(sample_at(from, block, i)))
}

// A block that isn't full is the last one, and so is one that couldn't be written.
pub(crate) fn turns_left(turns: u64, full: bool, fault: Option<Fault>) -> u64
    requires { 0 < turns }
    ensures { (result ≡ turns_left turns full fault) × (result < turns) }
{
    if full & fault.is_none() { turns - 1 } else { 0 }
}

// How many bytes the samples of a block are in the other kind.
fn output_bytes(from: Kind, to: Kind, bytes: usize) -> usize
    requires { bytes / bytes_of from * bytes_of to ≤ buffer_bytes }
    ensures { result ≡ bytes / bytes_of from * bytes_of to }
{
    let samples = bytes / bytes_of(from);
    samples * bytes_of(to)
}

// Writes what a block came to; after a refusal nothing more is written.
fn write_block<W: Write>(
    output: &mut W,
    progress: Progress,
    from: Kind,
    to: Kind,
    dst: &[u8],
    bytes: usize,
) -> Option<Fault>
    requires fits { bytes / bytes_of from * bytes_of to ≤ buffer_bytes }
    requires room { length dst.now ≡ buffer_bytes }
    ensures { WritingOnly progress.answer result }
{
    let answer = progress.answer;
    match answer {
        Ok(()) => {
            let n = output_bytes(from, to, bytes);
            match output.write_all(&dst[..n]) {
                Ok(()) => None,
                Err(e) => Some(Fault::Writing(e)),
            }
        }
        Err(_) => None,
    }
}
