// A strip told, block by block. What tells of a block is strip::tally_block.
ghost use Rattle.std.specs.Prelude.{◌≤◌, ◌<◌, ◌≡◌, eqb, length, take};
ghost use Rattle.sheet.specs.Runs.{buffer_bytes, block_bytes, turns_left, TellsBlock, Runs};
ghost use Rattle.sheet.specs.Inner.{Stepped};

use input::{Block, read_block};
use std::io;
use std::io::Read;
use strip::{MOST, Sheet, tally_block};

const BUFFER_BYTES: usize = 131072;

type Buffer = [u8; BUFFER_BYTES];

// Where a run stands; `fault` is the error of a read that failed, and `turns` how many blocks may still be read, 0
// once the input has ended.
#[derive(Clone, Copy)]
pub(crate) struct Telling {
    pub sheet: Sheet,
    pub fault: Option<io::Error>,
    pub turns: u64,
}

fn large_buffer() -> Buffer
    ensures { buffer_bytes ≡ length result }
{
    [0; BUFFER_BYTES]
}

// Tells of the whole of input.
pub(crate) fn run<R: Read>(input: &mut R) -> Telling
    ensures { Runs result }
{
    let mut src = large_buffer();
    run_in(input, &mut src)
}

// The same, in a buffer for a block.
fn run_in<R: Read>(input: &mut R, src: &mut Buffer) -> Telling
    ensures { Runs result }
{
    let mut r = Telling {
        sheet: Sheet::default(),
        fault: None,
        turns: u64::MAX,
    };
    // No index is counted here: a turn says how many are left.
    while r.turns > 0 {
        r = step(input, src, r);
    }
    r
}

// How many bytes are read at once behind so many samples.
fn block_bytes(samples: u64) -> usize
    ensures { (result ≡ block_bytes samples) × (result ≤ buffer_bytes) }
{
    if samples < MOST {
        let left = (MOST - samples) as usize * 4;
        return left.min(BUFFER_BYTES);
    }
    0
}

// Goes on only behind a full block, and while samples may follow: of 0 bytes that were asked for 0 are a full block.
fn turns_left(turns: u64, full: bool, samples: u64) -> u64
    requires { 0 < turns }
    ensures { (result ≡ turns_left turns full samples) × (result < turns) }
{
    if full & (samples < MOST) {
        turns - 1
    } else {
        0
    }
}

// Reads a block and tells of it.
// Here and below a turn is left. No type says so: the last state, which a run answers, has none.
fn step<R: Read>(input: &mut R, src: &mut Buffer, r: Telling) -> Telling
    requires { 0 < r.turns }
    ensures fewer { result.turns < r.turns }
    ensures step { Stepped r src.new result }
{
    let before = r.sheet;
    match read_block(input, block_bytes(before.samples), src) {
        Ok(got) => tell(got, src, r),
        Err(f) => Telling {
            sheet: before,
            fault: Some(f.error),
            turns: 0,
        },
    }
}

// What was read, and no more, is the next block. It is cut out here, where the contract says which bytes it is; that of `step` doesn't.
fn tell(got: Block, src: &[u8], r: Telling) -> Telling
    requires some { 0 < r.turns }
    requires read { (got.bytes ≤ length src.now) × (got.bytes ≤ block_bytes r.sheet.samples) }
    requires full { got.full ≡ eqb got.bytes (block_bytes r.sheet.samples) }
    ensures fewer { result.turns < r.turns }
    ensures step { TellsBlock r (take got.bytes src.now) result }
{
    let block = &src[..got.bytes];
    let sheet = tally_block(r.sheet, block);
    let turns = turns_left(r.turns, got.full, sheet.samples);
    Telling {
        sheet,
        fault: None,
        turns,
    }
}
