// A file looked at, block by block. What looks at a block is look::look_block.
ghost use Rattle.std.specs.Prelude.{◌≤◌, ◌<◌, ◌≡◌, eqb, length, take};
ghost use Rattle.look.specs.Report.{nothing_seen};
ghost use Rattle.migration.specs.Steps.{LookedOn};
ghost use Rattle.migration.specs.Inner.{Looked};
ghost use Rattle.migration.specs.Sizes.{block_bytes};
ghost use Rattle.migration.specs.Runs.{Looks};

use crate::blocks::{Buffer, Fault, block_bytes, large_buffer, turns_left};
use crate::watches::{Watch, begun, tell};
use input::{Block, read_block};
use look::{Seen, look_block};
use std::io::{Read, Seek};
use std::rt::Clock;
use value::Kind;

// Where a look stands; `turns` is how many blocks may still be read, 0 once the input has ended.
#[derive(Clone, Copy)]
pub struct Look {
    pub seen: Seen,
    pub fault: Option<Fault>,
    pub turns: u64,
}

// No samples yet.
fn nothing_seen() -> Seen
    ensures { result ≡ nothing_seen }
{
    Seen {
        samples: 0,
        nans: 0,
        infinities: 0,
        minus_zeros: 0,
        lowest: None,
        highest: None,
        refusable: 0,
        answer: Ok(()),
    }
}

// Looks at the whole of input.
pub fn look_through<R: Read + Seek>(
    rt: &(impl Clock + Eprint),
    input: &mut R,
    from: Kind,
    to: Kind,
    w: Watch,
) -> Look
    ensures { Looks from to result }
{
    let mut src = large_buffer();
    look_in(rt, input, from, to, &mut src, w)
}

// The same, in a buffer for a block.
fn look_in<R: Read + Seek>(
    rt: &(impl Clock + Eprint),
    input: &mut R,
    from: Kind,
    to: Kind,
    src: &mut Buffer,
    w: Watch,
) -> Look
    ensures { Looks from to result }
{
    let mut watch = begun(rt, w);
    let mut r = Look {
        seen: nothing_seen(),
        fault: None,
        turns: u64::MAX,
    };
    // No index is counted here: a turn says how many are left.
    while r.turns > 0 {
        r = look_on(input, from, to, src, r);
        let seen = r.seen;
        watch = tell(rt, watch, input, seen.samples);
    }
    r
}

// Reads a block and looks at it.
// Here and below a turn is left. No type says so: the last state, which a run answers, has none.
fn look_on<R: Read>(input: &mut R, from: Kind, to: Kind, src: &mut Buffer, r: Look) -> Look
    requires { 0 < r.turns }
    ensures fewer { result.turns < r.turns }
    ensures step { Looked from to r src.new result }
{
    match read_block(input, block_bytes(from, from), src) {
        Ok(got) => look_at(got, from, to, src, r),
        Err(f) => Look {
            fault: Some(Fault::Reading(f.error)),
            turns: 0,
            ..r
        },
    }
}

// What was read, and no more, is the next block. It is cut out here, where the contract says which bytes it is; that of `look_on` doesn't.
fn look_at(got: Block, from: Kind, to: Kind, src: &[u8], r: Look) -> Look
    requires some { 0 < r.turns }
    requires read { got.bytes ≤ length src.now }
    requires full { got.full ≡ eqb got.bytes (block_bytes from from) }
    ensures fewer { result.turns < r.turns }
    ensures step { LookedOn from to r (take got.bytes src.now) result }
{
    let block = &src[..got.bytes];
    Look {
        seen: look_block(r.seen, from, to, block),
        fault: None,
        turns: turns_left(r.turns, got.full, None),
    }
}
