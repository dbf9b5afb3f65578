// A block of samples behind the samples before it. RULES.md: Migration.
ghost use Rattle.std.specs.Prelude.{◌≡◌, ◌/◌, ◌≤◌, length};
ghost use Rattle.row.specs.Row.{rowed_outcome};
ghost use Rattle.value.specs.Kinds.{bytes_of};
ghost use Rattle.sample.specs.Samples.{count_of};
ghost use Rattle.block.specs.Migrate.{block_answer, step_samples, step_answer, step_exit, StepTaken};
ghost use Rattle.block.specs.Inner.{block_exit};

use crate::halves::{from_halves, holds_nan};
use crate::passes::{check_samples, write_samples};
use crate::rows::{floated, made_whole, narrowed, widened};
use crate::{Progress, ROW_PLACES};
use sample::count;
use value::{Kind, Refusal, bytes_of};

// The samples one by one: the buffer, which has room for them, is written whole, or left as it was.
fn one_by_one(from: Kind, to: Kind, src: &[u8], dst: &mut [u8]) -> Result<(), Refusal>
    requires { count_of from src.now ≤ length dst.old / bytes_of to }
    ensures answer { rowed_outcome result ≡ block_answer from to src.now }
    ensures exit { dst.new ≡ block_exit from to src.now dst.old }
{
    check_samples(from, to, src)?;
    write_samples(from, to, src, dst);
    Ok(())
}

// The pairs that have rows go through the row calls, f16 to f32 without NaN through a pass of its own, all else sample by sample.
fn by_pair(from: Kind, to: Kind, src: &[u8], dst: &mut [u8]) -> Result<(), Refusal>
    requires { count_of from src.now ≤ length dst.old / bytes_of to }
    ensures answer { rowed_outcome result ≡ block_answer from to src.now }
    ensures exit { dst.new ≡ block_exit from to src.now dst.old }
{
    let n = count(from, src);
    match (from, to) {
        (Kind::U8, Kind::U16) => widened(src, dst),
        (Kind::U16, Kind::F32) => floated(src, dst),
        (Kind::U16, Kind::U8) if n <= ROW_PLACES => narrowed(src, dst),
        (Kind::F32, Kind::U16) if n <= ROW_PLACES => made_whole(src, dst),
        (Kind::F16, Kind::F32) if !holds_nan(src) => from_halves(src, dst),
        _ => one_by_one(from, to, src, dst),
    }
}

// The two kinds stay apart here and below, as every definition takes them apart.

// Bytes left over decide; else an earlier refusal stays; without one the room decides, and then the samples. A buffer without room is about no
// sample, so it has the place 0; the place of a sample in the block is told as its place in the whole.
#[tactic(auto, using(crate::proofs::Blocks::left_over, crate::proofs::Blocks::exit_left))]
fn step(
    s: Progress,
    samples: usize,
    from: Kind,
    to: Kind,
    src: &[u8],
    dst: &mut [u8],
) -> Result<(), Refusal>
    requires { samples ≡ step_samples from s.samples src.now }
    ensures answer { rowed_outcome result ≡ step_answer from to s.samples (rowed_outcome s.answer) src.now (length dst.old) }
    ensures exit { dst.new ≡ step_exit from to s.samples (rowed_outcome s.answer) src.now dst.old }
{
    if src.len() % bytes_of(from) != 0 {
        return Err(Refusal {
            number: 9,
            place: samples,
        });
    }
    let earlier = s.answer;
    earlier?;
    if dst.len() / bytes_of(to) < count(from, src) {
        return Err(Refusal {
            number: 9,
            place: 0,
        });
    }
    let moved = by_pair(from, to, src, dst);
    moved.map_err(|f| Refusal {
        place: s.samples.wrapping_add(f.place),
        ..f
    })
}

// After a refusal the samples are only counted.
#[tactic(auto, using(crate::proofs::Blocks::samples_then))]
pub fn convert_block(s: Progress, from: Kind, to: Kind, src: &[u8], dst: &mut [u8]) -> Progress
    ensures { StepTaken from to s src.now dst.old dst.new result }
{
    let samples = s.samples.wrapping_add(count(from, src));
    Progress {
        samples,
        answer: step(s, samples, from, to, src, dst),
    }
}
