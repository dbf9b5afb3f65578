// A block of samples, told behind what was told before it. One plain loop over the samples, without a branch, which is compiled to vector code.
ghost use Rattle.std.specs.Prelude.{◌≡◌, ◌%◌, ◌≤◌, length, if◌then◌else◌, nat_le};
ghost use Rattle.float.specs.Format.{f32, zero_in, subnormal_in, normal_in};
ghost use Rattle.strip.specs.Sheet.{most, sheet_after};
ghost use Rattle.strip.specs.Inner.{all_bits, tally_of, place_of, start_at, bits_at, found_at};

use crate::samples::{bits_of, taken};
use crate::{MOST, Sheet};
use float::{abs, is_infinite, is_nan, position};

// What a block has: how many samples of each class, and the lowest and the highest position. It has fewer than 2^32 samples.
#[derive(Clone, Copy)]
struct Tally {
    zero: u32,
    subnormal: u32,
    normal: u32,
    infinite: u32,
    nan: u32,
    low: i32,
    high: i32,
}

// ---- a sample

fn is_zero(bits: u32) -> bool
    ensures { result ≡ zero_in f32 bits }
{
    abs(bits) == 0
}

fn is_subnormal(bits: u32) -> bool
    ensures { result ≡ subnormal_in f32 bits }
{
    let x = abs(bits);
    (0 < x) & (x < 0x0080_0000)
}

fn is_normal(bits: u32) -> bool
    ensures { result ≡ normal_in f32 bits }
{
    let x = abs(bits);
    (0x0080_0000 <= x) & (x < 0x7f80_0000)
}

// Its position; a NaN counts as an end.
fn place_of(bits: u32, end: i32) -> i32
    ensures { result ≡ place_of end bits }
{
    if is_nan(bits) { end } else { position(bits) }
}

// ---- all samples

// The lowest and the highest are from two positions on.
fn go_over(samples: &[[u8; 4]], lowest: i32, highest: i32) -> Tally
    requires { length samples.now ≤ most }
    ensures { result ≡ tally_of lowest highest (all_bits samples.now) }
{
    let mut zero = 0;
    let mut subnormal = 0;
    let mut normal = 0;
    let mut infinite = 0;
    let mut nan = 0;
    let mut low = lowest;
    let mut high = highest;
    for sample in samples {
        let bits = bits_of(sample);
        zero += u32::from(is_zero(bits));
        subnormal += u32::from(is_subnormal(bits));
        normal += u32::from(is_normal(bits));
        infinite += u32::from(is_infinite(bits));
        nan += u32::from(is_nan(bits));
        low = low.min(place_of(bits, i32::MAX));
        high = high.max(place_of(bits, i32::MIN));
    }
    Tally {
        zero,
        subnormal,
        normal,
        infinite,
        nan,
        low,
        high,
    }
}

// ---- the lowest and the highest

// Where the loop starts: at what was found before, or at the end where no sample but a NaN is.
fn start_at(found: Option<u32>, end: i32) -> i32
    ensures { result ≡ start_at end found }
{
    found.map_or(end, |bits| position(bits))
}

fn bits_at(place: i32) -> u32
    ensures { result ≡ bits_at place }
{
    if 0 <= place {
        place as u32
    } else {
        0x8000_0000 + (-1 - place) as u32
    }
}

// What is found where the loop came to; `some` is whether it left the end.
fn found_at(found: Option<u32>, some: bool, place: i32) -> Option<u32>
    ensures { result ≡ found_at found some place }
{
    (found.is_some() | some).then_some(bits_at(place))
}

// ---- a block

// How many bytes of a block are left over, behind so many samples.
fn left_over(samples: u64, bytes: usize) -> usize
    ensures { result ≡ (if nat_le most samples then 0 else bytes % 4) }
{
    if MOST <= samples { 0 } else { bytes % 4 }
}

// The block behind what was told before it. The counts are machine numbers; from a blank sheet on they count no more than MOST samples.
pub fn tally_block(s: Sheet, src: &[u8]) -> Sheet
    ensures { result ≡ sheet_after s src.now }
{
    let lowest = s.lowest;
    let highest = s.highest;
    let told = taken(s.samples, src);
    let c = go_over(
        told,
        start_at(lowest, i32::MAX),
        start_at(highest, i32::MIN),
    );
    let samples = s.samples + told.len() as u64;
    Sheet {
        samples,
        zero: s.zero.wrapping_add(c.zero as u64),
        subnormal: s.subnormal.wrapping_add(c.subnormal as u64),
        normal: s.normal.wrapping_add(c.normal as u64),
        infinite: s.infinite.wrapping_add(c.infinite as u64),
        nan: s.nan.wrapping_add(c.nan as u64),
        lowest: found_at(lowest, c.low < i32::MAX, c.low),
        highest: found_at(highest, i32::MIN < c.high, c.high),
        tail: left_over(samples, src.len()),
    }
}
