// Blocks of the pairs that convert as rows: the samples are laid out as a row, the row call decides, and what it gave is laid into bytes.
// Two pairs refuse no sample: their blocks are converted by rows of 16 places, which the compiler keeps in registers, each laid down at once. The
// others have one row for the whole block, so that a refusal leaves the buffer alone. A row has a fixed number of places, as no heap is used.
// RULES.md: Migration, Rows.
ghost use Rattle.std.specs.Prelude.{◌≡◌, ℕ, ◌+◌, ◌*◌, ◌/◌, ◌^◌, ◌<◌, ◌≤◌, false, map, length, drop};
ghost use Rattle.std.proofs.lemmas.List.Edits.{sets};
ghost use Rattle.std.specs.Mem.{type_size};
ghost use Rattle.row.specs.Row.{any, rowed_outcome};
ghost use Rattle.row.specs.Inner.{as_f32};
ghost use Rattle.value.specs.Kinds.{bytes_of};
ghost use Rattle.sample.specs.Samples.{count_of, numbers_in};
ghost use Rattle.block.specs.Output.{bytes_for};
ghost use Rattle.block.specs.Migrate.{block_answer, row_places};
ghost use Rattle.block.specs.Inner.{block_exit};

use crate::ROW_PLACES;
use crate::layouts::{Sample, load, store_row};
use value::{Kind, Refusal};

// A pair that refuses no sample, by its row call.
trait Pair {
    type From: Sample;

    type To: Sample;

    ghost moved: { Self.From → Self.To };

    fn convert(from: &[Self::From], to: &mut [Self::To])
        requires { length from.now ≡ length to.old }
        ensures row { to.new ≡ map moved from.now }
        ensures numbers { any Self.To.is_none to.new ≡ false };
}

struct Widen;

impl Pair for Widen {
    type From = u8;

    type To = u16;

    ghost moved = { λ n. n };

    fn convert(from: &[u8], to: &mut [u16]) {
        let _ = row::u8_to_u16(from, to);
    }
}

struct Float;

impl Pair for Float {
    type From = u16;

    type To = f32;

    ghost moved = { as_f32 };

    fn convert(from: &[u16], to: &mut [f32]) {
        let _ = row::u16_to_f32(from, to);
    }
}

// A row of at most 16 samples, from a sample on.
fn one_row<P: Pair>(src: &[u8], i: usize, many: usize, dst: &mut [u8])
    requires sizes { (16 * type_size P.From.row < 2 ^ 63) × (16 * type_size P.To.row < 2 ^ 63) }
    requires row { (many ≤ 16) × (P.From.WIDTH * i + P.From.WIDTH * many ≤ length src.now) × (P.To.WIDTH * i + P.To.WIDTH * many ≤ length dst.old) }
    ensures { dst.new ≡ sets dst.old (P.To.WIDTH * i)
        (bytes_for P.To.kind (map (λ b. P.To.bits (P.moved (P.From.of_bits b))) (numbers_in P.From.WIDTH many (drop (P.From.WIDTH * i) src.now)))) }
{
    let mut places = [P::From::default(); 16];
    let from = &mut places[..many];
    load(&src[P::From::WIDTH * i..], from);
    let mut room = [P::To::default(); 16];
    let to = &mut room[..many];
    P::convert(from, to);
    store_row(to, dst, P::To::WIDTH * i);
}

// Rows of 16 samples, one after the other, and the samples behind them.
fn by_rows<P: Pair>(src: &[u8], n: usize, dst: &mut [u8])
    requires sizes { (16 * type_size P.From.row < 2 ^ 63) × (16 * type_size P.To.row < 2 ^ 63) }
    requires room { (P.From.WIDTH * n ≤ length src.now) × (P.To.WIDTH * n ≤ length dst.old) }
    ensures { dst.new ≡ sets dst.old 0 (bytes_for P.To.kind (map (λ b. P.To.bits (P.moved (P.From.of_bits b))) (numbers_in P.From.WIDTH n src.now))) }
{
    let rows = n / 16;
    for r in 0..rows {
        one_row::<P>(src, 16 * r, 16, dst);
    }
    one_row::<P>(src, 16 * rows, n % 16, dst);
}

pub(crate) fn widened(src: &[u8], dst: &mut [u8]) -> Result<(), Refusal>
    requires { count_of Kind.U8 src.now ≤ length dst.old / bytes_of Kind.U16 }
    ensures answer { rowed_outcome result ≡ block_answer Kind.U8 Kind.U16 src.now }
    ensures exit { dst.new ≡ block_exit Kind.U8 Kind.U16 src.now dst.old }
{
    by_rows::<Widen>(src, src.len(), dst);
    Ok(())
}

pub(crate) fn floated(src: &[u8], dst: &mut [u8]) -> Result<(), Refusal>
    requires { count_of Kind.U16 src.now ≤ length dst.old / bytes_of Kind.F32 }
    ensures answer { rowed_outcome result ≡ block_answer Kind.U16 Kind.F32 src.now }
    ensures exit { dst.new ≡ block_exit Kind.U16 Kind.F32 src.now dst.old }
{
    by_rows::<Float>(src, src.len() / 2, dst);
    Ok(())
}

// u16 to u8: the front of the buffer is the second row.
pub(crate) fn narrowed(src: &[u8], dst: &mut [u8]) -> Result<(), Refusal>
    requires { (count_of Kind.U16 src.now ≤ length dst.old / bytes_of Kind.U8) × (count_of Kind.U16 src.now ≤ row_places) }
    ensures answer { rowed_outcome result ≡ block_answer Kind.U16 Kind.U8 src.now }
    ensures exit { dst.new ≡ block_exit Kind.U16 Kind.U8 src.now dst.old }
{
    let mut places = [0u16; ROW_PLACES];
    let wide = &mut places[..src.len() / 2];
    load(src, wide);
    row::u16_to_u8(wide, &mut dst[..wide.len()])
}

// f32 to u16.
pub(crate) fn made_whole(src: &[u8], dst: &mut [u8]) -> Result<(), Refusal>
    requires { (count_of Kind.F32 src.now ≤ length dst.old / bytes_of Kind.U16) × (count_of Kind.F32 src.now ≤ row_places) }
    ensures answer { rowed_outcome result ≡ block_answer Kind.F32 Kind.U16 src.now }
    ensures exit { dst.new ≡ block_exit Kind.F32 Kind.U16 src.now dst.old }
{
    let n = src.len() / 4;
    let mut places = [0.0f32; ROW_PLACES];
    let reals = &mut places[..n];
    load(src, reals);
    let mut room = [0u16; ROW_PLACES];
    let wide = &mut room[..n];
    row::f32_to_u16(reals, wide)?;
    store_row(wide, dst, 0);
    Ok(())
}
