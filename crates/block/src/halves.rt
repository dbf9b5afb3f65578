// f16 to f32: a pass that only looks for a NaN, the one thing that is refused, then a pass that writes. The table of `half` is taken once for a
// block and lent down. RULES.md: Migration, Exact conversion.
ghost use Rattle.std.specs.Prelude.{◌≡◌, ◌*◌, ◌/◌, ◌≤◌, false, map, length};
ghost use Rattle.std.proofs.lemmas.List.Edits.{sets};
ghost use Rattle.float.specs.Format.{f16, nan_in};
ghost use Rattle.half.specs.Small.{Small};
ghost use Rattle.row.specs.Row.{any, rowed_outcome};
ghost use Rattle.value.specs.Kinds.{bytes_of};
ghost use Rattle.sample.specs.Samples.{count_of, numbers_in};
ghost use Rattle.block.specs.Output.{bytes_for};
ghost use Rattle.block.specs.Migrate.{block_answer};
ghost use Rattle.block.specs.Inner.{half_bits, block_exit};

use crate::bytes::store;
use crate::layouts::Sample;
use value::{Kind, Refusal};

// Whether a sample is a NaN. Every one is looked at: `any`, which stops at the first, isn't compiled to vector code and takes seven times as long.
pub(crate) fn holds_nan(src: &[u8]) -> bool
    ensures { result ≡ any (nan_in f16) (numbers_in 2 (length src.now / 2) src.now) }
{
    let n = src.len() / 2;
    let mut found = false;
    for i in 0..n {
        found |= float::is_nan(u16::at(src, i));
    }
    found
}

// The f32 pattern of a pattern that is no NaN: by the table where the exponent field is 0, else with the exponent moved by 112.
fn wide_bits(t: &[u32; 1024], b: u16) -> u32
    requires { Small t.now × (nan_in f16 b ≡ false) }
    ensures { result ≡ half_bits b }
{
    let a = float::abs(b);
    let entry = t[(a % 1024) as usize];
    let wide = if a < 0x0400 {
        entry
    } else if a == 0x7c00 {
        0x7f80_0000
    } else {
        (a as u32) * 0x2000 + 0x3800_0000
    };
    if b < 0x8000 { wide } else { wide + 0x8000_0000 }
}

fn write_wide(t: &[u32; 1024], src: &[u8], dst: &mut [u8])
    requires { Small t.now × (any (nan_in f16) (numbers_in 2 (length src.now / 2) src.now) ≡ false) × (4 * (length src.now / 2) ≤ length dst.old) }
    ensures { dst.new ≡ sets dst.old 0 (bytes_for Kind.F32 (map half_bits (numbers_in 2 (length src.now / 2) src.now))) }
{
    let n = src.len() / 2;
    for i in 0..n {
        let wide = wide_bits(t, u16::at(src, i));
        store(dst, 4 * i, 4, u64::from(wide));
    }
}

// A block without NaN.
pub(crate) fn from_halves(src: &[u8], dst: &mut [u8]) -> Result<(), Refusal>
    requires { (any (nan_in f16) (numbers_in 2 (length src.now / 2) src.now) ≡ false) × (count_of Kind.F16 src.now ≤ length dst.old / bytes_of Kind.F32) }
    ensures answer { rowed_outcome result ≡ block_answer Kind.F16 Kind.F32 src.now }
    ensures exit { dst.new ≡ block_exit Kind.F16 Kind.F32 src.now dst.old }
{
    let table = half::whole_table();
    write_wide(&table, src, dst);
    Ok(())
}
