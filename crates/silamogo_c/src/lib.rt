// The archive for C, Rust and Python, libsilamogo.a: each call of the boundary under its own name, with its own clauses. All that is done is
// done in silamogo; a Rattle crate takes that one.
#![tactic(auto)]

ghost use Rattle.std.specs.Prelude.{◌≡◌, length};
ghost use Rattle.row.specs.Convert.{u8_to_u16, u16_to_u8, u16_to_f32, f32_to_u16, convert_answer, convert_exit};
ghost use Rattle.rowclamp.specs.Clamp.{clamp_answer, clamp_exit};
ghost use Rattle.silamogo.specs.Answer.{answered_of, ordered_of, classed_of, positioned_of, sampled_of, measured_of, bounds_of};
ghost use Rattle.silamogo.specs.Records.{records_order, key_length, key_exit, success_of, record_read, read_exit};
ghost use Rattle.silamogo.specs.Single.{compare_of, total_of, min_of, max_of, clamp_of, convert_of, classify_of, sample_position};

use silamogo::{Answer, Classed, Measured, Ordered, Positioned, Sample, Sampled};

#[unsafe(no_mangle)]
pub extern "C" fn silamogo_classify(s: Sample) -> Classed
    ensures { result ≡ classed_of (classify_of s) }
{
    silamogo::silamogo_classify(s)
}

#[unsafe(no_mangle)]
pub extern "C" fn silamogo_position(s: Sample) -> Positioned
    ensures { result ≡ positioned_of (sample_position s) }
{
    silamogo::silamogo_position(s)
}

#[unsafe(no_mangle)]
pub extern "C" fn silamogo_compare(a: Sample, b: Sample) -> Ordered
    ensures { result ≡ ordered_of (compare_of a b) }
{
    silamogo::silamogo_compare(a, b)
}

#[unsafe(no_mangle)]
pub extern "C" fn silamogo_total_order(a: Sample, b: Sample) -> Ordered
    ensures { result ≡ ordered_of (total_of a b) }
{
    silamogo::silamogo_total_order(a, b)
}

#[unsafe(no_mangle)]
pub extern "C" fn silamogo_min(a: Sample, b: Sample) -> Sampled
    ensures { result ≡ sampled_of (min_of a b) }
{
    silamogo::silamogo_min(a, b)
}

#[unsafe(no_mangle)]
pub extern "C" fn silamogo_max(a: Sample, b: Sample) -> Sampled
    ensures { result ≡ sampled_of (max_of a b) }
{
    silamogo::silamogo_max(a, b)
}

#[unsafe(no_mangle)]
pub extern "C" fn silamogo_clamp(v: Sample, lower: Sample, upper: Sample) -> Sampled
    ensures { result ≡ sampled_of (clamp_of v lower upper) }
{
    silamogo::silamogo_clamp(v, lower, upper)
}

#[unsafe(no_mangle)]
pub extern "C" fn silamogo_convert(v: Sample, to: u8) -> Sampled
    ensures { result ≡ sampled_of (convert_of v to) }
{
    silamogo::silamogo_convert(v, to)
}

#[unsafe(no_mangle)]
pub extern "C" fn silamogo_row_clamp(row: &mut [f32], lower: f32, upper: f32) -> Answer
    ensures answer { result ≡ answered_of (clamp_answer (bounds_of lower upper) row.old) }
    ensures exit { row.new ≡ clamp_exit (bounds_of lower upper) row.old }
{
    silamogo::silamogo_row_clamp(row, lower, upper)
}

#[unsafe(no_mangle)]
pub extern "C" fn silamogo_row_u8_to_u16(src: &[u8], dst: &mut [u16]) -> Answer
    ensures answer { result ≡ answered_of (convert_answer u8_to_u16 src.now dst.old) }
    ensures exit { dst.new ≡ convert_exit u8_to_u16 src.now dst.old }
{
    silamogo::silamogo_row_u8_to_u16(src, dst)
}

#[unsafe(no_mangle)]
pub extern "C" fn silamogo_row_u16_to_u8(src: &[u16], dst: &mut [u8]) -> Answer
    ensures answer { result ≡ answered_of (convert_answer u16_to_u8 src.now dst.old) }
    ensures exit { dst.new ≡ convert_exit u16_to_u8 src.now dst.old }
{
    silamogo::silamogo_row_u16_to_u8(src, dst)
}

#[unsafe(no_mangle)]
pub extern "C" fn silamogo_row_u16_to_f32(src: &[u16], dst: &mut [f32]) -> Answer
    ensures answer { result ≡ answered_of (convert_answer u16_to_f32 src.now dst.old) }
    ensures exit { dst.new ≡ convert_exit u16_to_f32 src.now dst.old }
{
    silamogo::silamogo_row_u16_to_f32(src, dst)
}

#[unsafe(no_mangle)]
pub extern "C" fn silamogo_row_f32_to_u16(src: &[f32], dst: &mut [u16]) -> Answer
    ensures answer { result ≡ answered_of (convert_answer f32_to_u16 src.now dst.old) }
    ensures exit { dst.new ≡ convert_exit f32_to_u16 src.now dst.old }
{
    silamogo::silamogo_row_f32_to_u16(src, dst)
}

#[unsafe(no_mangle)]
pub extern "C" fn silamogo_record_compare(
    a_kinds: &[u8],
    a_bits: &[u64],
    b_kinds: &[u8],
    b_bits: &[u64],
) -> Ordered
    ensures { result ≡ ordered_of (records_order a_kinds.now a_bits.now b_kinds.now b_bits.now) }
{
    silamogo::silamogo_record_compare(a_kinds, a_bits, b_kinds, b_bits)
}

#[unsafe(no_mangle)]
pub extern "C" fn silamogo_key_write(kinds: &[u8], bits: &[u64], buffer: &mut [u8]) -> Measured
    ensures answer { result ≡ measured_of (key_length kinds.now bits.now (length buffer.old)) }
    ensures exit { buffer.new ≡ key_exit kinds.now bits.now buffer.old }
{
    silamogo::silamogo_key_write(kinds, bits, buffer)
}

#[unsafe(no_mangle)]
pub extern "C" fn silamogo_key_read(kinds: &[u8], key: &[u8], bits: &mut [u64]) -> Answer
    ensures answer { result ≡ answered_of (success_of (record_read kinds.now key.now (length bits.old))) }
    ensures exit { bits.new ≡ read_exit kinds.now key.now bits.old }
{
    silamogo::silamogo_key_read(kinds, key, bits)
}
