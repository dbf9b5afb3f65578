// Rows of samples.
ghost use Rattle.std.specs.Prelude.{◌≡◌};
ghost use Rattle.rowclamp.specs.Clamp.{clamp_answer, clamp_exit};
ghost use Rattle.row.specs.Convert.{u8_to_u16, u16_to_u8, u16_to_f32, f32_to_u16, convert_answer, convert_exit};
ghost use Rattle.silamogo.specs.Answer.{answered_of, bounds_of};

use crate::Answer;
use choose::Range;

#[unsafe(no_mangle)]
pub extern "C" fn silamogo_row_clamp(row: &mut [f32], lower: f32, upper: f32) -> Answer
    ensures answer { result ≡ answered_of (clamp_answer (bounds_of lower upper) row.old) }
    ensures exit { row.new ≡ clamp_exit (bounds_of lower upper) row.old }
{
    Answer::from(rowclamp::clamp(row, Range { lower, upper }))
}

#[unsafe(no_mangle)]
pub extern "C" fn silamogo_row_u8_to_u16(src: &[u8], dst: &mut [u16]) -> Answer
    ensures answer { result ≡ answered_of (convert_answer u8_to_u16 src.now dst.old) }
    ensures exit { dst.new ≡ convert_exit u8_to_u16 src.now dst.old }
{
    Answer::from(row::u8_to_u16(src, dst))
}

#[unsafe(no_mangle)]
pub extern "C" fn silamogo_row_u16_to_u8(src: &[u16], dst: &mut [u8]) -> Answer
    ensures answer { result ≡ answered_of (convert_answer u16_to_u8 src.now dst.old) }
    ensures exit { dst.new ≡ convert_exit u16_to_u8 src.now dst.old }
{
    Answer::from(row::u16_to_u8(src, dst))
}

#[unsafe(no_mangle)]
pub extern "C" fn silamogo_row_u16_to_f32(src: &[u16], dst: &mut [f32]) -> Answer
    ensures answer { result ≡ answered_of (convert_answer u16_to_f32 src.now dst.old) }
    ensures exit { dst.new ≡ convert_exit u16_to_f32 src.now dst.old }
{
    Answer::from(row::u16_to_f32(src, dst))
}

#[unsafe(no_mangle)]
pub extern "C" fn silamogo_row_f32_to_u16(src: &[f32], dst: &mut [u16]) -> Answer
    ensures answer { result ≡ answered_of (convert_answer f32_to_u16 src.now dst.old) }
    ensures exit { dst.new ≡ convert_exit f32_to_u16 src.now dst.old }
{
    Answer::from(row::f32_to_u16(src, dst))
}
