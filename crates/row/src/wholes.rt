// f32 to u16: whole numbers in range. RULES.md: Rows, Exact conversion.
#![tactic(auto, using(crate::proofs::IntoU16::sample_laws))]

ghost use Rattle.std.specs.Prelude.{◌≡◌};
ghost use Rattle.row.specs.Row.{rowed_outcome};
ghost use Rattle.row.specs.Convert.{f32_to_u16, convert_answer, convert_exit};
ghost use Rattle.row.specs.Inner.{is_whole};

use crate::conversion::{Conversion, convert};
use value::Refusal;

// Whether a sample from 0 up to 2^23 is whole: from 2^23 to 2^24 there are whole numbers only, so the sum loses a fraction.
fn is_whole(x: f32) -> bool
    ensures { result ≡ is_whole x }
{
    (x + 8388608.0) - 8388608.0 == x
}

struct F32ToU16;

impl Conversion for F32ToU16 {
    type From = f32;

    type To = u16;

    ghost conversion = { f32_to_u16 };

    // One compare tells those from plus zero to 65535: all others have higher bits, minus zero and what is negative by the sign bit.
    fn is_refused(x: f32) -> bool {
        !((value::bits_f32(x, 0) <= 0x477f_ff00) & is_whole(x))
    }

    // 1 NaN, 2 infinity, 13 minus zero, 3 fraction, 4 out of range. From 2^23 on every float is whole.
    fn number(x: f32) -> u8 {
        let bits = value::bits_f32(x, 0);
        let abs = float::abs(bits);
        if float::is_nan(bits) {
            1
        } else if float::is_infinite(bits) {
            2
        } else if bits == 0x8000_0000 {
            13
        } else if 0x4b00_0000 <= abs {
            4
        } else if is_whole(f32::from_bits(abs)) {
            4
        } else {
            3
        }
    }

    fn converted(x: f32) -> u16 {
        x as u16
    }
}

pub fn f32_to_u16(src: &[f32], dst: &mut [u16]) -> Result<(), Refusal>
    ensures answer { rowed_outcome result ≡ convert_answer f32_to_u16 src.now dst.old }
    ensures exit { dst.new ≡ convert_exit f32_to_u16 src.now dst.old }
{
    convert::<F32ToU16>(src, dst)
}
