// u16 to f32: every sample has its number in the other kind. RULES.md: Rows, Exact conversion.
#![tactic(auto, using(crate::proofs::IntoF32::u16_float))]

ghost use Rattle.std.specs.Prelude.{◌≡◌};
ghost use Rattle.row.specs.Row.{rowed_outcome};
ghost use Rattle.row.specs.Convert.{u16_to_f32, convert_answer, convert_exit};

use crate::conversion::{Conversion, convert};
use value::Refusal;

struct U16ToF32;

impl Conversion for U16ToF32 {
    type From = u16;

    type To = f32;

    ghost conversion = { u16_to_f32 };

    fn is_refused(_x: u16) -> bool {
        false
    }

    // No sample is refused.
    fn number(_x: u16) -> u8 {
        unreachable!()
    }

    fn converted(x: u16) -> f32 {
        x as f32
    }
}

pub fn u16_to_f32(src: &[u16], dst: &mut [f32]) -> Result<(), Refusal>
    ensures answer { rowed_outcome result ≡ convert_answer u16_to_f32 src.now dst.old }
    ensures exit { dst.new ≡ convert_exit u16_to_f32 src.now dst.old }
{
    convert::<U16ToF32>(src, dst)
}
