// u8 to u16: every sample has its number in the other kind. RULES.md: Rows, Exact conversion.
#![tactic(auto, using(crate::proofs::IntoUnsigned::u8_wider))]

ghost use Rattle.std.specs.Prelude.{◌≡◌};
ghost use Rattle.row.specs.Row.{rowed_outcome};
ghost use Rattle.row.specs.Convert.{u8_to_u16, convert_answer, convert_exit};

use crate::conversion::{Conversion, convert};
use value::Refusal;

struct U8ToU16;

impl Conversion for U8ToU16 {
    type From = u8;

    type To = u16;

    ghost conversion = { u8_to_u16 };

    fn is_refused(_x: u8) -> bool {
        false
    }

    // No sample is refused.
    fn number(_x: u8) -> u8 {
        unreachable!()
    }

    fn converted(x: u8) -> u16 {
        x as u16
    }
}

pub fn u8_to_u16(src: &[u8], dst: &mut [u16]) -> Result<(), Refusal>
    ensures answer { rowed_outcome result ≡ convert_answer u8_to_u16 src.now dst.old }
    ensures exit { dst.new ≡ convert_exit u8_to_u16 src.now dst.old }
{
    convert::<U8ToU16>(src, dst)
}
