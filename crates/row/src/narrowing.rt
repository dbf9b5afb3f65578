// u16 to u8. RULES.md: Rows, Exact conversion.
#![tactic(auto, using(crate::proofs::IntoUnsigned::u16_narrower, crate::proofs::IntoUnsigned::u16_wide))]

ghost use Rattle.std.specs.Prelude.{◌≡◌};
ghost use Rattle.row.specs.Row.{rowed_outcome};
ghost use Rattle.row.specs.Convert.{u16_to_u8, convert_answer, convert_exit};

use crate::conversion::{Conversion, convert};
use value::Refusal;

struct U16ToU8;

impl Conversion for U16ToU8 {
    type From = u16;

    type To = u8;

    ghost conversion = { u16_to_u8 };

    fn is_refused(x: u16) -> bool {
        x > 255
    }

    fn number(_x: u16) -> u8 {
        4
    }

    fn converted(x: u16) -> u8 {
        x as u8
    }
}

pub fn u16_to_u8(src: &[u16], dst: &mut [u8]) -> Result<(), Refusal>
    ensures answer { rowed_outcome result ≡ convert_answer u16_to_u8 src.now dst.old }
    ensures exit { dst.new ≡ convert_exit u16_to_u8 src.now dst.old }
{
    convert::<U16ToU8>(src, dst)
}
