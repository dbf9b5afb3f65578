// The five classes. RULES.md: Bits and classes.
ghost use Rattle.std.specs.Prelude.{◌≡◌};
ghost use Rattle.float.specs.Format.{class_in};

use crate::bits::abs;
use crate::{Class, Pattern};

#[tactic(auto, unfolding(crate::specs::Format::class_of))]
pub fn classify<P: Pattern>(bits: P) -> Class
    ensures { result ≡ class_in P.format (P.whole bits) }
{
    let x = abs(bits);
    if P::INFINITY < x {
        Class::Nan
    } else if x == P::INFINITY {
        Class::Infinite
    } else if x == P::ZERO {
        Class::Zero
    } else if x < P::NORMAL {
        Class::Subnormal
    } else {
        Class::Normal
    }
}
