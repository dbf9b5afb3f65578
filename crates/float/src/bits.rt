// The sign, and what the other bits say. RULES.md: Bits and classes.
ghost use Rattle.std.specs.Prelude.{◌≡◌};
ghost use Rattle.float.specs.Format.{abs_in, negative_in, finite_in, infinite_in, nan_in};

use crate::Pattern;

#[tactic(auto, using(crate::proofs::Magnitude::abs_below, crate::proofs::Magnitude::abs_reached))]
pub fn abs<P: Pattern>(bits: P) -> P
    ensures { P.whole result ≡ abs_in P.format (P.whole bits) }
{
    if bits < P::SIGN { bits } else { bits - P::SIGN }
}

pub fn is_sign_negative<P: Pattern>(bits: P) -> bool
    ensures { result ≡ negative_in P.format (P.whole bits) }
{
    P::SIGN <= bits
}

pub fn is_finite<P: Pattern>(bits: P) -> bool
    ensures { result ≡ finite_in P.format (P.whole bits) }
{
    abs(bits) < P::INFINITY
}

pub fn is_infinite<P: Pattern>(bits: P) -> bool
    ensures { result ≡ infinite_in P.format (P.whole bits) }
{
    abs(bits) == P::INFINITY
}

pub fn is_nan<P: Pattern>(bits: P) -> bool
    ensures { result ≡ nan_in P.format (P.whole bits) }
{
    P::INFINITY < abs(bits)
}
