// The place of a pattern in the total order, as a signed number of its width. RULES.md: Total order.
ghost use Rattle.std.specs.Prelude.{◌≡◌};
ghost use Rattle.float.specs.Format.{position_in};

use crate::Pattern;

pub fn position<P: Pattern>(bits: P) -> P::Position
    ensures { P.Position.integer result ≡ position_in P.format (P.whole bits) }
{
    bits.position()
}
