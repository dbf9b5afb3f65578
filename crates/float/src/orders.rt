// The order of two whole numbers, and of two patterns of one format. RULES.md: Comparison.
// Patterns that are no NaN order as their positions do, but for the two zeros, which are equal: no scaled number is ever formed.
ghost use Rattle.std.specs.Prelude.{◌≡◌};
ghost use Rattle.float.specs.Format.{zero_in};
ghost use Rattle.float.specs.Order.{order_z, compare_in};

use crate::bits::{abs, is_nan};
use crate::positions::position;
use crate::{Integer, Order, Pattern};

pub fn order_integers<T: Integer>(m: T, n: T) -> Order
    ensures { result ≡ order_z (T.integer m) (T.integer n) }
{
    if m < n {
        Order::Less
    } else if n < m {
        Order::Greater
    } else {
        Order::Equal
    }
}

fn is_zero<P: Pattern>(bits: P) -> bool
    ensures { result ≡ zero_in P.format (P.whole bits) }
{
    abs(bits) == P::ZERO
}

#[tactic(auto, using(crate::proofs::Comparing::compare_nan, crate::proofs::Comparing::compare_zeros, crate::proofs::Comparing::compare_placed))]
pub fn compare<P: Pattern>(a: P, b: P) -> Order
    ensures { result ≡ compare_in P.format (P.whole a) (P.whole b) }
{
    if is_nan(a) | is_nan(b) {
        Order::Unordered
    } else if is_zero(a) & is_zero(b) {
        Order::Equal
    } else {
        order_integers(position(a), position(b))
    }
}
