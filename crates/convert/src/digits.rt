// Binary digits of whole numbers.
ghost use Rattle.std.specs.Prelude.{◌≡◌, not, ◌/◌, ◌%◌, ◌^◌, ◌≤◌, ◌<◌, eqb};
ghost use Rattle.std.specs.Float.Ieee.{size};
ghost use Rattle.convert.specs.Inner.{magnitude};

use crate::{Ratio, Scaled};

// How many binary digits n has: none for 0.
pub(crate) fn size_of(n: u64) -> u32
    ensures { (result ≡ size n) × (result ≤ 64) }
{
    64 - n.leading_zeros()
}

// Whether one of the lowest t digits of m is set: then m over 2^t has a fraction. The lowest that is set stands above the trailing zeros; 0 has
// none, and its 64 trailing zeros may be fewer than t.
pub(crate) fn has_fraction(m: u64, t: u64) -> bool
    ensures { result ≡ not (eqb (m % 2 ^ t) 0) }
{
    m != 0 && (m.trailing_zeros() as u64) < t
}

// A number over 2^d.
pub(crate) fn over(n: Scaled, d: u64) -> Ratio
    requires { (0 < n.digits) × (magnitude n / 2 ^ d < 2 ^ 64) }
    ensures { (result.quotient ≡ magnitude n / 2 ^ d) × (result.rest ≡ not (eqb (magnitude n % 2 ^ d) 0)) }
{
    let g = n.shift as u64;
    if d <= g {
        return Ratio {
            quotient: n.digits << (g - d),
            rest: false,
        };
    }
    let t = d - g;
    Ratio {
        quotient: if t > 63 { 0 } else { n.digits >> t },
        rest: has_fraction(n.digits, t),
    }
}
