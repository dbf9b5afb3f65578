// The number whose bytes are the key of a value: from its bits, and its bits from the number. RULES.md: Keys.
ghost use Rattle.std.specs.Prelude.{◌≡◌, ◌+◌, ◌*◌, ◌%◌, ◌^◌, ◌≤◌, ◌<◌};
ghost use Rattle.value.specs.Kinds.{form_of};
ghost use Rattle.key.specs.Key.{float_key, pattern_from, key_number};
ghost use Rattle.key.specs.Inner.{InWeights, weights_for, abs_by_weight, number_by_weights, bits_by_weights, nan_by_weights, foreign_by_weights};

use crate::Weights;
use value::{Kind, Layout, Value};

// `half`, the weight of a sign bit, is a bare number in the next four: a type that bounds it would be longer than they are.

// The sign bit turned: the key of a signed number from its bits, and its bits from the key.
fn turned(half: u64, n: u64) -> u64
    requires { (half ≤ 2 ^ 63) × (n < 2 * half) }
    ensures { result ≡ (n + half) % (2 * half) }
{
    if n < half { n + half } else { n - half }
}

// Minus zero is folded into plus zero; of a negative float all bits are turned, of any other the sign bit.
fn float_number(half: u64, bits: u64) -> u64
    requires { (half ≤ 2 ^ 63) × (bits < 2 * half) }
    ensures { result ≡ float_key half bits }
{
    if bits == half {
        half
    } else if half <= bits {
        half - 1 - (bits - half)
    } else {
        half + bits
    }
}

fn float_pattern(half: u64, n: u64) -> u64
    requires { (half ≤ 2 ^ 63) × (n < 2 * half) }
    ensures { result ≡ pattern_from half n }
{
    if n < half {
        half - 1 - n + half
    } else {
        n - half
    }
}

fn abs_in(half: u64, bits: u64) -> u64
    ensures { result ≡ abs_by_weight half bits }
{
    if half <= bits { bits - half } else { bits }
}

impl Weights {
    pub(crate) fn of(k: Kind) -> Weights
        ensures { result ≡ weights_for (form_of k) }
    {
        match value::layout_of(k) {
            Layout::Unsigned(_) => Weights::Unsigned,
            Layout::Signed(width) => Weights::Signed(1 << (width - 1)),
            Layout::Float(width, fraction) => {
                let sign = 1u64 << (width - 1);
                Weights::Float(sign, sign - (1u64 << fraction))
            }
        }
    }

    // The number of the key whose value has these bits.
    fn number(self, bits: u64) -> u64
        requires { InWeights self bits }
        ensures { result ≡ number_by_weights self bits }
    {
        match self {
            Weights::Unsigned => bits,
            Weights::Signed(half) => turned(half, bits),
            Weights::Float(half, _) => float_number(half, bits),
        }
    }

    // The bits of the value whose key is n.
    pub(crate) fn bits(self, n: u64) -> u64
        requires { InWeights self n }
        ensures { result ≡ bits_by_weights self n }
    {
        match self {
            Weights::Unsigned => n,
            Weights::Signed(half) => turned(half, n),
            Weights::Float(half, _) => float_pattern(half, n),
        }
    }

    pub(crate) fn is_nan(self, bits: u64) -> bool
        ensures { result ≡ nan_by_weights self bits }
    {
        match self {
            Weights::Float(half, infinity) => infinity < abs_in(half, bits),
            _ => false,
        }
    }

    // Bits that no key stands for: those of a NaN and of minus zero.
    pub(crate) fn is_foreign(self, bits: u64) -> bool
        ensures { result ≡ foreign_by_weights self bits }
    {
        match self {
            Weights::Float(half, infinity) => infinity < abs_in(half, bits) || bits == half,
            _ => false,
        }
    }
}

// The number whose bytes are the key of a value.
pub(crate) fn number_of(v: Value) -> u64
    ensures { result ≡ key_number v }
{
    Weights::of(value::kind_of(v)).number(value::bits_of(v))
}
