// The operands of a line: the digits of a value, one value, two values, a value and a kind.
ghost use Rattle.std.specs.Prelude.{◌≡◌};
ghost use Rattle.vectors.specs.Operands.{with_digits, value_in, values_in, value_and_kind_in};

use text::{after, before, digits_of, hex_number, kind_named};
use value::{Kind, Value, value_of};

// HEX, with all digits of the kind.
#[tactic(auto, unfolding(crate::specs::Operands::with_digits))]
pub(crate) fn with_digits(kind: Kind, digits: &[u8]) -> Option<Value>
    ensures { result ≡ with_digits kind digits.now }
{
    if digits.len() != digits_of(kind) {
        return None;
    }
    Some(value_of(kind, hex_number(digits)?))
}

// KIND:HEX. Where there is no colon there are no digits.
#[tactic(auto, unfolding(crate::specs::Operands::value_in))]
pub(crate) fn value_in(s: &[u8]) -> Option<Value>
    ensures { result ≡ value_in s.now }
{
    let kind = kind_named(before(b':', s))?;
    with_digits(kind, after(b':', s))
}

// Two values parted by one space. No value holds a space, so a third field makes the second value malformed.
#[tactic(auto, unfolding(crate::specs::Operands::values_in))]
pub(crate) fn values_in(s: &[u8]) -> Option<(Value, Value)>
    ensures { result ≡ values_in s.now }
{
    let a = value_in(before(b' ', s))?;
    let b = value_in(after(b' ', s))?;
    Some((a, b))
}

// A value and a kind's name, parted by one space. No name holds a space.
#[tactic(auto, unfolding(crate::specs::Operands::value_and_kind_in))]
pub(crate) fn value_and_kind_in(s: &[u8]) -> Option<(Value, Kind)>
    ensures { result ≡ value_and_kind_in s.now }
{
    let v = value_in(before(b' ', s))?;
    let kind = kind_named(after(b' ', s))?;
    Some((v, kind))
}
