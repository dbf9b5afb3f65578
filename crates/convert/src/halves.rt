// f16 to f32: a magnitude with exponent field 0 is looked up. RULES.md: Exact conversion.
ghost use Rattle.value.specs.Outcome.{outcome_of};
ghost use Rattle.std.specs.Prelude.{◌≡◌};
ghost use Rattle.value.specs.Meaning.{exact_of};
ghost use Rattle.convert.specs.Inner.{into_of};

use crate::Found;
use crate::sources::parts_of;
use crate::targets::put;
use value::{Kind, Refusal, Value};

pub(crate) fn half_to_f32(b: u16) -> Result<Value, Refusal>
    ensures { outcome_of result ≡ into_of Kind.F32 (exact_of (Value.F16 b)) }
{
    let a = float::abs(b);
    if a < 0x0400 {
        let bits = half::small_f32(a);
        let found = Found {
            negative: float::is_sign_negative(b),
            number: bits as u64,
        };
        Ok(value::f32_value(found.with_sign(0x8000_0000) as u32))
    } else {
        put(parts_of(Value::F16(b)), Kind::F32)
    }
}
