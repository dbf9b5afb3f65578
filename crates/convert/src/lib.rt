// Exact conversion between the kinds: a number arrives unchanged, or is refused with the reason (docs/RULES.md: Exact conversion).
// The source is taken apart into its number, the target puts it together: eleven arms and eleven arms serve 121 pairs. One pair has a way of its own:
// f16 to f32 goes through the table of `half` where the exponent field is 0.
#![tactic(auto)]

mod digits;
mod formats;
mod halves;
mod sources;
mod targets;

ghost use Rattle.value.specs.Outcome.{outcome_of};
ghost use Rattle.std.specs.Prelude.{◌≡◌};
ghost use Rattle.convert.specs.Convert.{convert_of};

use halves::half_to_f32;
use sources::parts_of;
use targets::put;
use value::{Kind, Refusal, Value};

// A sign and digits * 2^shift, in units of 2^-1074.
#[derive(Clone, Copy)]
pub struct Scaled {
    pub negative: bool,
    pub digits: u64,
    pub shift: u16,
}

// What a value stands for: no number, an infinity with its sign, or a number.
#[derive(Clone, Copy)]
pub enum Parts {
    NotANumber,
    Infinite(bool),
    Finite(Scaled),
}

// The quotient of a division, and whether something is left.
#[derive(Clone, Copy)]
pub struct Ratio {
    pub quotient: u64,
    pub rest: bool,
}

// What a target kind finds: a sign, and an integer's magnitude or a float's abs.
#[derive(Clone, Copy)]
pub struct Found {
    pub negative: bool,
    pub number: u64,
}

// The value itself for its own kind, else the value of the other kind with the same number.
pub fn convert(v: Value, to: Kind) -> Result<Value, Refusal>
    ensures { outcome_of result ≡ convert_of v to }
{
    if value::kind_of(v) == to {
        return Ok(v);
    }
    match (v, to) {
        (Value::F16(b), Kind::F32) => half_to_f32(b),
        _ => put(parts_of(v), to),
    }
}
