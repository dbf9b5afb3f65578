// Patterns of the float kinds: their class, their position. RULES.md: The boundary.
ghost use Rattle.std.specs.Prelude.{◌≡◌};
ghost use Rattle.value.specs.Outcome.{gives, outcome_of};
ghost use Rattle.value.specs.Rules.{chain};
ghost use Rattle.silamogo.specs.Answer.{classed_of, positioned_of};
ghost use Rattle.silamogo.specs.Inner.{pattern_in};
ghost use Rattle.silamogo.specs.Single.{float_rules, of_float, classify_of, sample_position};

use crate::{Classed, Positioned, Sample};
use float::Class;
use value::{Kind, Refusal};

// The bits of a float kind, in its width.
#[derive(Clone, Copy)]
pub(crate) enum FloatBits {
    F16(u16),
    F32(u32),
    F64(u64),
}

// Rule 7 for a kind that is no float, and 4.
#[tactic(auto, unfolding(crate::specs::Samples::any_wide, crate::specs::Samples::too_wide, crate::specs::Samples::kind_for))]
fn pattern_of(s: Sample) -> Result<FloatBits, Refusal>
    ensures { outcome_of result ≡ chain (float_rules s) (gives (of_float pattern_in s)) }
{
    let wide = Refusal {
        number: 4,
        place: 0,
    };
    match value::kind_of_number(s.kind) {
        Some(Kind::F16) => u16::try_from(s.bits).map(FloatBits::F16).map_err(|_| wide),
        Some(Kind::F32) => u32::try_from(s.bits).map(FloatBits::F32).map_err(|_| wide),
        Some(Kind::F64) => Ok(FloatBits::F64(s.bits)),
        _ => Err(Refusal {
            number: 7,
            place: 0,
        }),
    }
}

#[tactic(auto, unfolding(crate::specs::Single::classify_of))]
fn classified(s: Sample) -> Result<Class, Refusal>
    ensures { outcome_of result ≡ classify_of s }
{
    Ok(match pattern_of(s)? {
        FloatBits::F16(bits) => float::classify(bits),
        FloatBits::F32(bits) => float::classify(bits),
        FloatBits::F64(bits) => float::classify(bits),
    })
}

#[unsafe(no_mangle)]
pub extern "C" fn silamogo_classify(s: Sample) -> Classed
    ensures { result ≡ classed_of (classify_of s) }
{
    Classed::from(classified(s))
}

#[tactic(auto, unfolding(crate::specs::Single::sample_position))]
fn positioned(s: Sample) -> Result<i64, Refusal>
    ensures { outcome_of result ≡ sample_position s }
{
    Ok(match pattern_of(s)? {
        FloatBits::F16(bits) => i64::from(float::position(bits)),
        FloatBits::F32(bits) => i64::from(float::position(bits)),
        FloatBits::F64(bits) => float::position(bits),
    })
}

#[unsafe(no_mangle)]
pub extern "C" fn silamogo_position(s: Sample) -> Positioned
    ensures { result ≡ positioned_of (sample_position s) }
{
    Positioned::from(positioned(s))
}
