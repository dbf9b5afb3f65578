// Single samples: compared, chosen, clamped, converted. RULES.md: The boundary.
ghost use Rattle.std.specs.Prelude.{◌≡◌};
ghost use Rattle.value.specs.Outcome.{gives, outcome_of};
ghost use Rattle.value.specs.Rules.{chain};
ghost use Rattle.silamogo.specs.Answer.{ordered_of, sampled_of};
ghost use Rattle.silamogo.specs.Samples.{value_for};
ghost use Rattle.silamogo.specs.Single.{two_rules, compare_of, total_of, min_of, max_of, clamp_of, convert_of};

use crate::samples::{check_samples, kind_for, value_for};
use crate::{Ordered, Sample, Sampled};
use value::{Refusal, Value};

// The values of two samples.
fn two_values(a: Sample, b: Sample) -> Result<(Value, Value), Refusal>
    ensures { outcome_of result ≡ chain (two_rules a b) (gives (value_for a, value_for b)) }
{
    check_samples(&[a.kind, b.kind], &[a, b])?;
    Ok((value_for(a), value_for(b)))
}

#[tactic(auto, unfolding(crate::specs::Single::compare_of))]
#[unsafe(no_mangle)]
pub extern "C" fn silamogo_compare(a: Sample, b: Sample) -> Ordered
    ensures { result ≡ ordered_of (compare_of a b) }
{
    Ordered::from(two_values(a, b).and_then(|(v, w)| cmp::compare(v, w)))
}

#[tactic(auto, unfolding(crate::specs::Single::total_of))]
#[unsafe(no_mangle)]
pub extern "C" fn silamogo_total_order(a: Sample, b: Sample) -> Ordered
    ensures { result ≡ ordered_of (total_of a b) }
{
    Ordered::from(two_values(a, b).and_then(|(v, w)| cmp::total_order(v, w)))
}

#[tactic(auto, unfolding(crate::specs::Single::min_of))]
#[unsafe(no_mangle)]
pub extern "C" fn silamogo_min(a: Sample, b: Sample) -> Sampled
    ensures { result ≡ sampled_of (min_of a b) }
{
    Sampled::from(two_values(a, b).and_then(|(v, w)| choose::min(v, w)))
}

#[tactic(auto, unfolding(crate::specs::Single::max_of))]
#[unsafe(no_mangle)]
pub extern "C" fn silamogo_max(a: Sample, b: Sample) -> Sampled
    ensures { result ≡ sampled_of (max_of a b) }
{
    Sampled::from(two_values(a, b).and_then(|(v, w)| choose::max(v, w)))
}

#[tactic(auto, unfolding(crate::specs::Single::clamp_of))]
fn clamped(v: Sample, lower: Sample, upper: Sample) -> Result<Value, Refusal>
    ensures { outcome_of result ≡ clamp_of v lower upper }
{
    check_samples(&[v.kind, lower.kind, upper.kind], &[v, lower, upper])?;
    choose::clamp(value_for(v), value_for(lower), value_for(upper))
}

#[unsafe(no_mangle)]
pub extern "C" fn silamogo_clamp(v: Sample, lower: Sample, upper: Sample) -> Sampled
    ensures { result ≡ sampled_of (clamp_of v lower upper) }
{
    Sampled::from(clamped(v, lower, upper))
}

#[tactic(auto, unfolding(crate::specs::Single::convert_of))]
fn converted(v: Sample, to: u8) -> Result<Value, Refusal>
    ensures { outcome_of result ≡ convert_of v to }
{
    check_samples(&[v.kind, to], &[v])?;
    convert::convert(value_for(v), kind_for(to))
}

#[unsafe(no_mangle)]
pub extern "C" fn silamogo_convert(v: Sample, to: u8) -> Sampled
    ensures { result ≡ sampled_of (convert_of v to) }
{
    Sampled::from(converted(v, to))
}
