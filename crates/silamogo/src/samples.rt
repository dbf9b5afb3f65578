// What the rules before a call's own ask of one sample, and the value that it stands for. RULES.md: The boundary.
ghost use Rattle.std.specs.Prelude.{◌≡◌, ◌-◌, ◌^◌, [], ◌∷◌};
ghost use Rattle.value.specs.Kinds.{width_of};
ghost use Rattle.value.specs.Outcome.{outcome_of, gives};
ghost use Rattle.value.specs.Rules.{rule, chain};
ghost use Rattle.silamogo.specs.Samples as spec;
ghost use Rattle.silamogo.specs.Samples.{any_unnamed, kind_for, too_wide, value_for, any_wide, samples_rules};

use crate::Sample;
use value::{Kind, Refusal, Value};

#[tactic(auto, unfolding(crate::specs::Samples::unnamed))]
fn unnamed(number: u8) -> bool
    ensures { result ≡ spec.unnamed number }
{
    value::kind_of_number(number).is_none()
}

pub(crate) fn any_unnamed(numbers: &[u8]) -> bool
    ensures { result ≡ any_unnamed numbers.now }
{
    numbers.iter().any(|&number| unnamed(number))
}

#[tactic(auto, unfolding(crate::specs::Samples::kind_for))]
pub(crate) fn kind_for(number: u8) -> Kind
    ensures { result ≡ kind_for number }
{
    value::kind_of_number(number).unwrap_or(Kind::U8)
}

// The highest bits of a kind.
fn highest(k: Kind) -> u64
    ensures { result ≡ 2 ^ width_of k - 1 }
{
    u64::MAX >> (64 - value::width_of(k))
}

#[tactic(auto, using(crate::proofs::Widths::above_highest), unfolding(crate::specs::Samples::too_wide))]
pub(crate) fn too_wide(s: Sample) -> bool
    ensures { result ≡ too_wide s }
{
    highest(kind_for(s.kind)) < s.bits
}

fn any_wide(samples: &[Sample]) -> bool
    ensures { result ≡ any_wide samples.now }
{
    samples.iter().any(|&s| too_wide(s))
}

#[tactic(auto, unfolding(crate::specs::Samples::value_for))]
pub(crate) fn value_for(s: Sample) -> Value
    ensures { result ≡ value_for s }
{
    value::value_of(kind_for(s.kind), s.bits)
}

// A rule whose place is 0.
pub(crate) fn refuse_if(holds: bool, number: u8) -> Result<(), Refusal>
    ensures { outcome_of result ≡ chain (rule number 0 holds ∷ []) (gives tt) }
{
    if holds {
        return Err(Refusal { number, place: 0 });
    }
    Ok(())
}

// Rules 7 and 4 of a call on samples, by the numbers of kinds that it was given.
pub(crate) fn check_samples(numbers: &[u8], samples: &[Sample]) -> Result<(), Refusal>
    ensures { outcome_of result ≡ chain (samples_rules numbers.now samples.now) (gives tt) }
{
    refuse_if(any_unnamed(numbers), 7)?;
    refuse_if(any_wide(samples), 4)
}
