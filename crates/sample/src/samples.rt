// The samples in bytes, and whether the conversion of one is refused, and with which number. RULES.md: Migration, Exact conversion.
ghost use Rattle.std.specs.Prelude.{◌≡◌};
ghost use Rattle.sample.specs.Samples.{count_of, sample_at};
ghost use Rattle.sample.specs.Refusals.{bits_to, is_refused, refusal_number};

use crate::bytes::load;
use convert::convert;
use value::{Kind, Value, bytes_of, value_of};

// How many whole samples there are.
pub fn count(k: Kind, src: &[u8]) -> usize
    ensures { result ≡ count_of k src.now }
{
    src.len() / bytes_of(k)
}

// The sample at an index; behind the last one, the kind's value of the bits 0.
#[inline]
pub fn sample_at(k: Kind, src: &[u8], i: usize) -> Value
    ensures { result ≡ sample_at k src.now i }
{
    if i >= count(k, src) {
        return value_of(k, 0);
    }
    let width = bytes_of(k);
    let from = i * width;
    value_of(k, load(&src[from..from + width]))
}

// Whether the conversion of a sample is refused.
#[tactic(auto, using(crate::proofs::Refusals::refused_told))]
pub fn is_refused(v: Value, to: Kind) -> bool
    ensures { result ≡ is_refused (bits_to to v) }
{
    convert(v, to).is_err()
}

// The number of the refusal; 0 for none, as the definition `refusal_number` has it.
#[tactic(auto, using(crate::proofs::Refusals::sample_given, crate::proofs::Refusals::sample_refused))]
pub fn number_of(v: Value, to: Kind) -> u8
    ensures { result ≡ refusal_number (bits_to to v) }
{
    match convert(v, to) {
        Ok(_) => 0,
        Err(f) => f.number,
    }
}
