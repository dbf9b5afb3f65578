// Kind numbers and bits made a record, or a shape, and a record's bits written out. RULES.md: The boundary.
ghost use Rattle.std.specs.Prelude.{◌≡◌, map, ◌≤◌, length, [], ◌∷◌};
ghost use Rattle.value.specs.Outcome.{gives, outcome_of};
ghost use Rattle.value.specs.Rules.{chain};
ghost use Rattle.record.specs.Record.{fields_of};
ghost use Rattle.silamogo.specs.Samples.{wide_rule};
ghost use Rattle.silamogo.specs.Records.{paired_samples, record_for, shape_for, field_bits};

use crate::Sample;
use crate::samples::{kind_for, too_wide, value_for};
use record::{Record, Shape};
use value::Refusal;

// Rule 4: no field has bits that its kind doesn't have.
pub(crate) fn check_widths(kinds: &[u8], bits: &[u64]) -> Result<(), Refusal>
    ensures { outcome_of result ≡ chain (wide_rule (paired_samples kinds.now bits.now) ∷ []) (gives tt) }
{
    let wide = kinds
        .iter()
        .zip(bits)
        .position(|(&kind, &bits)| too_wide(Sample { kind, bits }));
    match wide {
        Some(place) => Err(Refusal { number: 4, place }),
        None => Ok(()),
    }
}

pub(crate) fn record_for(kinds: &[u8], bits: &[u64]) -> Record
    requires { (length kinds.now ≤ 12) × (length kinds.now ≡ length bits.now) }
    ensures { result ≡ record_for (paired_samples kinds.now bits.now) }
{
    let mut made = record::blank();
    for (at, &kind) in kinds.iter().enumerate() {
        let bits = bits[at];
        made.fields[at].value = value_for(Sample { kind, bits });
    }
    made.count = kinds.len();
    made
}

pub(crate) fn shape_for(kinds: &[u8]) -> Shape
    requires { length kinds.now ≤ 12 }
    ensures { result ≡ shape_for kinds.now }
{
    let mut made = record::blank_shape();
    for (at, &number) in kinds.iter().enumerate() {
        made.places[at].kind = kind_for(number);
    }
    made.count = kinds.len();
    made
}

// The bits of each field.
pub(crate) fn put_bits(r: Record, bits: &mut [u64])
    requires { (r.count ≤ 12) × (length bits.old ≡ r.count) }
    ensures { bits.new ≡ map field_bits (fields_of r) }
{
    for (at, place) in bits.iter_mut().enumerate() {
        *place = value::bits_of(r.fields[at].value);
    }
}
