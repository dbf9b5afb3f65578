// Writing the key of a record into a lent buffer: two looking passes, for the length and for a NaN, come before the pass that writes. RULES.md: Keys.
ghost use Rattle.value.specs.Outcome.{outcome_of};
ghost use Rattle.std.specs.Prelude.{◌≡◌, ◌≤◌, length, position};
ghost use Rattle.float.specs.Number.{is_none};
ghost use Rattle.value.specs.Meaning.{exact_of};
ghost use Rattle.bytewise.specs.Numbers.{big_endian};
ghost use Rattle.key.specs.Key.{key_of, write_of, write_exit};
ghost use Rattle.key.specs.Inner.{put};

use crate::Weights;
use crate::lengths::key_length;
use crate::numbers::number_of;
use record::{Field, Record, bad_count};
use value::{Refusal, Value, bits_of, bytes_of, kind_of};

fn is_nan(v: Value) -> bool
    ensures { result ≡ is_none (exact_of v) }
{
    Weights::of(kind_of(v)).is_nan(bits_of(v))
}

fn first_nan(fields: &[Field]) -> Option<usize>
    ensures { result ≡ position (λ f. is_none (exact_of f.value)) fields.now }
{
    fields.iter().position(|f| is_nan(f.value))
}

// As many of the last bytes of n as there is room for, high byte first.
fn write_number(n: u64, bytes: &mut [u8])
    requires { length bytes.old ≤ 8 }
    ensures { bytes.new ≡ big_endian (length bytes.old) n }
{
    let skipped = 8 - bytes.len();
    bytes.copy_from_slice(&n.to_be_bytes()[skipped..]);
}

fn write_fields(fields: &[Field], buffer: &mut [u8])
    requires { length (key_of fields.now) ≤ length buffer.old }
    ensures { buffer.new ≡ put 0 (key_of fields.now) buffer.old }
{
    let mut to = 0;
    for field in fields {
        let width = bytes_of(kind_of(field.value));
        write_number(number_of(field.value), &mut buffer[to..to + width]);
        to += width;
    }
}

pub fn write(r: Record, buffer: &mut [u8]) -> Result<usize, Refusal>
    ensures answer { outcome_of result ≡ write_of r (length buffer.old) }
    ensures exit { buffer.new ≡ write_exit r buffer.old }
{
    if bad_count(r.count) {
        return Err(Refusal {
            number: 11,
            place: 0,
        });
    }
    let fields = &r.fields[..r.count];
    let n = key_length(fields);
    if buffer.len() < n {
        return Err(Refusal {
            number: 10,
            place: 0,
        });
    }
    if let Some(at) = first_nan(fields) {
        return Err(Refusal {
            number: 1,
            place: at,
        });
    }
    write_fields(fields, buffer);
    Ok(n)
}
