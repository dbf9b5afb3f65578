// Reading a record back from its key. RULES.md: Keys.
ghost use Rattle.std.specs.Prelude.{◌≡◌, ◌^◌, ◌≤◌, ◌<◌, length};
ghost use Rattle.value.specs.Kinds.{bytes_of};
ghost use Rattle.record.specs.Record.{recorded_of};
ghost use Rattle.bytewise.specs.Numbers.{from_big_endian};
ghost use Rattle.key.specs.Key.{read_of};
ghost use Rattle.key.specs.Inner.{value_by_number};

use crate::Weights;
use crate::lengths::key_length;
use record::{Field, Recorded, Shape, bad_count, blank, refused};
use value::{Kind, Value, bytes_of, value_of};

// The number whose bytes, high byte first, these are.
fn read_number(bytes: &[u8]) -> u64
    requires { length bytes.now ≤ 8 }
    ensures { (result ≡ from_big_endian 0 bytes.now) × (result < 256 ^ length bytes.now) }
{
    let mut n = 0;
    for &byte in bytes {
        n = n * 256 + u64::from(byte);
    }
    n
}

// The value of a kind with this key, if there is one.
fn value_in(k: Kind, key: &[u8]) -> Option<Value>
    requires { length key.now ≡ bytes_of k }
    ensures { result ≡ value_by_number k (from_big_endian 0 key.now) }
{
    let weights = Weights::of(k);
    let bits = weights.bits(read_number(key));
    if weights.is_foreign(bits) {
        None
    } else {
        Some(value_of(k, bits))
    }
}

pub fn read(shape: Shape, key: &[u8]) -> Recorded
    ensures { result ≡ recorded_of (read_of shape key.now) }
{
    if bad_count(shape.count) {
        return refused(11, 0);
    }
    let places = &shape.places[..shape.count];
    if key.len() != key_length(places) {
        return refused(9, 0);
    }
    let mut made = blank();
    made.count = shape.count;
    let mut rest = key;
    for (at, place) in places.iter().enumerate() {
        let (front, back) = rest.split_at(bytes_of(place.kind));
        let Some(value) = value_in(place.kind, front) else {
            return refused(12, at);
        };
        made.fields[at] = Field { value };
        rest = back;
    }
    Recorded::from(Ok(made))
}
