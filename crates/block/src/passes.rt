// The samples of a block, one after the other: a pass that only looks, then a pass that writes. RULES.md: Migration.
ghost use Rattle.std.specs.Prelude.{◌≡◌, ◌*◌, ◌≤◌, map, length};
ghost use Rattle.std.proofs.lemmas.List.Edits.{sets};
ghost use Rattle.row.specs.Row.{rowed_outcome};
ghost use Rattle.value.specs.Kinds.{bytes_of};
ghost use Rattle.sample.specs.Samples.{count_of, samples_of};
ghost use Rattle.sample.specs.Refusals.{bits_to};
ghost use Rattle.block.specs.Output.{bytes_for};
ghost use Rattle.block.specs.Migrate.{block_answer};
ghost use Rattle.block.specs.Inner.{given_bits, moved_bits};

use crate::bytes::store;
use convert::convert;
use sample::{count, sample_at};
use value::{Kind, Refusal, Value, bits_of, bytes_of};

// The first sample that is refused, by its index.
pub(crate) fn check_samples(from: Kind, to: Kind, src: &[u8]) -> Result<(), Refusal>
    ensures { rowed_outcome result ≡ block_answer from to src.now }
{
    let n = count(from, src);
    for i in 0..n {
        if let Err(f) = convert(sample_at(from, src, i), to) {
            return Err(Refusal { place: i, ..f });
        }
    }
    Ok(())
}

// The bits of a sample's conversion; 0 where it is refused.
fn bits_to(v: Value, to: Kind) -> u64
    ensures { result ≡ given_bits (bits_to to v) }
{
    convert(v, to).map_or(0, |w| bits_of(w))
}

// Lays the conversions of the samples into dst.
pub(crate) fn write_samples(from: Kind, to: Kind, src: &[u8], dst: &mut [u8])
    requires { count_of from src.now * bytes_of to ≤ length dst.old }
    ensures { dst.new ≡ sets dst.old 0 (bytes_for to (map (moved_bits to) (samples_of from src.now))) }
{
    let n = count(from, src);
    let width = bytes_of(to);
    for at in 0..n {
        store(
            dst,
            at * width,
            width,
            bits_to(sample_at(from, src, at), to),
        );
    }
}
