// The samples of a block: those that are taken, and the bits of each.
ghost use Rattle.std.specs.Prelude.{◌≡◌, ◌-◌, ◌≤◌, length};
ghost use Rattle.bytewise.specs.Numbers.{from_little_endian};
ghost use Rattle.strip.specs.Sheet.{most, taken_in};
ghost use Rattle.strip.specs.Inner.{all_bits};

use crate::MOST;

// The bits of a sample, low byte first.
pub(crate) fn bits_of(sample: &[u8; 4]) -> u32
    ensures { result ≡ from_little_endian sample.now }
{
    u32::from_le_bytes(*sample)
}

// The samples of a block that are taken, behind those before.
pub(crate) fn taken(before: u64, src: &[u8]) -> &[[u8; 4]]
    ensures samples { all_bits result.now ≡ taken_in before src.now }
    ensures few { length result.now ≤ most - before }
{
    let (samples, _) = src.as_chunks::<4>();
    let room = MOST.saturating_sub(before) as usize;
    &samples[..samples.len().min(room)]
}
