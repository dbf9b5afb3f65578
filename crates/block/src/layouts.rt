// Samples in a row, and the same samples in bytes, low byte first: plain loops, which are compiled to vector code. RULES.md: Migration.
ghost use Rattle.std.specs.Prelude.{◌≡◌, ℕ, ◌+◌, ◌*◌, ◌≤◌, Bool, false, map, length, take, drop, from_bits, is_nan, refl};
ghost use Rattle.std.proofs.lemmas.List.Edits.{sets};
ghost use Rattle.std.specs.Float.{binary32};
ghost use Rattle.value.specs.declared.Kind.{Kind};
ghost use Rattle.value.specs.declared.Kind.TheVariants as kind;
ghost use Rattle.value.specs.Kinds.{bytes_of};
ghost use Rattle.bytewise.specs.Numbers.{from_little_endian};
ghost use Rattle.row.specs.Row.{any};
ghost use Rattle.sample.specs.Samples.{numbers_in};
ghost use Rattle.block.specs.Output.{bytes_for};
ghost use Rattle.block.specs.Inner.{plain_bits};

use crate::bytes::store;

// A sample that a row has a place for. Its bits are asked only where it is no NaN.
pub(crate) trait Sample: Copy + Drop + Default {
    const WIDTH: usize;

    ghost WIDTH: { ℕ };

    ghost kind: { Kind };

    ghost of_bits: { ℕ → Self };

    ghost bits: { Self → ℕ };

    ghost is_none: { Self → Bool };

    // The sample at an index.
    fn at(src: &[u8], i: usize) -> Self
        requires { WIDTH * i + WIDTH ≤ length src.now }
        ensures { result ≡ of_bits (from_little_endian (take WIDTH (drop (i * WIDTH) src.now))) };

    fn bits(self) -> u64
        requires { is_none self ≡ false }
        ensures { result ≡ bits self };

    ghost of_kind: { WIDTH ≡ bytes_of kind };
}

impl Sample for u8 {
    const WIDTH: usize = 1;

    ghost WIDTH = { 1 };

    ghost kind = { kind.U8 };

    ghost of_bits = { λ n. n };

    ghost bits = { λ n. n };

    ghost is_none = { λ _. false };

    fn at(src: &[u8], i: usize) -> u8 {
        src[i]
    }

    fn bits(self) -> u64 {
        u64::from(self)
    }

    ghost of_kind = { refl };
}

impl Sample for u16 {
    const WIDTH: usize = 2;

    ghost WIDTH = { 2 };

    ghost kind = { kind.U16 };

    ghost of_bits = { λ n. n };

    ghost bits = { λ n. n };

    ghost is_none = { λ _. false };

    fn at(src: &[u8], i: usize) -> u16 {
        let (places, _) = src.as_chunks::<2>();
        u16::from_le_bytes(places[i])
    }

    fn bits(self) -> u64 {
        u64::from(self)
    }

    ghost of_kind = { refl };
}

impl Sample for f32 {
    const WIDTH: usize = 4;

    ghost WIDTH = { 4 };

    ghost kind = { kind.F32 };

    ghost of_bits = { from_bits binary32 };

    ghost bits = { plain_bits };

    ghost is_none = { is_nan };

    fn at(src: &[u8], i: usize) -> f32 {
        let (places, _) = src.as_chunks::<4>();
        float_of(u32::from_le_bytes(places[i]))
    }

    fn bits(self) -> u64 {
        u64::from(self.to_bits())
    }

    ghost of_kind = { refl };
}

// A NaN of any pattern is the language's one NaN.
fn float_of(bits: u32) -> f32
    ensures { result ≡ from_bits binary32 bits }
{
    if float::is_nan(bits) {
        f32::NAN
    } else {
        f32::from_bits(bits)
    }
}

// The first samples of src, as many as the row has places.
pub(crate) fn load<T: Sample>(src: &[u8], row: &mut [T])
    requires { T.WIDTH * length row.old ≤ length src.now }
    ensures { row.new ≡ map T.of_bits (numbers_in T.WIDTH (length row.old) src.now) }
{
    for i in 0..row.len() {
        row[i] = T::at(src, i);
    }
}

// The row's samples, none of which is a NaN, from a place on.
pub(crate) fn store_row<T: Sample>(row: &[T], dst: &mut [u8], at: usize)
    requires { (any T.is_none row.now ≡ false) × (at + T.WIDTH * length row.now ≤ length dst.old) }
    ensures { dst.new ≡ sets dst.old at (bytes_for T.kind (map T.bits row.now)) }
{
    for (i, x) in row.iter().enumerate() {
        store(dst, at + T::WIDTH * i, T::WIDTH, x.bits());
    }
}
