// A number laid into bytes, low byte first. RULES.md: Migration.
ghost use Rattle.std.specs.Prelude.{◌≡◌, ◌+◌, ◌≤◌, length};
ghost use Rattle.std.proofs.lemmas.List.Edits.{sets};
ghost use Rattle.bytewise.specs.Numbers.{little_endian};

// The last `width` bytes of n, from a place on.
pub(crate) fn store(dst: &mut [u8], to: usize, width: usize, n: u64)
    requires { (width ≤ 8) × (to + width ≤ length dst.old) }
    ensures { dst.new ≡ sets dst.old to (little_endian width n) }
{
    dst[to..to + width].copy_from_slice(&n.to_le_bytes()[..width]);
}
