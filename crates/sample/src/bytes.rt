// A number in bytes, low byte first. RULES.md: Migration.
ghost use Rattle.std.specs.Prelude.{◌≡◌, ◌≤◌, length};
ghost use Rattle.bytewise.specs.Numbers.{from_little_endian};

// The number that at most eight bytes make; the high byte is taken first.
pub(crate) fn load(bytes: &[u8]) -> u64
    requires { length bytes.now ≤ 8 }
    ensures { result ≡ from_little_endian bytes.now }
{
    let mut n = 0;
    for x in bytes.iter().rev() {
        n = n * 256 + *x as u64;
    }
    n
}
