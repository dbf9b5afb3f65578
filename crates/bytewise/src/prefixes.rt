// The choice between two lent rows of bytes by their first k bytes. RULES.md: Choice between lent rows.
ghost use Rattle.std.specs.Prelude.{◌≡◌, take};
ghost use Rattle.bytewise.specs.Prefix.{min_row, max_row};

// The key of a row: its first k bytes, or all of them where there are fewer. Of keys that differ in no byte the shorter is lower.
fn key(x: &[u8], k: usize) -> &[u8]
    ensures { result.now ≡ take k x.now }
{
    &x[..k.min(x.len())]
}

#[tactic(auto, using(crate::proofs::LowerKey::lower_is))]
pub fn min_by_prefix<'a>(a: &'a [u8], b: &'a [u8], k: usize) -> &'a [u8]
    ensures { result ≡ min_row k a.entry b.entry }
{
    if key(b, k) < key(a, k) { b } else { a }
}

#[tactic(auto, using(crate::proofs::LowerKey::lower_is))]
pub fn max_by_prefix<'a>(a: &'a [u8], b: &'a [u8], k: usize) -> &'a [u8]
    ensures { result ≡ max_row k a.entry b.entry }
{
    if key(b, k) < key(a, k) { a } else { b }
}
