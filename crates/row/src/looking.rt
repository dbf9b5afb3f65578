// Looking through a row before anything is written: the first sample that passes a test. RULES.md: Rows.
ghost use Rattle.std.specs.Prelude.{◌≡◌, Bool, position};
ghost use Rattle.std.specs.List.{list_any};

// A test of one sample.
pub trait Test {
    type Sample: Copy;

    ghost test: { Self.Sample → Bool };

    fn passes(x: Self::Sample) -> bool
        ensures { result ≡ test x };
}

// Whether a sample passes. Every one is looked at: `any`, which stops at the first, isn't compiled to vector code.
fn has<T: Test>(part: &[T::Sample]) -> bool
    ensures { result ≡ list_any T.test part.now }
{
    let mut found = false;
    for x in part {
        found |= T::passes(*x);
    }
    found
}

// The index of the first sample that passes, one after the other.
fn first_in<T: Test>(part: &[T::Sample]) -> Option<usize>
    ensures { result ≡ position T.test part.now }
{
    part.iter().position(|x| T::passes(*x))
}

// The index of the first sample that passes: by blocks, and only the block that has one is looked into.
pub fn first_of<T: Test>(row: &[T::Sample]) -> Option<usize>
    ensures { result ≡ position T.test row.now }
{
    let mut passed = 0;
    let mut rest = row;
    while let Some((block, behind)) = rest.split_at_checked(256) {
        if has::<T>(block) {
            break;
        }
        passed += 256;
        rest = behind;
    }
    Some(passed + first_in::<T>(rest)?)
}
