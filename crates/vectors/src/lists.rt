// Lists as text, joined by commas, and `-` where they are empty; and numbers of things.
ghost use Rattle.std.specs.Prelude.{◌≤◌, ◌<◌, ℕ, IfSome};

use text::decimal_number;

// Hands each item of a list, behind its place, to `put`: how many there are. A list of more than `most` is malformed.
pub(crate) fn items_in<F: FnMut(usize, &[u8]) -> Option<()>>(
    s: &[u8],
    most: usize,
    mut put: F,
) -> Option<usize>
    requires { (state : F) (at : ℕ) (item : _) → at < most → F.pre state at item }
    ensures { IfSome result (λ n. n ≤ most) }
{
    if matches!(s, b"-") {
        return Some(0);
    }
    let mut items = s.split(|b| *b == b',');
    for at in 0..most {
        let Some(item) = items.next() else {
            return Some(at);
        };
        put(at, item)?;
    }
    if items.next().is_none() {
        Some(most)
    } else {
        None
    }
}

// A decimal number that is at most `most`.
pub(crate) fn count_in(most: usize, s: &[u8]) -> Option<usize>
    ensures { IfSome result (λ n. n ≤ most) }
{
    let n = decimal_number(s)? as usize;
    if n <= most { Some(n) } else { None }
}
