// What has to hold before two records are compared: good counts, and one shape. RULES.md: Records.
ghost use Rattle.std.specs.Prelude.{◌≡◌, ◌||◌};
ghost use Rattle.std.specs.List.{list_any, zip};
ghost use Rattle.cmp.specs.Compare.{kinds_differ};
ghost use Rattle.record.specs.Record.{bad_count};
ghost use Rattle.lexical.specs.Lexical.{shapes_differ};

use record::{Field, bad_count};
use value::kind_of;

// Rule 11.
pub(crate) fn bad_counts(n: usize, m: usize) -> bool
    ensures { result ≡ (bad_count n || bad_count m) }
{
    bad_count(n) || bad_count(m)
}

fn kinds_differ(x: &Field, y: &Field) -> bool
    ensures { result ≡ kinds_differ x.now.value y.now.value }
{
    kind_of(x.value) != kind_of(y.value)
}

fn some_kind_differs(xs: &[Field], ys: &[Field]) -> bool
    ensures { result ≡ list_any (λ p. kinds_differ p.0.value p.1.value) (zip xs.now ys.now) }
{
    xs.iter().zip(ys).any(|(x, y)| kinds_differ(x, y))
}

// Rule 7.
pub(crate) fn shapes_differ(xs: &[Field], ys: &[Field]) -> bool
    ensures { result ≡ shapes_differ xs.now ys.now }
{
    xs.len() != ys.len() || some_kind_differs(xs, ys)
}
