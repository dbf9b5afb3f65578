// How many bytes the keys of fields have, and of a shape's places: as many as their kinds. RULES.md: Keys.
ghost use Rattle.std.specs.Prelude.{◌≡◌, ◌≤◌, length, sum_by};
ghost use Rattle.value.specs.Kinds.{bytes_of};

use record::{Field, Place};
use value::{Kind, bytes_of, kind_of};

// What has a kind.
pub(crate) trait HasKind {
    ghost use Rattle.value.specs.declared.Kind.{Kind};

    ghost kind_in: { Self → Kind };

    fn kind(&self) -> Kind
        ensures { result ≡ kind_in self.now };
}

impl HasKind for Field {
    ghost use Rattle.value.specs.Kinds.{kind_of};

    ghost kind_in = { λ f. kind_of f.value };

    fn kind(&self) -> Kind {
        kind_of(self.value)
    }
}

impl HasKind for Place {
    ghost kind_in = { λ p. p.kind };

    fn kind(&self) -> Kind {
        self.kind
    }
}

pub(crate) fn key_length<T: HasKind>(items: &[T]) -> usize
    requires { length items.now ≤ 12 }
    ensures { result ≡ sum_by (λ x. bytes_of (T.kind_in x)) items.now }
{
    items.iter().map(|x| bytes_of(x.kind())).sum()
}
