// The conversion of a row into a second row, over any conversion of one sample. RULES.md: Rows.
ghost use Rattle.std.specs.Prelude.{◌≡◌, true, false};
ghost use Rattle.value.specs.Outcome.{Outcome, gives, refuses};
ghost use Rattle.row.specs.Row.{rowed_outcome};
ghost use Rattle.row.specs.Convert.{convert_answer, convert_exit};
ghost use Rattle.row.specs.Inner.{is_refused};

use crate::looking::{Test, first_of};
use std::marker::PhantomData;
use value::Refusal;

// The conversion of one sample, which may be refused.
pub(crate) trait Conversion {
    type From: Copy;

    type To: Copy;

    ghost conversion: { Self.From → Outcome Self.To };

    fn is_refused(x: Self::From) -> bool
        ensures { result ≡ is_refused (conversion x) };

    // The number of the refusal.
    fn number(x: Self::From) -> u8
        requires { is_refused (conversion x) ≡ true }
        ensures { conversion x ≡ refuses result 0 };

    fn converted(x: Self::From) -> Self::To
        requires { is_refused (conversion x) ≡ false }
        ensures { conversion x ≡ gives result };
}

// The test that a refused sample passes.
struct Refused<C>(PhantomData<C>);

impl<C: Conversion> Test for Refused<C> {
    type Sample = C::From;

    ghost test = { λ x. is_refused (C.conversion x) };

    fn passes(x: C::From) -> bool {
        C::is_refused(x)
    }
}

#[tactic(auto, using(crate::proofs::Scan::found_passes, crate::proofs::Scan::none_passes))]
pub(crate) fn convert<C: Conversion>(src: &[C::From], dst: &mut [C::To]) -> Result<(), Refusal>
    ensures answer { rowed_outcome result ≡ convert_answer C.conversion src.now dst.old }
    ensures exit { dst.new ≡ convert_exit C.conversion src.now dst.old }
{
    if src.len() != dst.len() {
        return Err(Refusal {
            number: 9,
            place: 0,
        });
    }
    if let Some(place) = first_of::<Refused<C>>(src) {
        return Err(Refusal {
            number: C::number(src[place]),
            place,
        });
    }
    for i in 0..src.len() {
        dst[i] = C::converted(src[i]);
    }
    Ok(())
}
