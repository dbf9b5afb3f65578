// The clamp of a row that the caller lends, in place: refused whole, with the lowest index deciding, or done whole
// (docs/RULES.md: Choosing and clamping).
#![tactic(auto)]

ghost use Rattle.std.specs.Prelude.{◌≡◌};
ghost use Rattle.std.specs.Float.Ieee.{is_nan};
ghost use Rattle.row.specs.Row.{rowed_outcome};
ghost use Rattle.rowclamp.specs.Clamp.{clamp_answer, clamp_exit};

use choose::Range;
use row::{Test, first_of};
use value::Refusal;

struct NotANumber;

impl Test for NotANumber {
    type Sample = f32;

    ghost test = { is_nan };

    fn passes(x: f32) -> bool {
        x.is_nan()
    }
}

pub fn clamp(row: &mut [f32], range: Range) -> Result<(), Refusal>
    ensures answer { rowed_outcome result ≡ clamp_answer range row.old }
    ensures exit { row.new ≡ clamp_exit range row.old }
{
    let Range { lower, upper } = range;
    if !(lower <= upper) {
        return Err(Refusal {
            number: 6,
            place: 0,
        });
    }
    if let Some(place) = first_of::<NotANumber>(row) {
        return Err(Refusal { number: 8, place });
    }
    for x in row.iter_mut() {
        *x = x.clamp(lower, upper);
    }
    Ok(())
}
