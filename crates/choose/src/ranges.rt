// A range of samples: two f32 bounds by value. RULES.md: Choosing and clamping.
// The language's own comparison of floats is the comparison of their bits (float/proofs/Operators).
ghost use Rattle.value.specs.Outcome.{outcome_of};
ghost use Rattle.std.specs.Prelude.{◌≡◌};
ghost use Rattle.choose.specs.Choose.{default_range, range_of, sample_of};

use crate::{BAD_BOUNDS, Range, UNORDERED};
use value::Refusal;

// What 16-bit greys span.
impl Default for Range {
    ghost is_default = { λ range. range ≡ default_range };

    fn default() -> Range
        ensures { result ≡ default_range }
    {
        Range {
            lower: 0.0,
            upper: 65535.0,
        }
    }
}

impl Range {
    pub fn new(lower: f32, upper: f32) -> Result<Range, Refusal>
        ensures { outcome_of result ≡ range_of lower upper }
    {
        if lower <= upper {
            Ok(Range { lower, upper })
        } else {
            Err(BAD_BOUNDS)
        }
    }

    pub fn with_lower(self, x: f32) -> Result<Range, Refusal>
        ensures { outcome_of result ≡ range_of x self.upper }
    {
        Range::new(x, self.upper)
    }

    pub fn with_upper(self, x: f32) -> Result<Range, Refusal>
        ensures { outcome_of result ≡ range_of self.lower x }
    {
        Range::new(self.lower, x)
    }

    pub fn clamp(self, x: f32) -> Result<f32, Refusal>
        ensures { outcome_of result ≡ sample_of self x }
    {
        if self.lower <= self.upper {
            if x.is_nan() {
                Err(UNORDERED)
            } else {
                Ok(x.clamp(self.lower, self.upper))
            }
        } else {
            Err(BAD_BOUNDS)
        }
    }
}
