// The patterns of the three formats: u16 of f16, u32 of f32, u64 of f64. RULES.md: Bits and classes, Total order.
// A position's negation can't overflow: x is below the sign bit's weight, and -x - 1 reaches the lowest number of the width exactly.
ghost use Rattle.std.specs.Prelude.{◌≡◌, ◌-◌, ◌≤◌, ◌^◌, ℕ, eqb, ltb, refl};
ghost use Rattle.std.specs.Ordering.{partial_lt};
ghost use Rattle.float.specs.Format.{Format, f16, f32, f64, fraction_of, sign_in, inf_in, position_in};
ghost use Rattle.float.specs.Inner.{natural_less};

use crate::Integer;
use std::ops::Sub;

// A pattern of a float format, as a number of its width.
pub trait Pattern: Copy + PartialOrd + Sub<Output = Self> {
    // The signed numbers of its width.
    type Position: Integer;

    // Its format, and the whole number that it is.
    ghost format: { Format };

    ghost whole: { Self → ℕ };

    // Plus zero, the smallest normal number, plus infinity, and the sign bit alone.
    const ZERO: Self;

    const NORMAL: Self;

    const INFINITY: Self;

    const SIGN: Self;

    ghost ZERO: { Self };

    ghost NORMAL: { Self };

    ghost INFINITY: { Self };

    ghost SIGN: { Self };

    // Its place in the total order. A body for each width: casts, `%` and `-` of any width would be six laws in place of three lines.
    fn position(self) -> Self::Position
        ensures { Self.Position.integer result ≡ position_in format (whole self) };

    ghost constants: { (whole ZERO ≡ 0) × (whole NORMAL ≡ 2 ^ fraction_of format) × (whole INFINITY ≡ inf_in format) × (whole SIGN ≡ sign_in format) };

    // Patterns compare and are subtracted as their numbers are.
    ghost less: { (a b : Self) → partial_lt Self.partial_cmp a b ≡ ltb (whole a) (whole b) };

    ghost same: { (a b : Self) → Self.eq a b ≡ eqb (whole a) (whole b) };

    ghost subtractable: { (a b : Self) → whole b ≤ whole a → Self.can_sub a b };

    ghost subtracted: { (a b c : Self) → Self.sub_gives a b c → whole c ≡ whole a - whole b };
}

impl Pattern for u16 {
    type Position = i16;

    ghost format = { f16 };

    ghost whole = { λ b. b };

    const ZERO: u16 = 0;

    const NORMAL: u16 = 0x0400;

    const INFINITY: u16 = 0x7c00;

    const SIGN: u16 = 0x8000;

    ghost ZERO = { 0 };

    ghost NORMAL = { 0x0400 };

    ghost INFINITY = { 0x7c00 };

    ghost SIGN = { 0x8000 };

    #[tactic(auto, using(crate::proofs::Place::clear_f16, crate::proofs::Place::set_f16))]
    fn position(self) -> i16 {
        let x = (self % 0x8000) as i16;
        if self < 0x8000 { x } else { -x - 1 }
    }

    ghost constants = { (refl, refl, refl, refl) };

    ghost less = { natural_less };

    ghost same = { λ a b. refl };

    ghost subtractable = { λ a b h. h };

    ghost subtracted = { λ a b c h. h };
}

impl Pattern for u32 {
    type Position = i32;

    ghost format = { f32 };

    ghost whole = { λ b. b };

    const ZERO: u32 = 0;

    const NORMAL: u32 = 0x0080_0000;

    const INFINITY: u32 = 0x7f80_0000;

    const SIGN: u32 = 0x8000_0000;

    ghost ZERO = { 0 };

    ghost NORMAL = { 0x0080_0000 };

    ghost INFINITY = { 0x7f80_0000 };

    ghost SIGN = { 0x8000_0000 };

    #[tactic(auto, using(crate::proofs::Place::clear_f32, crate::proofs::Place::set_f32))]
    fn position(self) -> i32 {
        let x = (self % 0x8000_0000) as i32;
        if self < 0x8000_0000 { x } else { -x - 1 }
    }

    ghost constants = { (refl, refl, refl, refl) };

    ghost less = { natural_less };

    ghost same = { λ a b. refl };

    ghost subtractable = { λ a b h. h };

    ghost subtracted = { λ a b c h. h };
}

impl Pattern for u64 {
    type Position = i64;

    ghost format = { f64 };

    ghost whole = { λ b. b };

    const ZERO: u64 = 0;

    const NORMAL: u64 = 0x0010_0000_0000_0000;

    const INFINITY: u64 = 0x7ff0_0000_0000_0000;

    const SIGN: u64 = 0x8000_0000_0000_0000;

    ghost ZERO = { 0 };

    ghost NORMAL = { 0x0010_0000_0000_0000 };

    ghost INFINITY = { 0x7ff0_0000_0000_0000 };

    ghost SIGN = { 0x8000_0000_0000_0000 };

    #[tactic(auto, using(crate::proofs::Place::clear_f64, crate::proofs::Place::set_f64))]
    fn position(self) -> i64 {
        let x = (self % 0x8000_0000_0000_0000) as i64;
        if self < 0x8000_0000_0000_0000 {
            x
        } else {
            -x - 1
        }
    }

    ghost constants = { (refl, refl, refl, refl) };

    ghost less = { natural_less };

    ghost same = { λ a b. refl };

    ghost subtractable = { λ a b h. h };

    ghost subtracted = { λ a b c h. h };
}
