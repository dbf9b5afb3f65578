// The whole numbers of the machine, and their order. RULES.md: Comparison.
ghost use Rattle.std.specs.Prelude.{◌≡◌, ℤ, pos};
ghost use Rattle.std.specs.Int.Signed.{lt_z};
ghost use Rattle.std.specs.Ordering.{partial_lt};
ghost use Rattle.float.specs.Inner.{natural_less, integer_less};

// A whole number of the machine.
pub trait Integer: Copy + PartialOrd {
    // The integer that it is.
    ghost integer: { Self → ℤ };

    ghost less: { (m n : Self) → partial_lt Self.partial_cmp m n ≡ lt_z (integer m) (integer n) };
}

impl Integer for u8 {
    ghost integer = { pos };

    ghost less = { natural_less };
}

impl Integer for u16 {
    ghost integer = { pos };

    ghost less = { natural_less };
}

impl Integer for u32 {
    ghost integer = { pos };

    ghost less = { natural_less };
}

impl Integer for u64 {
    ghost integer = { pos };

    ghost less = { natural_less };
}

impl Integer for i8 {
    ghost integer = { λ z. z };

    ghost less = { integer_less };
}

impl Integer for i16 {
    ghost integer = { λ z. z };

    ghost less = { integer_less };
}

impl Integer for i32 {
    ghost integer = { λ z. z };

    ghost less = { integer_less };
}

impl Integer for i64 {
    ghost integer = { λ z. z };

    ghost less = { integer_less };
}
