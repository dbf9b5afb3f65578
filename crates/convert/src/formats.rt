// The float formats in numbers. RULES.md: The kinds.
ghost use Rattle.std.specs.Prelude.{◌≡◌, ◌+◌, ◌*◌, ◌^◌, ◌≤◌};

// How many bits the fraction has, the smallest step as 2^step units of 2^-1074, and the highest exponent, counted from the smallest.
#[derive(Clone, Copy)]
pub struct FloatFormat {
    pub fraction: u16,
    pub step: u16,
    pub last: u16,
    ghost narrow: { fraction ≤ 52 },
    ghost fine: { step ≤ 1074 },
    ghost low: { last ≤ 2045 },
}

impl FloatFormat {
    // The abs of the infinity.
    pub(crate) fn infinity(self) -> u64
        ensures { result ≡ (self.last + 2) * 2 ^ self.fraction }
    {
        (self.last as u64 + 2) << self.fraction
    }

    // The bit above the fraction, which a pattern doesn't hold.
    pub(crate) fn hidden(self) -> u64
        ensures { result ≡ 2 ^ self.fraction }
    {
        1 << self.fraction
    }
}

pub(crate) const F16: FloatFormat = FloatFormat {
    fraction: 10,
    step: 1050,
    last: 29,
};

pub(crate) const F32: FloatFormat = FloatFormat {
    fraction: 23,
    step: 925,
    last: 253,
};

pub(crate) const F64: FloatFormat = FloatFormat {
    fraction: 52,
    step: 0,
    last: 2045,
};
