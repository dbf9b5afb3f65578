// Digits, with the hex ones in lower case, and the numbers that they spell in base 16 and in base 10.
ghost use Rattle.std.specs.Prelude.{◌≡◌, ◌+◌, ◌*◌, ◌^◌, ◌<◌, SomeIff};
ghost use Rattle.text.specs.Digits.{digit_of, digit_in, char_of, number_from, hex_of, decimal_of};

#[tactic(auto, using(crate::proofs::Numbers::digit_decimal, crate::proofs::Numbers::digit_letter, crate::proofs::Numbers::no_digit))]
pub fn hex_digit(b: u8) -> Option<u8>
    ensures { result ≡ digit_of b }
{
    match b {
        b'0'..=b'9' => Some(b - b'0'),
        b'a'..=b'f' => Some(b - b'a' + 10),
        _ => None,
    }
}

// The digit of n, of which only the last four bits count.
pub fn hex_char(n: u8) -> u8
    ensures { result ≡ char_of n }
{
    let d = n % 16;
    if d < 10 { b'0' + d } else { b'a' + (d - 10) }
}

// The digits of a base are the hex digits below it.
fn digit_in(base: u8, b: u8) -> Option<u8>
    ensures { result ≡ digit_in base b }
{
    hex_digit(b).filter(|d| *d < base)
}

// n with one digit more behind it, where that is below 2^64.
fn append_digit(base: u8, n: u64, d: u8) -> Option<u64>
    ensures { SomeIff result (n * base + d < 2 ^ 64) (n * base + d) }
{
    n.checked_mul(base as u64)?.checked_add(d as u64)
}

// All of s, the high digit first. A number of 2^64 or more is malformed.
fn number_in(base: u8, s: &[u8]) -> Option<u64>
    ensures { result ≡ number_from base s.now 0 }
{
    let mut n = 0;
    for b in s {
        n = append_digit(base, n, digit_in(base, *b)?)?;
    }
    Some(n)
}

// 1 to 16 digits.
#[tactic(auto, using(crate::proofs::Numbers::hex_counted, crate::proofs::Numbers::hex_empty, crate::proofs::Numbers::hex_long))]
pub fn hex_number(s: &[u8]) -> Option<u64>
    ensures { result ≡ hex_of s.now }
{
    match s.len() {
        1..=16 => number_in(16, s),
        _ => None,
    }
}

// One digit or more, and no zero stands before other digits.
#[tactic(auto, using(crate::proofs::Numbers::decimal_empty, crate::proofs::Numbers::decimal_padded, crate::proofs::Numbers::decimal_rest))]
pub fn decimal_number(s: &[u8]) -> Option<u64>
    ensures { result ≡ decimal_of s.now }
{
    match s {
        [] | [b'0', _, ..] => None,
        _ => number_in(10, s),
    }
}
