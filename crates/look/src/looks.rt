// What a report says of samples, noted one by one: nothing is written. The two kinds stay apart, as every definition takes them apart. RULES.md: Report.
ghost use Rattle.value.specs.Outcome.{Outcome, mapped, outcome_of};
ghost use Rattle.std.specs.Prelude.{◌≡◌, Bool};
ghost use Rattle.value.specs.declared.Value.{Value};
ghost use Rattle.value.specs.Meaning.{bits_of};
ghost use Rattle.sample.specs.Samples.{samples_of};
ghost use Rattle.look.specs.Report.{unlike_itself, infinite, minus_zero, better_of, count_if, first_of, noted_of, all_noted};
ghost use Rattle.look.specs.Report.{left_noted, look_of};

use crate::Seen;
use cmp::{gt, lt, ne};
use convert::convert;
use sample::{count, sample_at};
use value::{Kind, Refusal, Value, bits_f32, bits_f64, bytes_of};

fn is_nan(v: Value) -> bool
    ensures { result ≡ unlike_itself v }
{
    ne(v, v).unwrap_or(false)
}

fn is_infinite(v: Value) -> bool
    ensures { result ≡ infinite v }
{
    match v {
        Value::F32(x, word) => float::is_infinite(bits_f32(x, word)),
        Value::F64(x, word) => float::is_infinite(bits_f64(x, word)),
        Value::F16(b) => float::is_infinite(b),
        _ => false,
    }
}

fn is_minus_zero(v: Value) -> bool
    ensures { result ≡ minus_zero v }
{
    match v {
        Value::F32(x, word) => bits_f32(x, word) == 0x8000_0000,
        Value::F64(x, word) => bits_f64(x, word) == 0x8000_0000_0000_0000,
        Value::F16(b) => b == 0x8000,
        _ => false,
    }
}

fn count_if(t: bool, n: usize) -> usize
    ensures { result ≡ count_if t n }
{
    n.wrapping_add(t as usize)
}

// What was found so far, or v where it passes the test against that; a NaN is never found.
fn better<T: Fn(Value, Value) -> Result<bool, Refusal>>(
    found: Option<Value>,
    v: Value,
    test: T,
) -> Option<Value>
    requires { T.IsAlwaysCallable test }
    ensures { (told : Value → Value → Outcome Bool)
        → ((x a : Value) (r : _) → T.post test x a r → outcome_of r ≡ told x a) → result ≡ better_of told found v }
{
    let passes = match found {
        Some(a) => test(v, a).unwrap_or(false),
        None => !is_nan(v),
    };
    if passes { Some(v) } else { found }
}

// What the samples before, of which there were `at`, are answered, or the refusal of this one.
fn first_refusal(
    before: Result<(), Refusal>,
    at: usize,
    this: Result<Value, Refusal>,
) -> Result<(), Refusal>
    ensures { result ≡ first_of before at (mapped bits_of (outcome_of this)) }
{
    before?;
    this.map(|_| ()).map_err(|f| Refusal { place: at, ..f })
}

// The tests are closures: a function of another crate, passed by its name, was tried and has no contract here.
fn noted(s: Seen, v: Value, to: Kind) -> Seen
    ensures { result ≡ noted_of to s v }
{
    let converted = convert(v, to);
    Seen {
        samples: count_if(true, s.samples),
        nans: count_if(is_nan(v), s.nans),
        infinities: count_if(is_infinite(v), s.infinities),
        minus_zeros: count_if(is_minus_zero(v), s.minus_zeros),
        lowest: better(s.lowest, v, |x, a| lt(x, a)),
        highest: better(s.highest, v, |x, a| gt(x, a)),
        refusable: count_if(converted.is_err(), s.refusable),
        answer: first_refusal(s.answer, s.samples, converted),
    }
}

fn all_noted(s: Seen, from: Kind, to: Kind, src: &[u8]) -> Seen
    ensures { result ≡ all_noted to s (samples_of from src.now) }
{
    let mut seen = s;
    for i in 0..count(from, src) {
        seen = noted(seen, sample_at(from, src, i), to);
    }
    seen
}

fn left_noted(s: Seen) -> Seen
    ensures { result ≡ left_noted s }
{
    Seen {
        answer: Err(Refusal {
            number: 9,
            place: s.samples,
        }),
        ..s
    }
}

// The block behind what was seen before it. To look without a kind to convert to, `to` is `from`: nothing is refused then.
#[tactic(auto, using(crate::proofs::Looking::look_left, crate::proofs::Looking::look_whole))]
pub fn look_block(s: Seen, from: Kind, to: Kind, src: &[u8]) -> Seen
    ensures { result ≡ look_of from to s src.now }
{
    let seen = all_noted(s, from, to, src);
    if src.len() % bytes_of(from) != 0 {
        return left_noted(seen);
    }
    seen
}
