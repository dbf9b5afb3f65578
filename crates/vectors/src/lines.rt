// What a line asks, by its first word, and the answer to it. A new word has an arm here or in the function for its operands. A line whose
// answer may be a row, or bytes, is lent the rows.
use crate::answers::{Answer, Fault};
use crate::key_lines::{prefix_line, read_line, write_line};
use crate::operands::{value_and_kind_in, value_in, values_in};
use crate::record_lines::{record_choice_line, record_compare_line};
use crate::row_lines::{row_clamp_line, row_line};
use crate::rows::Rows;
use float::classify;
use text::{after, before};
use value::{Value, bits_f32, bits_f64};

// A line is a word, a space, and the operands that the word takes. A function of another crate is handed on by a closure: passed by its
// name it has no contract here.
pub(crate) fn answer_to<'a>(line: &[u8], rows: &'a mut Rows) -> Result<Answer<'a>, Fault> {
    let rest = after(b' ', line);
    match before(b' ', line) {
        b"class" => class_line(rest),
        b"clamp" => clamp_line(rest),
        b"rowclamp" => row_clamp_line(rest, rows),
        b"convert" => convert_line(rest),
        b"row" => row_line(rest, rows),
        b"rcompare" => record_compare_line(rest),
        b"rmin" => record_choice_line(rest, rows, |one, other| lexical::min(one, other)),
        b"rmax" => record_choice_line(rest, rows, |one, other| lexical::max(one, other)),
        b"write" => write_line(rest, rows),
        b"read" => read_line(rest, rows),
        b"prefixmin" => prefix_line(
            rest,
            rows,
            |one, other, k| bytewise::min_by_prefix(one, other, k),
        ),
        b"prefixmax" => prefix_line(
            rest,
            rows,
            |one, other, k| bytewise::max_by_prefix(one, other, k),
        ),
        word => pair_line(word, rest),
    }
}

// Only a float has a class.
fn class_line(rest: &[u8]) -> Result<Answer<'static>, Fault> {
    match value_in(rest) {
        Some(Value::F32(x, word)) => Ok(Answer::Class(classify(bits_f32(x, word)))),
        Some(Value::F64(x, word)) => Ok(Answer::Class(classify(bits_f64(x, word)))),
        Some(Value::F16(b)) => Ok(Answer::Class(classify(b))),
        _ => Err(Fault::Malformed),
    }
}

fn clamp_line(rest: &[u8]) -> Result<Answer<'static>, Fault> {
    let v = value_in(before(b' ', rest)).ok_or(Fault::Malformed)?;
    let (lower, upper) = values_in(after(b' ', rest)).ok_or(Fault::Malformed)?;
    Ok(Answer::Value(choose::clamp(v, lower, upper)?))
}

fn convert_line(rest: &[u8]) -> Result<Answer<'static>, Fault> {
    let (v, to) = value_and_kind_in(rest).ok_or(Fault::Malformed)?;
    Ok(Answer::Value(convert::convert(v, to)?))
}

// The words that take two values.
fn pair_line(word: &[u8], rest: &[u8]) -> Result<Answer<'static>, Fault> {
    let (a, b) = values_in(rest).ok_or(Fault::Malformed)?;
    Ok(match word {
        b"compare" => Answer::Order(cmp::compare(a, b)?),
        b"total" => Answer::Order(cmp::total_order(a, b)?),
        b"eq" => Answer::Test(cmp::eq(a, b)?),
        b"ne" => Answer::Test(cmp::ne(a, b)?),
        b"lt" => Answer::Test(cmp::lt(a, b)?),
        b"le" => Answer::Test(cmp::le(a, b)?),
        b"gt" => Answer::Test(cmp::gt(a, b)?),
        b"ge" => Answer::Test(cmp::ge(a, b)?),
        b"min" => Answer::Value(choose::min(a, b)?),
        b"max" => Answer::Value(choose::max(a, b)?),
        _ => return Err(Fault::Malformed),
    })
}
