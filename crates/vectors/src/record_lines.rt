// The lines that take two records.
use crate::answers::{Answer, Fault};
use crate::records::records_in;
use crate::rows::Rows;
use record::{Record, Recorded};

pub(crate) fn record_compare_line(rest: &[u8]) -> Result<Answer<'static>, Fault> {
    let (one, other) = records_in(rest).ok_or(Fault::Malformed)?;
    Ok(Answer::Order(lexical::compare(one, other)?))
}

// One of two records.
pub(crate) fn record_choice_line<'a, F>(
    rest: &[u8],
    rows: &'a mut Rows,
    choose: F,
) -> Result<Answer<'a>, Fault>
where
    F: FnOnce(Record, Record) -> Recorded,
    requires { F.IsAlwaysCallable choose }
{
    let (one, other) = records_in(rest).ok_or(Fault::Malformed)?;
    let chosen = choose(one, other);
    chosen.outcome?;
    rows.record = chosen.record;
    Ok(Answer::Record(&rows.record))
}
