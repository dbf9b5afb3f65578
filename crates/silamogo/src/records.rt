// Records and their keys. RULES.md: The boundary.
ghost use Rattle.std.specs.Prelude.{◌≡◌, length};
ghost use Rattle.value.specs.Outcome.{gives, outcome_of};
ghost use Rattle.value.specs.Rules.{chain};
ghost use Rattle.row.specs.Row.{rowed_outcome};
ghost use Rattle.silamogo.specs.Answer.{answered_of, ordered_of, measured_of};
ghost use Rattle.silamogo.specs.Records.{records_order, key_length, key_exit, success_of, room_rules, record_read, read_exit};

use crate::fields::{check_widths, put_bits, record_for, shape_for};
use crate::samples::{any_unnamed, refuse_if};
use crate::{Answer, Measured, Ordered};
use float::Order;
use record::bad_count;
use value::Refusal;

// Rules 11, 7 and 9 of one record, with as many bits.
fn check_kinds(kinds: &[u8], bits: usize) -> Result<(), Refusal>
    ensures { outcome_of result ≡ chain (room_rules kinds.now bits) (gives tt) }
{
    refuse_if(bad_count(kinds.len()), 11)?;
    refuse_if(any_unnamed(kinds), 7)?;
    refuse_if(kinds.len() != bits, 9)
}

#[tactic(auto, unfolding(crate::specs::Records::records_order))]
fn compared(
    a_kinds: &[u8],
    a_bits: &[u64],
    b_kinds: &[u8],
    b_bits: &[u64],
) -> Result<Order, Refusal>
    ensures { outcome_of result ≡ records_order a_kinds.now a_bits.now b_kinds.now b_bits.now }
{
    refuse_if(bad_count(a_kinds.len()) || bad_count(b_kinds.len()), 11)?;
    refuse_if(any_unnamed(a_kinds) || any_unnamed(b_kinds), 7)?;
    refuse_if(
        a_kinds.len() != a_bits.len() || b_kinds.len() != b_bits.len(),
        9,
    )?;
    check_widths(a_kinds, a_bits)?;
    check_widths(b_kinds, b_bits)?;
    lexical::compare(record_for(a_kinds, a_bits), record_for(b_kinds, b_bits))
}

#[unsafe(no_mangle)]
pub extern "C" fn silamogo_record_compare(
    a_kinds: &[u8],
    a_bits: &[u64],
    b_kinds: &[u8],
    b_bits: &[u64],
) -> Ordered
    ensures { result ≡ ordered_of (records_order a_kinds.now a_bits.now b_kinds.now b_bits.now) }
{
    Ordered::from(compared(a_kinds, a_bits, b_kinds, b_bits))
}

#[tactic(auto, unfolding(crate::specs::Records::key_length, crate::specs::Records::key_exit, key::specs::Key::write_exit))]
fn written(kinds: &[u8], bits: &[u64], buffer: &mut [u8]) -> Result<usize, Refusal>
    ensures answer { outcome_of result ≡ key_length kinds.now bits.now (length buffer.old) }
    ensures exit { buffer.new ≡ key_exit kinds.now bits.now buffer.old }
{
    check_kinds(kinds, bits.len())?;
    check_widths(kinds, bits)?;
    key::write(record_for(kinds, bits), buffer)
}

#[unsafe(no_mangle)]
pub extern "C" fn silamogo_key_write(kinds: &[u8], bits: &[u64], buffer: &mut [u8]) -> Measured
    ensures answer { result ≡ measured_of (key_length kinds.now bits.now (length buffer.old)) }
    ensures exit { buffer.new ≡ key_exit kinds.now bits.now buffer.old }
{
    Measured::from(written(kinds, bits, buffer))
}

#[tactic(auto, unfolding(crate::specs::Records::record_read, crate::specs::Records::read_exit))]
fn read(kinds: &[u8], key: &[u8], bits: &mut [u64]) -> Result<(), Refusal>
    ensures answer { rowed_outcome result ≡ success_of (record_read kinds.now key.now (length bits.old)) }
    ensures exit { bits.new ≡ read_exit kinds.now key.now bits.old }
{
    check_kinds(kinds, bits.len())?;
    let x = key::read(shape_for(kinds), key);
    x.outcome?;
    put_bits(x.record, bits);
    Ok(())
}

#[unsafe(no_mangle)]
pub extern "C" fn silamogo_key_read(kinds: &[u8], key: &[u8], bits: &mut [u64]) -> Answer
    ensures answer { result ≡ answered_of (success_of (record_read kinds.now key.now (length bits.old))) }
    ensures exit { bits.new ≡ read_exit kinds.now key.now bits.old }
{
    Answer::from(read(kinds, key, bits))
}
