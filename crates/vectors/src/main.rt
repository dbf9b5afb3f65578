// Replays case lines: reads lines on standard input and writes one answer a line on standard output. Its own stdin and stdout, beside src/,
// are the fixed list of the oracle and the oracle's answers (oracle/README.md). Input is read in blocks and answers wait in a buffer, so
// that a run makes few calls of the system.
#![tactic(auto)]

mod answers;
mod bytes;
mod input;
mod key_lines;
mod letters;
mod lines;
mod lists;
mod operands;
mod output;
mod record_lines;
mod records;
mod row_lines;
mod rows;

ghost use Rattle.std.specs.Prelude.{◌≤◌, length, IfOk};

use input::Input;
use lines::answer_to;
use output::Output;
use rows::Rows;
use std::io;
use std::io::Write;

// Where answers can't be written, the program ends with the error.
fn main(rt: HostRuntime) -> io::Result<()> {
    let mut input = Input::new(rt.stdin());
    let mut output = Output::new(rt.stdout());
    let mut rows = Rows::new();
    for _ in 0..u64::MAX {
        if !input.read_block() {
            break;
        }
        let end = put_answers(input.bytes(), &mut output, &mut rows)?;
        input.pass(end);
    }
    output.flush()
}

// Answers every line of input that has its newline: where they end.
fn put_answers(input: &[u8], output: &mut Output, rows: &mut Rows) -> io::Result<usize>
    ensures { IfOk result (λ end. end ≤ length input.now) }
{
    let Some(last) = input.iter().rposition(|b| *b == b'\n') else {
        return Ok(0);
    };
    for line in input[..last].split(|b| *b == b'\n') {
        put_answer(line, output, rows)?;
    }
    Ok(last + 1)
}

fn put_answer(line: &[u8], output: &mut Output, rows: &mut Rows) -> io::Result<()> {
    match answer_to(line, rows) {
        Ok(answer) => writeln!(output, "{answer}"),
        Err(fault) => writeln!(output, "{fault}"),
    }
}
