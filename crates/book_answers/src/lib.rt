// The line that the day book prints: numbers in decimal, parted by tabs.
#![tactic(auto)]

ghost use Rattle.std.specs.Prelude.{◌+◌, ◌≤◌, length};
ghost use Rattle.book_answers.specs.Answers.{decimal, field, fields_of, end_of};
ghost use Rattle.book_answers.specs.Writing.{Wrote, Writable, AnswerWritten};

use itoa::Buffer;

const TAB: u8 = b'\t';

// Each function writes at a place, and gives the place behind. A struct of the bytes and the place would be no plainer: `write_answer` would make it, and
// take it apart again.

// Bytes; the place behind them.
fn write_bytes(out: &mut [u8], at: usize, bytes: &[u8]) -> usize
    requires { at + length bytes.now ≤ length out.old }
    ensures { Wrote out.old at bytes.now out.new result }
{
    let end = at + bytes.len();
    out[at..end].copy_from_slice(bytes);
    end
}

// A number in decimal; the place behind it.
#[tactic(auto, using(crate::proofs::Decimals::decimal_printed))]
pub fn write_number(out: &mut [u8], at: usize, n: u64) -> usize
    requires { at + length (decimal n) ≤ length out.old }
    ensures { Wrote out.old at (decimal n) out.new result }
{
    let mut digits = Buffer::new();
    write_bytes(out, at, digits.format(n).as_bytes())
}

// A tab and a number; the place behind them.
#[tactic(auto, unfolding(crate::specs::Answers::field))]
pub fn write_field(out: &mut [u8], at: usize, n: u64) -> usize
    requires { at + length (field n) ≤ length out.old }
    ensures { Wrote out.old at (field n) out.new result }
{
    out[at] = TAB;
    write_number(out, at + 1, n)
}

// A tab and a record, for each of the records; the place behind them.
fn write_records(out: &mut [u8], at: usize, records: &[u32]) -> usize
    requires { at + length (fields_of records.now) ≤ length out.old }
    ensures { Wrote out.old at (fields_of records.now) out.new result }
{
    let mut next = at;
    for &record in records {
        next = write_field(out, next, u64::from(record));
    }
    next
}

// A tab and `+` if more remain, and the newline; the place behind it.
#[tactic(auto, unfolding(crate::specs::Answers::end_of))]
fn write_end(out: &mut [u8], at: usize, more: bool) -> usize
    requires { at + length (end_of more) ≤ length out.old }
    ensures { Wrote out.old at (end_of more) out.new result }
{
    write_bytes(out, at, if more { b"\t+\n" } else { b"\n" })
}

// The answer to a line at the front of `out`; its length. A find has one record, a list at most 32, every other call none.
pub fn write_answer(out: &mut [u8], line: u64, number: u32, records: &[u32], more: bool) -> usize
    requires { Writable out.old records.now }
    ensures { AnswerWritten out.old line number records.now more out.new result }
{
    let numbered = write_number(out, 0, line);
    let answered = write_field(out, numbered, u64::from(number));
    let listed = write_records(out, answered, records);
    write_end(out, listed, more)
}
