// The day book: a line in, its answer line out.
#![tactic(auto)]

ghost use Rattle.std.specs.Prelude.{◌≤◌, length};
ghost use Rattle.day_book.specs.LineAnswers.{tables, OnLineDoes, OffLineDoes, FindLineDoes, ListLineDoes, NoneDoes, LineDoes};

use book_answers::write_answer;
use book_lines::Call;
use table_find::answer::Answer;

// An `on` line.
fn on_line(
    index: &mut [u8],
    keys: &mut [u64],
    used: &mut [u8],
    key: u64,
    record: u32,
    number: u64,
    out: &mut [u8],
) -> usize
    requires { 256 ≤ length out.old }
    ensures { OnLineDoes key «record» (tables index.old keys.old used.old) (tables index.new keys.new used.new) number out.old out.new result }
{
    let a = Answer::from(tag_index::change::on(index, keys, used, key, record));
    write_answer(out, number, a.number, &[], false)
}

// An `off` line.
fn off_line(
    index: &mut [u8],
    keys: &mut [u64],
    used: &mut [u8],
    key: u64,
    number: u64,
    out: &mut [u8],
) -> usize
    requires { 256 ≤ length out.old }
    ensures { OffLineDoes key (tables index.old keys.old used.old) (tables index.new keys.new used.new) number out.old out.new result }
{
    let a = Answer::from(tag_index::change::off(index, keys, used, key));
    write_answer(out, number, a.number, &[], false)
}

// A `find` line.
fn find_line(
    index: &[u8],
    keys: &[u64],
    used: &[u8],
    key: u64,
    number: u64,
    out: &mut [u8],
) -> usize
    requires { 256 ≤ length out.old }
    ensures { FindLineDoes key (tables index.now keys.now used.now) number out.old out.new result }
{
    match tag_index::read::find(index, keys, used, key) {
        Ok(record) => write_answer(out, number, 0, &[record.0], false),
        Err(refusal) => declined_line(u32::from(refusal), number, out),
    }
}

// A `list` line: at most 32 records.
fn list_line(
    index: &[u8],
    keys: &[u64],
    used: &[u8],
    from: u64,
    to: u64,
    number: u64,
    out: &mut [u8],
) -> usize
    requires { 256 ≤ length out.old }
    ensures { ListLineDoes from to (tables index.now keys.now used.now) number out.old out.new result }
{
    let mut records = [0u32; 32];
    match tag_index::read::list(index, keys, used, from, to, &mut records) {
        Ok(listed) => write_answer(out, number, 0, &records[..listed.count], listed.more),
        Err(refusal) => declined_line(u32::from(refusal), number, out),
    }
}

// A line that asks for no call.
fn declined_line(refusal: u32, number: u64, out: &mut [u8]) -> usize
    requires { 256 ≤ length out.old }
    ensures { NoneDoes refusal number out.old out.new result }
{
    write_answer(out, number, refusal, &[], false)
}

// A line without its newline is answered: the answer line stands at the front of `out`, and its length is given.
pub fn answer_line(
    index: &mut [u8],
    keys: &mut [u64],
    used: &mut [u8],
    line: &[u8],
    number: u64,
    out: &mut [u8],
) -> usize
    requires { 256 ≤ length out.old }
    ensures { LineDoes (tables index.old keys.old used.old) line.now number out.old (tables index.new keys.new used.new) out.new result }
{
    match book_lines::read_line(line) {
        Ok(Call::On { key, record }) => on_line(index, keys, used, key, record, number, out),
        Ok(Call::Off { key }) => off_line(index, keys, used, key, number, out),
        Ok(Call::Find { key }) => find_line(index, keys, used, key, number, out),
        Ok(Call::List { from, to }) => list_line(index, keys, used, from, to, number, out),
        Err(declined) => declined_line(declined.number(), number, out),
    }
}
