// The day book: each line of standard input is answered on standard output.
#![tactic(auto)]

ghost use Rattle.book_output.specs.Readings.{Between};

use book_output::Reading;
use std::io::{self, Read, Write};
use std::ops::ControlFlow::{self, Break, Continue};

// No run comes to more lines; so their numbers never run out.
const MAX_LINES: u64 = 9223372036854775808;

// Reads once, and answers what came; whether the day book goes on.
fn answer_some<R: Read, W: Write>(
    index: &mut [u8],
    keys: &mut [u64],
    used: &mut [u8],
    held: &mut [u8],
    out: &mut [u8],
    reading: &mut Reading,
    input: &mut R,
    output: &mut W,
) -> io::Result<ControlFlow<()>>
    requires { Between held.old out.old reading.old }
    ensures { Between held.new out.new reading.new }
{
    if reading.lines > MAX_LINES {
        return Ok(Break(()));
    }
    let mut chunk = [0u8; 65536];
    let n = input.read(&mut chunk)?;
    book_output::answer_read(index, keys, used, &chunk[..n], held, out, reading, output)
}

// All of the input, chunk after chunk. A proved loop has to end, and nothing says that the input does: so the turns are counted up to a number
// that no run comes to.
fn answer_all<R: Read, W: Write>(
    index: &mut [u8],
    keys: &mut [u64],
    used: &mut [u8],
    held: &mut [u8],
    out: &mut [u8],
    reading: &mut Reading,
    input: &mut R,
    output: &mut W,
) -> io::Result<()>
    requires { Between held.old out.old reading.old }
    ensures { Between held.new out.new reading.new }
{
    for _ in 0..u64::MAX {
        match answer_some(index, keys, used, held, out, reading, input, output)? {
            Continue(()) => {}
            Break(()) => break,
        }
    }
    Ok(())
}

fn main(rt: HostRuntime) {
    let mut index = [0u8; 45516];
    let mut keys = [0u64; 4096];
    let mut used = [0u8; 4096];
    let mut held = [0u8; 81];
    let mut out = [0u8; 65536];
    // These sizes are inside the limits, so nothing is refused.
    let _ = table_format::format(&mut index, &mut keys, &mut used, 64, 60, 250);
    // A read or a write that fails ends the day book where it is, as the end of the input does.
    let _ = answer_all(
        &mut index,
        &mut keys,
        &mut used,
        &mut held,
        &mut out,
        &mut Reading::default(),
        &mut rt.stdin(),
        &mut rt.stdout(),
    );
}
