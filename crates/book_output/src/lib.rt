// What a read gave is answered, and the answers are written.
#![tactic(auto)]

ghost use Rattle.std.specs.Prelude.{◌≡◌};
ghost use Rattle.day_book.specs.LineAnswers.{tables};
ghost use Rattle.book_output.specs.Readings.{at_front, behind, PiecesReady, PiecesDo, EndReady, EndDoes, ReadDoes};

use book_input::Progress;
use std::io::{self, Write};
use std::ops::ControlFlow::{self, Break, Continue};

// How far the day book has come between two reads: the lines answered, and the bytes held of the line that is being read.
#[derive(Clone, Copy, Default)]
pub struct Reading {
    pub lines: u64,
    pub held: usize,
}

// At the front of the chunk that was read, with no answers to be written.
impl From<Reading> for Progress {
    ghost from_gives = { λ reading p. p ≡ at_front reading };

    fn from(reading: Reading) -> Progress {
        Progress {
            lines: reading.lines,
            held: reading.held,
            at: 0,
            filled: 0,
        }
    }
}

// Behind a piece of the chunk.
impl From<Progress> for Reading {
    ghost from_gives = { λ p reading. reading ≡ behind p };

    fn from(p: Progress) -> Reading {
        Reading {
            lines: p.lines,
            held: p.held,
        }
    }
}

// All lines of a chunk, in pieces whose answers the buffer has room for, each written before the next. A failed write ends the day book.
fn answer_pieces<W: Write>(
    index: &mut [u8],
    keys: &mut [u64],
    used: &mut [u8],
    chunk: &[u8],
    held: &mut [u8],
    out: &mut [u8],
    reading: &mut Reading,
    output: &mut W,
) -> io::Result<()>
    requires { PiecesReady chunk.now held.old out.old reading.old }
    ensures { PiecesDo (tables index.old keys.old used.old) chunk.now held.old reading.old (tables index.new keys.new used.new) held.new out.new reading.new result }
{
    let mut p = Progress::from(*reading);
    while p.at < chunk.len() {
        p = book_chunks::answer_chunk(index, keys, used, chunk, held, out, p);
        *reading = p.into();
        output.write_all(&out[..p.filled])?;
        p.filled = 0;
    }
    Ok(())
}

// At the end of the input a line without newline is answered.
fn answer_end<W: Write>(
    index: &mut [u8],
    keys: &mut [u64],
    used: &mut [u8],
    held: &[u8],
    out: &mut [u8],
    reading: &mut Reading,
    output: &mut W,
) -> io::Result<()>
    requires { EndReady held.now out.old reading.old }
    ensures { EndDoes (tables index.old keys.old used.old) held.now reading.old (tables index.new keys.new used.new) out.new reading.new }
{
    let p = book_chunks::answer_last(index, keys, used, held, out, (*reading).into());
    *reading = p.into();
    output.write_all(&out[..p.filled])
}

// What a read gave is answered. If it gave nothing the input is at its end, and so is the day book. `reading` is how far it has come, behind a failed
// write too.
pub fn answer_read<W: Write>(
    index: &mut [u8],
    keys: &mut [u64],
    used: &mut [u8],
    chunk: &[u8],
    held: &mut [u8],
    out: &mut [u8],
    reading: &mut Reading,
    output: &mut W,
) -> io::Result<ControlFlow<()>>
    requires { PiecesReady chunk.now held.old out.old reading.old }
    ensures { ReadDoes (tables index.old keys.old used.old) chunk.now held.old reading.old (tables index.new keys.new used.new) held.new out.new reading.new result }
{
    if chunk.is_empty() {
        answer_end(index, keys, used, held, out, reading, output)?;
        return Ok(Break(()));
    }
    answer_pieces(index, keys, used, chunk, held, out, reading, output)?;
    Ok(Continue(()))
}
