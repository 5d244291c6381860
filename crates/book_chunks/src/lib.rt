// The day book's answers to chunks of input of any size.
#![tactic(auto)]

ghost use Rattle.std.specs.Prelude.{[], ◌∷◌};
ghost use Rattle.book_input.specs.Lines.{begun_before};
ghost use Rattle.day_book.specs.LineAnswers.{tables};
ghost use Rattle.book_chunks.specs.Chunks.{begun, Ready, TurnReady, WithRoom, Settled, TurnDoes, ChunkDoes};

use book_input::{Next, Progress};

// The longest answer.
const ROOM: usize = 256;

// The line that is held is answered under the next number, behind the answers before.
fn answer_held(
    index: &mut [u8],
    keys: &mut [u64],
    used: &mut [u8],
    held: &[u8],
    out: &mut [u8],
    progress: Progress,
) -> Progress
    requires { WithRoom held.now out.old progress }
    ensures { Settled (tables index.old keys.old used.old) (begun held.now progress ∷ []) out.old progress (tables index.new keys.new used.new) out.new result }
{
    let more = day_book::answer_line(
        index,
        keys,
        used,
        &held[..progress.held],
        progress.lines + 1,
        &mut out[progress.filled..],
    );
    book_input::line_answered(progress, progress.filled + more)
}

// One turn: a line whose newline is met is answered, and the beginning of another is held.
fn answer_next(
    index: &mut [u8],
    keys: &mut [u64],
    used: &mut [u8],
    chunk: &[u8],
    held: &mut [u8],
    out: &mut [u8],
    progress: Progress,
) -> Progress
    requires { TurnReady chunk.now held.old out.old progress }
    ensures { TurnDoes (tables index.old keys.old used.old) chunk.now held.old out.old progress (tables index.new keys.new used.new) held.new out.new result }
{
    match book_input::take_next(chunk, held, progress) {
        Next::Whole(taken) => answer_held(index, keys, used, held, out, taken),
        Next::Part(taken) => taken,
    }
}

// Line after line, until the chunk is at its end or `out` has no room for one more answer.
pub fn answer_chunk(
    index: &mut [u8],
    keys: &mut [u64],
    used: &mut [u8],
    chunk: &[u8],
    held: &mut [u8],
    out: &mut [u8],
    progress: Progress,
) -> Progress
    requires { Ready chunk.now held.old out.old progress }
    ensures { ChunkDoes (tables index.old keys.old used.old) chunk.now held.old out.old progress (tables index.new keys.new used.new) held.new out.new result }
{
    let mut p = progress;
    while p.at < chunk.len() && out.len() - p.filled >= ROOM {
        p = answer_next(index, keys, used, chunk, held, out, p);
    }
    p
}

// At the end of the input a line without newline counts, if it is not empty.
pub fn answer_last(
    index: &mut [u8],
    keys: &mut [u64],
    used: &mut [u8],
    held: &[u8],
    out: &mut [u8],
    progress: Progress,
) -> Progress
    requires { WithRoom held.now out.old progress }
    ensures { Settled (tables index.old keys.old used.old) (begun_before (begun held.now progress) []) out.old progress (tables index.new keys.new used.new) out.new result }
{
    if progress.held == 0 {
        return progress;
    }
    answer_held(index, keys, used, held, out, progress)
}
