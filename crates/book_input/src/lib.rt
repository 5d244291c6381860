// Lines gathered from chunks of input of any size, and how far the day book has come with them.
#![tactic(auto)]

ghost use Rattle.std.specs.Prelude.{◌≡◌, ◌<◌, ◌≤◌, ◌==◌, length as len, position};
ghost use Rattle.book_input.specs.Gathering.{TakePre, Keeps};
ghost use Rattle.book_input.specs.Progress.{TakesNext, last_number, line_answered};

const NEWLINE: u8 = b'\n';

// How far the day book has come: the lines answered, the bytes held of the line that is being read, the place in the chunk, and the bytes of answers in
// `out`.
#[derive(Clone, Copy)]
pub struct Progress {
    pub lines: u64,
    pub held: usize,
    pub at: usize,
    pub filled: usize,
}

// How far it has come with the next line: with all of it, where its newline was met, or with the part of it that the chunk has.
#[derive(Clone, Copy)]
pub enum Next {
    Whole(Progress),
    Part(Progress),
}

// Where the first newline is.
fn newline_in(bytes: &[u8]) -> Option<usize>
    ensures { result ≡ position (λ b. b == 10) bytes.now }
{
    bytes.iter().position(|&byte| byte == NEWLINE)
}

// What `held` has room for of a line's bytes is put behind its first `length` bytes; how many are held then.
fn keep(held: &mut [u8], length: usize, line: &[u8]) -> usize
    requires { length ≤ len held.old }
    ensures { Keeps held.old length line.now held.new result }
{
    let kept = line.len().min(held.len() - length);
    held[length..length + kept].copy_from_slice(&line[..kept]);
    length + kept
}

// The bytes of the chunk from its place up to a newline or its end are put behind the bytes that are held; what passes 81 is dropped.
pub fn take_next(chunk: &[u8], held: &mut [u8], progress: Progress) -> Next
    requires { TakePre chunk.now progress.at held.old progress.held }
    ensures { TakesNext chunk.now held.old progress held.new result }
{
    let rest = &chunk[progress.at..];
    match newline_in(rest) {
        Some(place) => Next::Whole(Progress {
            held: keep(held, progress.held, &rest[..place]),
            at: progress.at + place + 1,
            ..progress
        }),
        None => Next::Part(Progress {
            held: keep(held, progress.held, rest),
            at: chunk.len(),
            ..progress
        }),
    }
}

// The line that is held is answered; the answers in `out` take so many bytes now.
pub fn line_answered(progress: Progress, filled: usize) -> Progress
    requires { progress.lines < last_number }
    ensures { result ≡ line_answered progress filled }
{
    Progress {
        lines: progress.lines + 1,
        held: 0,
        filled,
        ..progress
    }
}
