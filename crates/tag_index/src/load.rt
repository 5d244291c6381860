// A lorry load: the check once, and each movement behind it.
ghost use Rattle.std.specs.Prelude.{◌≡◌, ◌<◌, length};
ghost use Rattle.index_table.specs.Refusals.{answer_number};
ghost use Rattle.tag_index.specs.Tables.{tables, SoundAt};
ghost use Rattle.tag_index.specs.Loads.{LoadRow};
ghost use Rattle.tag_index.specs.LoadTurns.{OneMoved, turns_of};

use index_table::refusal::Refusal;
use table_find::answer::Answer;

// A movement of the yard's list is an off of the key where `on` is 0, and else an on of the key with the record. Its layout stands in include/tag_index.h,
// bindings/rust/src/movement.rs and tests/compare/src/loads.rs too; so `on` is a number, as C has it there, and no `bool`.
#[repr(C)]
#[derive(Clone, Copy, Debug, PartialEq, Eq)]
pub struct Movement {
    pub key: u64,
    pub record: u32,
    pub on: u32,
}

// Makes a movement in sound tables, and writes the number of its answer at its place.
pub fn move_one(
    index: &mut [u8],
    keys: &mut [u64],
    used: &mut [u8],
    key: u64,
    record: u32,
    on: u32,
    answers: &mut [u32],
    i: usize,
)
    requires { SoundAt (tables index.old keys.old used.old) × (i < length answers.old) }
    ensures { OneMoved (tables index.old keys.old used.old) key «record» on answers.old i (tables index.new keys.new used.new) answers.new }
{
    let done = if on == 0 {
        table_change::off::off_sound(index, keys, used, key)
    } else {
        table_change::on::on_sound(index, keys, used, key, record)
    };
    answers[i] = Answer::from(done).number;
}

// Refuses by row 1 or 12, the first that applies to a load of so many movements.
pub fn load_row(
    index: &[u8],
    keys: &[u64],
    used: &[u8],
    answers: &[u32],
    movements: usize,
) -> Result<(), Refusal>
    ensures { LoadRow (tables index.now keys.now used.now) movements (length answers.now) (answer_number result) }
{
    if !table_check::check(index, keys, used) {
        return Err(Refusal::NotSound);
    }
    if answers.len() < movements {
        return Err(Refusal::AnswersTooShort);
    }
    Ok(())
}

// Tells how many movements a load makes: all of them, and none where a row declines it. So the loop of `tag_index_load` has no branch.
pub fn turns(row: u32, movements: usize) -> usize
    ensures { result ≡ turns_of row movements }
{
    if row == 0 { movements } else { 0 }
}
