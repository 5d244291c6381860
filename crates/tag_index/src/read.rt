// The calls that only read.
ghost use Rattle.std.specs.Prelude.{◌≡◌, true, ◌↔◌};
ghost use Rattle.index_table.specs.Refusals.{answer_number};
ghost use Rattle.index_table.specs.Soundness.{Sound};
ghost use Rattle.table_find.specs.Answers.{find_answer, list_answer};
ghost use Rattle.tag_index.specs.Reading.{FirstRow, FindDoes, ListDoes};

use index_table::layout::RecordNo;
use index_table::refusal::Refusal;
use table_find::answer::Counted;

// Refuses by row 1 or 2, the first that applies to the tables and to two keys.
pub fn first_row(index: &[u8], keys: &[u64], used: &[u8], a: u64, b: u64) -> Result<(), Refusal>
    ensures { FirstRow index.now keys.now used.now a b (answer_number result) }
{
    if !table_check::check(index, keys, used) {
        return Err(Refusal::NotSound);
    }
    let w = index_table::header::width(index);
    if leaf_list::too_wide(w, a) {
        return Err(Refusal::KeyTooWide);
    }
    if leaf_list::too_wide(w, b) {
        return Err(Refusal::KeyTooWide);
    }
    Ok(())
}

// The record of a held key.
pub fn find(index: &[u8], keys: &[u64], used: &[u8], key: u64) -> Result<RecordNo, Refusal>
    ensures { FindDoes index.now keys.now used.now key (find_answer result) }
{
    first_row(index, keys, used, key, key)?;
    table_find::find::find_held(index, keys, used, key)
}

// The records of the keys from a to b, in key order, as many as the slice holds.
pub fn list(
    index: &[u8],
    keys: &[u64],
    used: &[u8],
    a: u64,
    b: u64,
    out: &mut [u32],
) -> Result<Counted, Refusal>
    ensures { ListDoes index.now keys.now used.now a b out.old out.new (list_answer result) }
{
    first_row(index, keys, used, a, b)?;
    Ok(table_list::list_held(index, keys, used, a, b, out))
}

// Whether the tables are sound.
pub fn check(index: &[u8], keys: &[u64], used: &[u8]) -> bool
    ensures { (result ≡ true) ↔ Sound index.now keys.now used.now }
{
    table_check::check(index, keys, used)
}
