// The rows that decline an on before its entries are made.
ghost use Rattle.std.specs.Prelude.{◌≡◌, false, ◌≢◌, ◌≤◌, ◌<◌, leb, length};
ghost use Rattle.leaf_list.specs.Register.{in_use};
ghost use Rattle.index_table.specs.Refusals.{answer_number};
ghost use Rattle.index_table.specs.Header.{width_of};
ghost use Rattle.table_change.specs.Changes.{too_wide, on_row};
ghost use Rattle.table_change.specs.News.{key_is};

use index_table::layout::Answer;
use index_table::refusal::Refusal;

// Refuses an on by row 2, 3 or 4, the first that applies.
pub fn early_row(index: &[u8], used: &[u8], key: u64, record: u32) -> Result<(), Refusal>
    requires { (16 ≤ length index.now) × (width_of index.now ≤ 64) }
    ensures { answer_number result ≡ on_row (too_wide (width_of index.now) key) (leb (length used.now) «record») (in_use used.now «record») false false false }
{
    if leaf_list::too_wide(index_table::header::width(index), key) {
        return Err(Refusal::KeyTooWide);
    }
    let at = record as usize;
    if used.len() <= at {
        return Err(Refusal::NoSuchRecord);
    }
    if used[at] == 1 {
        return Err(Refusal::RecordInUse);
    }
    Ok(())
}

// Whether a pointer of level 0 means a record with the key.
pub fn is_key(keys: &[u64], pointer: u32, key: u64) -> bool
    requires { pointer ≢ 65535 → pointer < length keys.now }
    ensures { result ≡ key_is keys.now pointer key }
{
    let Answer::Live(record) = index_table::layout::answer_of(pointer) else {
        return false;
    };
    let at = record.0 as usize;
    keys[at] == key
}
