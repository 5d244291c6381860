// Find, behind the check.
ghost use Rattle.std.specs.Prelude.{◌≡◌, ◌<◌, ◌^◌};
ghost use Rattle.leaf_list.specs.Herd.{lookup};
ghost use Rattle.leaf_list.specs.Register.{herd_of};
ghost use Rattle.index_table.specs.Header.{width_of};
ghost use Rattle.index_table.specs.Soundness.{Sound};
ghost use Rattle.table_find.specs.Answers.{found, find_answer};
ghost use Rattle.table_find.specs.Places.{numbered_leaf, FoundLeaf};

use index_table::header::Index;
use index_table::layout::{Answer, RecordNo, answer_of};
use index_table::refusal::Refusal;
use table_search::Leaf;

// The entry on level 0 at which the search for a key ends, as one number.
fn found_number(index: &[u8], keys: &[u64], used: &[u8], key: u64) -> u64
    requires { Sound index.now keys.now used.now × (key < 2 ^ width_of index.now) }
    ensures { FoundLeaf index.now keys.now used.now key (numbered_leaf index.now result) }
{
    let h = index_table::header::read(index);
    let w = u64::from(h.width);
    let level = index_table::layout::level(index, h.entries, h.root);
    let position = table_search::next_position(w, key, 0);
    table_search::descend(&index, level, h.root, key, position, 0, false)
}

// Returns the entry itself.
pub fn leaf_of(index: &[u8], keys: &[u64], used: &[u8], key: u64) -> Leaf
    requires { Sound index.now keys.now used.now × (key < 2 ^ width_of index.now) }
    ensures { FoundLeaf index.now keys.now used.now key result }
{
    let number = found_number(index, keys, used, key);
    let e = index_table::header::read(index).entries;
    table_search::numbered_leaf(index, e, number)
}

// The record of a held key: only a live leaf yields one, and its key is compared whole.
pub fn find_held(index: &[u8], keys: &[u64], used: &[u8], key: u64) -> Result<RecordNo, Refusal>
    requires { Sound index.now keys.now used.now × (key < 2 ^ width_of index.now) }
    ensures { find_answer result ≡ found (lookup key (herd_of keys.now used.now)) }
{
    // With two callers found_number stays a call that hands over registers alone.
    let pointer = table_search::number_pointer(found_number(index, keys, used, key));
    let Answer::Live(record) = answer_of(pointer) else {
        return Err(Refusal::KeyNotHeld);
    };
    let at = record.0 as usize;
    if keys[at] != key {
        return Err(Refusal::KeyNotHeld);
    }
    Ok(record)
}
