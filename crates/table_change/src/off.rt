// Off in sound tables.
ghost use Rattle.index_table.specs.Refusals.{answer_number};
ghost use Rattle.index_table.specs.Soundness.{Sound};
ghost use Rattle.table_find.specs.Answers.{plain};
ghost use Rattle.table_change.specs.Changes.{OffDone, OffChanges};
ghost use Rattle.table_change.specs.FoundKeys.{HeldKey};

use index_table::refusal::Refusal;
use table_search::Leaf;

// A held key is taken out at its leaf, and its record is free.
fn take_off(index: &mut [u8], keys: &mut [u64], used: &mut [u8], key: u64, leaf: Leaf)
    requires { HeldKey index.old keys.old used.old key leaf }
    ensures { OffDone index.old keys.old used.old key index.new keys.new used.new }
{
    index_change::strike_pages(index, key, leaf);
    let at = leaf.pointer as usize;
    keys[at] = 0;
    used[at] = 0;
}

// Row 2 or 6, or the key is taken out.
pub fn off_sound(
    index: &mut [u8],
    keys: &mut [u64],
    used: &mut [u8],
    key: u64,
) -> Result<(), Refusal>
    requires { Sound index.old keys.old used.old }
    ensures { OffChanges index.old keys.old used.old key index.new keys.new used.new (plain (answer_number result)) }
{
    if leaf_list::too_wide(index_table::header::width(index), key) {
        return Err(Refusal::KeyTooWide);
    }
    let leaf = table_find::find::leaf_of(index, keys, used, key);
    if !crate::rows::is_key(keys, leaf.pointer, key) {
        return Err(Refusal::KeyNotHeld);
    }
    take_off(index, keys, used, key, leaf);
    Ok(())
}
