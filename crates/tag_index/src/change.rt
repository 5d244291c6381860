// The calls that change the herd: the check, and the change itself.
ghost use Rattle.index_table.specs.Refusals.{answer_number};
ghost use Rattle.table_find.specs.Answers.{plain};
ghost use Rattle.tag_index.specs.Changing.{OnDoes, OffDoes};

use index_table::refusal::Refusal;

// A key is held from now on, with a free record.
pub fn on(
    index: &mut [u8],
    keys: &mut [u64],
    used: &mut [u8],
    key: u64,
    record: u32,
) -> Result<(), Refusal>
    ensures { OnDoes index.old keys.old used.old key «record» index.new keys.new used.new (plain (answer_number result)) }
{
    if !table_check::check(index, keys, used) {
        return Err(Refusal::NotSound);
    }
    table_change::on::on_sound(index, keys, used, key, record)
}

// A held key is held no more.
pub fn off(index: &mut [u8], keys: &mut [u64], used: &mut [u8], key: u64) -> Result<(), Refusal>
    ensures { OffDoes index.old keys.old used.old key index.new keys.new used.new (plain (answer_number result)) }
{
    if !table_check::check(index, keys, used) {
        return Err(Refusal::NotSound);
    }
    table_change::off::off_sound(index, keys, used, key)
}
