// The calls of the index as C calls them, each slice a pointer and a length: include/tag_index.h declares them.
#![tactic(auto)]

ghost use Rattle.std.specs.Prelude.{◌≡◌, true, ◌↔◌};
ghost use Rattle.index_table.specs.Soundness.{Sound};
ghost use Rattle.table_format.specs.Format.{FormatDoes};
ghost use Rattle.tag_index.specs.Changing.{OnDoes, OffDoes};
ghost use Rattle.tag_index.specs.Reading.{FindDoes, ListDoes};
ghost use Rattle.tag_index.specs.Tables.{tables};
ghost use Rattle.tag_index.specs.Loads.{LoadDoes};

use table_find::answer::Answer;
use tag_index::load::Movement;

// Tables that hold no key.
#[unsafe(no_mangle)]
pub extern "C" fn tag_index_format(
    index: &mut [u8],
    keys: &mut [u64],
    used: &mut [u8],
    w: u64,
    e: u64,
    p: u64,
) -> Answer
    ensures { FormatDoes w e p index.old keys.old used.old index.new keys.new used.new result }
{
    tag_index::c::tag_index_format(index, keys, used, w, e, p)
}

// A key is held from now on, with a free record.
#[unsafe(no_mangle)]
pub extern "C" fn tag_index_on(
    index: &mut [u8],
    keys: &mut [u64],
    used: &mut [u8],
    key: u64,
    record: u32,
) -> Answer
    ensures { OnDoes index.old keys.old used.old key «record» index.new keys.new used.new result }
{
    tag_index::c::tag_index_on(index, keys, used, key, record)
}

// A held key is held no more.
#[unsafe(no_mangle)]
pub extern "C" fn tag_index_off(
    index: &mut [u8],
    keys: &mut [u64],
    used: &mut [u8],
    key: u64,
) -> Answer
    ensures { OffDoes index.old keys.old used.old key index.new keys.new used.new result }
{
    tag_index::c::tag_index_off(index, keys, used, key)
}

// The record of a held key.
#[unsafe(no_mangle)]
pub extern "C" fn tag_index_find(index: &[u8], keys: &[u64], used: &[u8], key: u64) -> Answer
    ensures { FindDoes index.now keys.now used.now key result }
{
    tag_index::c::tag_index_find(index, keys, used, key)
}

// The records of the keys from a to b, in key order, as many as the slice holds.
#[unsafe(no_mangle)]
pub extern "C" fn tag_index_list(
    index: &[u8],
    keys: &[u64],
    used: &[u8],
    a: u64,
    b: u64,
    out: &mut [u32],
) -> Answer
    ensures { ListDoes index.now keys.now used.now a b out.old out.new result }
{
    tag_index::c::tag_index_list(index, keys, used, a, b, out)
}

// Whether the tables are sound.
#[unsafe(no_mangle)]
pub extern "C" fn tag_index_check(index: &[u8], keys: &[u64], used: &[u8]) -> bool
    ensures { (result ≡ true) ↔ Sound index.now keys.now used.now }
{
    tag_index::c::tag_index_check(index, keys, used)
}

// Movements made in their order behind one check, each an on or an off; the number of each stands in the answers.
#[unsafe(no_mangle)]
pub extern "C" fn tag_index_load(
    index: &mut [u8],
    keys: &mut [u64],
    used: &mut [u8],
    movements: &[Movement],
    answers: &mut [u32],
) -> Answer
    ensures { LoadDoes (tables index.old keys.old used.old) movements.now answers.old (tables index.new keys.new used.new) answers.new result }
{
    tag_index::c::tag_index_load(index, keys, used, movements, answers)
}
