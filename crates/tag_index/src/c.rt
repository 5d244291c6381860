// The calls by the names that C calls them by, each with the answer that C gets.
ghost use Rattle.std.specs.Prelude.{◌≡◌, true, ◌↔◌};
ghost use Rattle.index_table.specs.Soundness.{Sound};
ghost use Rattle.table_format.specs.Format.{FormatDoes};
ghost use Rattle.tag_index.specs.Changing.{OnDoes, OffDoes};
ghost use Rattle.tag_index.specs.Reading.{FindDoes, ListDoes};
ghost use Rattle.tag_index.specs.Tables.{tables};
ghost use Rattle.tag_index.specs.Loads.{LoadDoes};

use crate::load::Movement;
use table_find::answer::Answer;

pub fn tag_index_format(
    index: &mut [u8],
    keys: &mut [u64],
    used: &mut [u8],
    w: u64,
    e: u64,
    p: u64,
) -> Answer
    ensures { FormatDoes w e p index.old keys.old used.old index.new keys.new used.new result }
{
    Answer::from(table_format::format(index, keys, used, w, e, p))
}

pub fn tag_index_on(
    index: &mut [u8],
    keys: &mut [u64],
    used: &mut [u8],
    key: u64,
    record: u32,
) -> Answer
    ensures { OnDoes index.old keys.old used.old key «record» index.new keys.new used.new result }
{
    Answer::from(crate::change::on(index, keys, used, key, record))
}

pub fn tag_index_off(index: &mut [u8], keys: &mut [u64], used: &mut [u8], key: u64) -> Answer
    ensures { OffDoes index.old keys.old used.old key index.new keys.new used.new result }
{
    Answer::from(crate::change::off(index, keys, used, key))
}

pub fn tag_index_find(index: &[u8], keys: &[u64], used: &[u8], key: u64) -> Answer
    ensures { FindDoes index.now keys.now used.now key result }
{
    Answer::from(crate::read::find(index, keys, used, key))
}

pub fn tag_index_list(
    index: &[u8],
    keys: &[u64],
    used: &[u8],
    a: u64,
    b: u64,
    out: &mut [u32],
) -> Answer
    ensures { ListDoes index.now keys.now used.now a b out.old out.new result }
{
    Answer::from(crate::read::list(index, keys, used, a, b, out))
}

pub fn tag_index_check(index: &[u8], keys: &[u64], used: &[u8]) -> bool
    ensures { (result ≡ true) ↔ Sound index.now keys.now used.now }
{
    crate::read::check(index, keys, used)
}

// Works through a load: 01 wants one thin loop over the lent movements, which calls the change on plain values.
pub fn tag_index_load(
    index: &mut [u8],
    keys: &mut [u64],
    used: &mut [u8],
    movements: &[Movement],
    answers: &mut [u32],
) -> Answer
    ensures { LoadDoes (tables index.old keys.old used.old) movements.now answers.old (tables index.new keys.new used.new) answers.new result }
{
    let answer = Answer::from(crate::load::load_row(index, keys, used, answers, movements.len()));
    let n = crate::load::turns(answer.number, movements.len());
    for i in 0..n {
        let m = movements[i];
        crate::load::move_one(index, keys, used, m.key, m.record, m.on, answers, i);
    }
    answer
}
