// On in sound tables.
ghost use Rattle.std.specs.Prelude.{◌≡◌, ◌<◌, length, set};
ghost use Rattle.index_table.specs.Refusals.{answer_number};
ghost use Rattle.index_table.specs.Soundness.{Sound};
ghost use Rattle.table_find.specs.Answers.{plain};
ghost use Rattle.table_change.specs.Changes.{OnDone, OnChanges};
ghost use Rattle.table_change.specs.News.{NewKey, FreeRecord};
ghost use Rattle.index_change.specs.Repaging.{Roomy};
ghost use Rattle.table_change.specs.FoundKeys.{FoundKey, FittingKey};

use index_table::refusal::Refusal;
use new_entries::entries::News;
use page_tree::Row;
use table_search::Leaf;

// The key of a record, and its byte.
fn enter(keys: &mut [u64], used: &mut [u8], key: u64, record: u32)
    requires { («record» < length keys.old) × («record» < length used.old) }
    ensures { (keys.new ≡ set keys.old «record» key) × (used.new ≡ set used.old «record» 1) }
{
    let at = record as usize;
    keys[at] = key;
    used[at] = 1;
}

// A new key is put into the page found, which has room, and its record is in use.
fn open_on(
    index: &mut [u8],
    keys: &mut [u64],
    used: &mut [u8],
    key: u64,
    record: u32,
    leaf: Leaf,
    news: News,
)
    requires { FittingKey index.old keys.old used.old key «record» leaf news }
    ensures { OnDone index.old keys.old used.old key «record» index.new keys.new used.new }
{
    index_change::open_leaf(index, leaf.page, leaf.at, key, news);
    enter(keys, used, key, record);
}

// A new key is put in, and its record is in use.
fn put_on(index: &mut [u8], keys: &mut [u64], used: &mut [u8], key: u64, record: u32, news: Row)
    requires { NewKey index.old keys.old used.old key «record» news × Roomy index.old key news }
    ensures { OnDone index.old keys.old used.old key «record» index.new keys.new used.new }
{
    index_change::splice_pages(index, key, news);
    enter(keys, used, key, record);
}

// Row 8 or 7, or a new key is put in, and pages are cut.
fn cut_on(
    index: &mut [u8],
    keys: &mut [u64],
    used: &mut [u8],
    key: u64,
    record: u32,
    news: Row,
) -> Result<(), Refusal>
    requires { NewKey index.old keys.old used.old key «record» news }
    ensures { OnChanges index.old keys.old used.old key «record» index.new keys.new used.new (plain (answer_number result)) }
{
    index_change::late_row(index, key, news)?;
    put_on(index, keys, used, key, record, news);
    Ok(())
}

// A new key is put in: into the page found where it has room, else by cutting pages, with row 8 or 7.
fn place_on(
    index: &mut [u8],
    keys: &mut [u64],
    used: &mut [u8],
    key: u64,
    record: u32,
    leaf: Leaf,
    news: News,
) -> Result<(), Refusal>
    requires { FoundKey index.old keys.old used.old key «record» leaf news }
    ensures { OnChanges index.old keys.old used.old key «record» index.new keys.new used.new (plain (answer_number result)) }
{
    if index_change::has_room(index, leaf.page, news.count()) {
        open_on(index, keys, used, key, record, leaf, news);
        return Ok(());
    }
    let w = index_table::header::width(index);
    let row = new_entries::news::row_of(w, key, news);
    cut_on(index, keys, used, key, record, row)
}

// Row 5, 8 or 7, or the key is put in with a free record.
fn on_free(
    index: &mut [u8],
    keys: &mut [u64],
    used: &mut [u8],
    key: u64,
    record: u32,
) -> Result<(), Refusal>
    requires { FreeRecord index.old keys.old used.old key «record» }
    ensures { OnChanges index.old keys.old used.old key «record» index.new keys.new used.new (plain (answer_number result)) }
{
    let leaf = table_find::find::leaf_of(index, keys, used, key);
    if crate::rows::is_key(keys, leaf.pointer, key) {
        return Err(Refusal::KeyHeld);
    }
    let w = index_table::header::width(index);
    let news = new_entries::entries::new_entries(keys, w, key, record, leaf);
    place_on(index, keys, used, key, record, leaf, news)
}

// Rows 2 to 5, 8 and 7, or the key is put in.
pub fn on_sound(
    index: &mut [u8],
    keys: &mut [u64],
    used: &mut [u8],
    key: u64,
    record: u32,
) -> Result<(), Refusal>
    requires { Sound index.old keys.old used.old }
    ensures { OnChanges index.old keys.old used.old key «record» index.new keys.new used.new (plain (answer_number result)) }
{
    crate::rows::early_row(index, used, key, record)?;
    on_free(index, keys, used, key, record)
}
