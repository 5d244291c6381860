// The pages of sound tables changed, with the header's root and records held.
#![tactic(auto)]

ghost use Rattle.std.specs.Prelude.{◌≡◌, ◌-◌, ◌≤◌, length};
ghost use Rattle.page_tree.specs.Numbered.{off_numbered};
ghost use Rattle.index_table.specs.Refusals.{answer_number};
ghost use Rattle.index_table.specs.Header.{width_of, entries_of, held_of};
ghost use Rattle.index_table.specs.Layout.{Within, layout_of};
ghost use Rattle.index_table.specs.Soundness.{numbered_tree_of};
ghost use Rattle.new_entries.specs.Entries.{refs_for};
ghost use Rattle.index_change.specs.Repaging.{OffPagesPre, Repaged, late_row_with, OnPagesPre, Roomy, OnPages, room_for, OpenPre, opened_with};

use index_table::header::Index;
use index_table::layout::PageNo;
use index_table::refusal::Refusal;
use new_entries::entries::News;
use page_tree::Row;
use table_search::Leaf;

// The entry that figure 6 finds for a key, at the leaf, is taken out.
pub fn strike_pages(index: &mut [u8], key: u64, leaf: Leaf)
    requires { OffPagesPre index.old key leaf }
    ensures { Repaged index.old (off_numbered (width_of index.old) (entries_of index.old) key (numbered_tree_of index.old)) (held_of index.old - 1) index.new }
{
    let h = index_table::header::read(index);
    let level = index_table::layout::level(index, h.entries, h.root);
    let root = table_delete::take_out_at(
        index,
        h.entries,
        h.pages,
        level,
        h.root,
        u64::from(h.width),
        key,
        leaf,
    );
    index_write::write::set_root(index, root.page);
    index_write::write::set_held(index, h.held - 1);
}

// Refuses an insertion of the entries by row 8 or 7, the first that applies.
pub fn late_row(index: &[u8], key: u64, news: Row) -> Result<(), Refusal>
    requires { OnPagesPre index.now key news }
    ensures { answer_number result ≡ late_row_with index.now key news }
{
    let h = index_table::header::read(index);
    let level = index_table::layout::level(index, h.entries, h.root);
    let after = table_plan::plan_insertion(
        index,
        h.entries,
        h.pages,
        level,
        h.root,
        u64::from(h.width),
        key,
        news,
    );
    if after.level > usize::from(Index::MAX_LEVEL) {
        return Err(Refusal::RootTooHigh);
    }
    if after.fresh == 0 {
        return Ok(());
    }
    let n = table_plan::pages_in_use(index, h.entries, h.pages);
    if n + after.fresh > usize::from(h.pages) {
        return Err(Refusal::OutOfPages);
    }
    Ok(())
}

// Whether a page has room for n entries in the place of one of its own.
pub fn has_room(index: &[u8], page: PageNo, n: usize) -> bool
    requires { (16 ≤ length index.now) × Within (layout_of (entries_of index.now)) index.now page.0 × (n ≤ 319) }
    ensures { result ≡ room_for index.now page.0 n }
{
    let e = index_table::header::read(index).entries;
    let m = index_table::layout::count(index, e, page);
    usize::from(m) + n <= usize::from(e) + 1
}

// New entries are put in the place of entry `at` of a page that has room for them.
pub fn open_leaf(index: &mut [u8], page: PageNo, at: usize, key: u64, news: News)
    requires { OpenPre index.old page.0 at key news }
    ensures { index.new ≡ opened_with index.old page.0 at (refs_for (width_of index.old) key news) }
{
    let head = index_table::header::read(index);
    let place = page_change::open::open_page(index, head.entries, page, at, news.count());
    new_entries::news::write_news(index, place, u64::from(head.width), key, news);
    index_write::write::set_held(index, head.held + 1);
}

// Entries are put in the place of the one that figure 6 finds for a key.
pub fn splice_pages(index: &mut [u8], key: u64, news: Row)
    requires { OnPagesPre index.old key news × Roomy index.old key news }
    ensures { OnPages index.old key news index.new }
{
    let h = index_table::header::read(index);
    let level = index_table::layout::level(index, h.entries, h.root);
    let root = table_insert::put_in(
        index,
        h.entries,
        h.pages,
        level,
        h.root,
        u64::from(h.width),
        key,
        news,
    );
    index_write::write::set_root(index, root.page);
    index_write::write::set_held(index, h.held + 1);
}
