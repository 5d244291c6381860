// New entries put into the pages of a sound tree: the page found is changed and cut, its parts enter the parent, and so up.
#![tactic(auto)]

ghost use Rattle.std.specs.Prelude.{◌≡◌, [], ◌∷◌, suc, ◌+◌, ◌-◌, ◌<◌};
ghost use Rattle.page_tree.specs.Row.{row_of, Holds};
ghost use Rattle.index_write.specs.Storing.{new_leaves};
ghost use Rattle.table_search.specs.Places.{left_from};
ghost use Rattle.table_insert.specs.Placing.{PlacePre, PlacePost, PartPre, PartPost};
ghost use Rattle.table_insert.specs.Inserting.{page_ref, Replaced, AlonePre, InsertPre};
ghost use Rattle.table_insert.specs.NewRoots.{GrowPre, GrowPost};
ghost use Rattle.table_insert.specs.Putting.{PutPre, PutPost};

use index_table::layout::{PageNo, Root, child, count, depth};
use index_write::rows::splice_page;
use index_write::write::{find_free, store_page};
use page_tree::Row;
use table_search::{next_position, seek};

// A part of a row stored in a free page.
fn place_part(
    index: &mut [u8],
    e: u8,
    pages: u16,
    level: u8,
    row: Row,
    from: usize,
    to: usize,
) -> PageNo
    requires { PartPre e pages index.old row from to }
    ensures { PartPost e pages level index.old row from to index.new result.0 }
{
    let page = find_free(index, e, pages);
    store_page(index, e, page, level, row, from, to);
    page
}

// The parts of a row stored in pages of a level: the first in the page `own`, the others in free pages. The entries that point at them.
pub fn place_parts(index: &mut [u8], e: u8, pages: u16, level: u8, own: PageNo, row: Row) -> Row
    requires { PlacePre e pages index.old own.0 row }
    ensures { PlacePost e pages level index.old own.0 row index.new result }
{
    let cuts = row.cuts(e);
    let mut from = cuts.ends[0];
    store_page(index, e, own, level, row, 0, from);
    let mut r = Row::new();
    r.depths[0] = row.depths[from - 1];
    r.pointers[0] = u32::from(own);
    for k in 1..cuts.count {
        let to = cuts.ends[k];
        let page = place_part(index, e, pages, level, row, from, to);
        r.depths[k] = row.depths[to - 1];
        r.pointers[k] = u32::from(page);
        from = to;
    }
    r.count = cuts.count;
    r
}

// The page as an only entry, with its last depth.
fn page_alone(index: &[u8], e: u8, page: PageNo) -> Row
    requires { AlonePre e index.now page.0 }
    ensures { Holds result 1 (page_ref e index.now page.0 ∷ []) }
{
    let n = usize::from(count(index, e, page));
    let d = depth(index, e, page, n - 1);
    Row::new().push(d, u32::from(page))
}

// New entries in the place of the entry that figure 6 finds below a page of a level, and what then stands in the place of the page.
pub fn insert(
    index: &mut [u8],
    e: u8,
    pages: u16,
    level: u8,
    page: PageNo,
    w: u64,
    key: u64,
    position: u64,
    trail: u64,
    news: Row,
) -> Row
    requires { InsertPre index.old e pages level page.0 w key position trail news }
    ensures { Replaced e pages (new_leaves news) (suc level) (left_from w key position) trail index.old (page_ref e index.old page.0) index.new result }
{
    let s = seek(index, e, page, w, key, position, trail);
    let at = s.at;
    if level == 0 {
        let row = splice_page(index, e, page, at, news);
        return place_parts(index, e, pages, level, page, row);
    }
    let below = child(index, e, page, at);
    let parts = insert(
        index,
        e,
        pages,
        level - 1,
        below,
        w,
        key,
        s.position,
        s.trail,
        news,
    );
    if parts.count == 1 {
        return page_alone(index, e, page);
    }
    let row = splice_page(index, e, page, at, parts);
    place_parts(index, e, pages, level, page, row)
}

// The root above the parts of a page of a level: one part is the root; else the row of the parts stands one level up, and so on.
pub fn grow(index: &mut [u8], e: u8, pages: u16, level: u8, parts: Row) -> Root
    requires { GrowPre e pages level index.old parts }
    ensures { GrowPost e pages level index.old (row_of parts) index.new result }
{
    if parts.count <= 1 {
        return Root {
            page: PageNo::from_pointer(parts.pointers[0]),
            level,
        };
    }
    let own = find_free(index, e, pages);
    let row = place_parts(index, e, pages, level + 1, own, parts);
    grow(index, e, pages, level + 1, row)
}

// New entries in the place of the entry that figure 6 finds for a key below the root; the root of the tree with them.
pub fn put_in(
    index: &mut [u8],
    e: u8,
    pages: u16,
    level: u8,
    root: PageNo,
    w: u64,
    key: u64,
    news: Row,
) -> Root
    requires { PutPre index.old e pages level root.0 w key news }
    ensures { PutPost index.old e pages level root.0 w key news index.new result }
{
    let position = next_position(w, key, 0);
    let parts = insert(index, e, pages, level, root, w, key, position, 0, news);
    grow(index, e, pages, level, parts)
}
