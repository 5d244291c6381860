// Merging below a page: figure 12 along the way of a key, from level 0 up.
#![tactic(auto)]

ghost use Rattle.std.specs.Prelude.{◌≡◌, suc, ◌<◌};
ghost use Rattle.index_table.specs.Layout.{layout_of};
ghost use Rattle.index_table.specs.Pages.{pages_at};
ghost use Rattle.table_search.specs.Places.{left_from};
ghost use Rattle.tree_merge.specs.Merges.{GatherPre, gathered, joinable_at, entry_at, PairPre, JoinPre, JoinPost, PlacePre, SparsePre, LeftPost, RightPre, BesidePost, MergePre, Merged};

use index_table::layout::{PageNo, child, count, depth};
use index_write::rows::{append_page, load_page};
use index_write::write::{free_page, store_page};
use page_tree::Entry;
use table_search::{seek, sparse};
use tree_delete::rows::{close, put, settle};

// Stores the entries of a page behind those of the page left of it, and frees the page.
fn gather(index: &mut [u8], e: u8, level: u8, left: PageNo, right: PageNo)
    requires { GatherPre e index.old left.0 right.0 }
    ensures { index.new ≡ gathered e level index.old left.0 right.0 }
{
    let first = load_page(index, e, left);
    let n = usize::from(count(index, e, right));
    let row = append_page(first, index, e, right, 0, n);
    let m = row.count;
    store_page(index, e, left, level, row, 0, m);
    free_page(index, e, right);
}

// Says whether the pages of entries j and j + 1 of a page of level + 1 may be one: the left one ends deeper, and both fit.
fn joinable(index: &[u8], e: u8, pages: u16, level: u8, d: u8, page: PageNo, j: usize) -> bool
    requires { PairPre e pages level index.now (d, page.0) j }
    ensures { result ≡ joinable_at e (pages_at (layout_of e) index.now) (entry_at (pages_at (layout_of e) index.now) page.0 j) (entry_at (pages_at (layout_of e) index.now) page.0 (suc j)) }
{
    let a = depth(index, e, page, j);
    let b = depth(index, e, page, j + 1);
    let left = child(index, e, page, j);
    let right = child(index, e, page, j + 1);
    b < a
        && usize::from(count(index, e, left)) + usize::from(count(index, e, right))
            <= usize::from(e)
}

// Makes one page of those of entries j and j + 1 of a page of level + 1, under the number of the left one and with the entry of the right one's depth.
fn join(index: &mut [u8], e: u8, pages: u16, level: u8, d: u8, page: PageNo, j: usize)
    requires { JoinPre e pages level index.old (d, page.0) j × (level < 255) }
    ensures { JoinPost e pages level index.old (d, page.0) j index.new }
{
    let left = child(index, e, page, j);
    let right = child(index, e, page, j + 1);
    let entry = Entry {
        depth: depth(index, e, page, j + 1),
        pointer: u32::from(left),
    };
    let mut row = load_page(index, e, page);
    gather(index, e, level, left, right);
    let at = put(&mut row, j + 2, Some(entry));
    close(&mut row, j, at);
    settle(index, e, level + 1, page, row);
}

// Joins the page of entry `at` of a page of level + 1 with its left neighbour where they may be one, and returns whether it did.
fn join_left(index: &mut [u8], e: u8, pages: u16, level: u8, d: u8, page: PageNo, at: usize) -> bool
    requires { SparsePre e pages level index.old (d, page.0) at × (level < 255) }
    ensures { LeftPost e pages level index.old (d, page.0) at index.new result }
{
    if at == 0 || !joinable(index, e, pages, level, d, page, at - 1) {
        return false;
    }
    join(index, e, pages, level, d, page, at - 1);
    true
}

// Joins it with its right neighbour where they may be one; the left one cannot be joined.
fn join_right(index: &mut [u8], e: u8, pages: u16, level: u8, d: u8, page: PageNo, at: usize)
    requires { RightPre e pages level index.old (d, page.0) at × (level < 255) }
    ensures { BesidePost e pages level index.old (d, page.0) at index.new }
{
    if at + 1 < usize::from(count(index, e, page))
        && joinable(index, e, pages, level, d, page, at)
    {
        join(index, e, pages, level, d, page, at);
    }
}

// Joins the page of entry `at` of a page of level + 1 with a neighbour, where it is sparse and they may be one: the left one, or else the right one.
fn join_beside(index: &mut [u8], e: u8, pages: u16, level: u8, d: u8, page: PageNo, at: usize)
    requires { PlacePre e pages level index.old (d, page.0) at × (level < 255) }
    ensures { BesidePost e pages level index.old (d, page.0) at index.new }
{
    let below = child(index, e, page, at);
    if sparse(index, e, below) && !join_left(index, e, pages, level, d, page, at) {
        join_right(index, e, pages, level, d, page, at);
    }
}

// Goes from a page of a level, whose last depth is d, down to the page that covers a key, and joins on the way back, level by level, a sparse page with a
// neighbour. Below a page of a level under `lowest` nothing is to be joined.
// The entry stands as its depth and its page, here and above: an `Entry` is no plainer, since its pointer would be made a page's number on each level.
pub fn merge(
    index: &mut [u8],
    e: u8,
    pages: u16,
    level: u8,
    d: u8,
    page: PageNo,
    w: u64,
    key: u64,
    position: u64,
    lowest: u8,
)
    requires { MergePre e pages level index.old (d, page.0) w key position lowest }
    ensures { Merged e pages level index.old (d, page.0) (left_from w key position) index.new }
{
    if level < lowest {
        return;
    }
    let s = seek(index, e, page, w, key, position, 0);
    let at = s.at;
    let c = depth(index, e, page, at);
    let below = child(index, e, page, at);
    merge(
        index,
        e,
        pages,
        level - 1,
        c,
        below,
        w,
        key,
        s.position,
        lowest,
    );
    join_beside(index, e, pages, level - 1, d, page, at);
}
