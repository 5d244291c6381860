// Down to the entry that figure 6 finds, with the depths before and after it, and back.
ghost use Rattle.std.specs.Prelude.{◌≡◌, drop};
ghost use Rattle.index_table.specs.Layout.{layout_of};
ghost use Rattle.index_table.specs.Pages.{pages_at};
ghost use Rattle.tree_delete.specs.Removing.{FirstPre, FirstPost, AfterPre, following_at, RemovePre, RemovePost};

use crate::rows::{put, settle};
use crate::unwinding::sweep;
use entry_delete::{Remnant, strike};
use index_table::layout::{PageNo, count, depth, pointer};
use index_write::rows::load_page;
use page_tree::Entry;
use table_search::seek;

// The depth of the first entry on level 0 below an entry.
fn first_depth(index: &[u8], e: u8, pages: u16, rank: u8, entry: Entry) -> u8
    requires { FirstPre e pages rank index.now (entry.depth, entry.pointer) }
    ensures { FirstPost rank (pages_at (layout_of e) index.now) (entry.depth, entry.pointer) result }
{
    if rank == 0 {
        return entry.depth;
    }
    let page = PageNo::from_pointer(entry.pointer);
    let first = Entry {
        depth: depth(index, e, page, 0),
        pointer: pointer(index, e, page, 0),
    };
    first_depth(index, e, pages, rank - 1, first)
}

// The depth on level 0 that follows the first i entries of a page of a level, where `next` follows the page.
pub fn after(index: &[u8], e: u8, pages: u16, level: u8, page: PageNo, i: usize, next: u8) -> u8
    requires { AfterPre e pages level index.now page.0 }
    ensures { result ≡ following_at level (pages_at (layout_of e) index.now) next (drop i (pages_at (layout_of e) index.now page.0)) }
{
    if usize::from(count(index, e, page)) <= i {
        return next;
    }
    let entry = Entry {
        depth: depth(index, e, page, i),
        pointer: pointer(index, e, page, i),
    };
    first_depth(index, e, pages, level, entry)
}

// Figure 11 below an entry of a rank: down to the entry found, and back to the left.
pub fn remove(
    index: &mut [u8],
    e: u8,
    pages: u16,
    rank: u8,
    entry: Entry,
    w: u64,
    key: u64,
    position: u64,
    trail: u64,
    next: u8,
) -> Remnant
    requires { RemovePre e pages rank index.old (entry.depth, entry.pointer) w key position }
    ensures { RemovePost e pages rank index.old (entry.depth, entry.pointer) w key position trail next index.new result }
{
    if rank == 0 {
        return strike(entry.depth, trail, next);
    }
    let level = rank - 1;
    let page = PageNo::from_pointer(entry.pointer);
    let mut row = load_page(index, e, page);
    let spot = seek(index, e, page, w, key, position, trail);
    let i = spot.at;
    let next = after(index, e, pages, level, page, i + 1, next);
    let found = Entry {
        depth: row.depth(i),
        pointer: row.pointer(i),
    };
    let x = remove(
        index,
        e,
        pages,
        level,
        found,
        w,
        key,
        spot.position,
        spot.trail,
        next,
    );
    let at = put(&mut row, i + 1, x.left);
    let state = sweep(index, e, pages, level, &mut row, i, at, x.state);
    let left = settle(index, e, level, page, row);
    Remnant { left, state }
}
